// Marks that fall one at a time: where those of a declaration fell, those are looked at whose fields name it. No answer rests
// on the order in which declarations are looked at, nor on whether all were.
ghost use Rattle.std.specs.Prelude.{OnOk};
ghost use Rattle.cad_types.specs.Code.Judged.{IsAtLeast};
ghost use Rattle.cad_types.specs.Code.Views.{listed};

use crate::marks::{Marks, kept};
use crate::table::TypeTable;
use cad_syntax::CadType;
use std::alloc::{AllocError, Global};

/// Takes marks off until none is left to be taken off, in no more steps than there are fields, but for a factor.
pub fn settle(alloc: Global, table: &TypeTable, marks: &mut Vec<Marks>) -> Result<(), AllocError>
    requires { IsAtLeast (listed table.now) marks.now.items }
    ensures { OnOk result (IsAtLeast (listed table.now) marks.new.items) }
{
    let users = users(alloc, table)?;
    let mut waiting = all_places(alloc, marks.len())?;
    for _ in 0..most_steps(users.as_slice()) {
        let Some(place) = waiting.pop() else {
            return Ok(());
        };
        if lower(table, marks, place) {
            wait(&mut waiting, users.as_slice(), place)?;
        }
    }
    Ok(())
}

/// Takes off the marks that a declaration's fields don't allow. Whether there were such.
fn lower(table: &TypeTable, marks: &mut Vec<Marks>, place: usize) -> bool
    requires { IsAtLeast (listed table.now) marks.now.items }
    ensures { IsAtLeast (listed table.now) marks.new.items }
{
    let declared = table.declared();
    if place >= declared.len() || place >= marks.len() {
        return false;
    }
    let old = marks[place];
    let new = kept(table, marks.as_slice(), &declared[place], old);
    marks[place] = new;
    new != old
}

/// The places from the first one on.
fn all_places(alloc: Global, count: usize) -> Result<Vec<usize>, AllocError> {
    let mut places = Vec::new(alloc);
    for place in 0..count {
        places.push(place)?;
    }
    Ok(places)
}

/// Each declaration is looked at once, and again whenever one that its fields name lost a mark, of which it has three.
fn most_steps(users: &[Vec<usize>]) -> usize {
    let mut most = users.len();
    for of_one in users {
        most = most.saturating_add(of_one.len().saturating_mul(3));
    }
    most
}

/// The users of a declaration wait to be looked at.
fn wait(waiting: &mut Vec<usize>, users: &[Vec<usize>], place: usize) -> Result<(), AllocError> {
    if let Some(of_one) = users.get(place) {
        for user in of_one {
            waiting.push(*user)?;
        }
    }
    Ok(())
}

/// For each declaration the places of those whose fields name it.
fn users(alloc: Global, table: &TypeTable) -> Result<Vec<Vec<usize>>, AllocError> {
    let mut users = Vec::new(alloc);
    for _declared in table.declared() {
        users.push(Vec::new(alloc))?;
    }
    for (place, d) in table.declared().iter().enumerate() {
        for t in d.fields.as_slice() {
            note(&mut users, table, place, t)?;
        }
    }
    Ok(users)
}

/// Notes a declaration as a user of those that a type names, as far as classes look into it.
fn note(
    users: &mut Vec<Vec<usize>>,
    table: &TypeTable,
    place: usize,
    t: &CadType,
) -> Result<(), AllocError> {
    match t {
        CadType::Optional(part) | CadType::Array(part) => note(users, table, place, part),
        CadType::Dictionary(key, value) => {
            note(users, table, place, key)?;
            note(users, table, place, value)
        }
        CadType::Declared(id) => {
            if let Some(used) = table.place(id)
                && used < users.len()
            {
                users[used].push(place)?;
            }
            Ok(())
        }
        _ => Ok(()),
    }
}
