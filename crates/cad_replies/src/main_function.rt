// `main` of a script.
ghost use Rattle.std.specs.Prelude.{◌≡◌, ◌&&◌, IfOk, find, map, not, option_map};
ghost use Rattle.std.specs.Option.{is_some};
ghost use Rattle.cad_declarations.specs.Views.{function_of, member_body_of, member_of};
ghost use Rattle.cad_runs.specs.Commands as spec;
ghost use Rattle.cad_runs.specs.Run.{main_name};
ghost use Rattle.cad_state.specs.Views.{program_of};
ghost use Rattle.cad_world.specs.Declared as declared;

use cad_access::function_in;
use cad_declarations::{Checked, Member, MemberAccess, TypedFunction, TypedMember};
use cad_scopes::is_spelled;
use cad_syntax::{Name, Text};
use std::alloc::{AllocError, Global};

/// The name of the function that a script calls.
pub fn main_name(alloc: Global) -> Result<Name, AllocError>
    ensures { IfOk result (λ name. name ≡ main_name) }
{
    Ok(Name(Text::from_str(alloc, "main")?))
}

/// Whether everybody may use a member.
fn is_free(access: &MemberAccess) -> bool
    ensures { result ≡ spec.is_free access.now }
{
    matches!(access, MemberAccess::All)
}

/// Whether a member is `main`, and everybody may call it.
fn is_main(member: &Member) -> bool
    ensures { result ≡ spec.is_main (member_of member.now) }
{
    is_spelled(&member.name, "main") && is_free(&member.access)
}

/// Whether one of these members is `main`, and everybody may call it.
fn have_main(members: &[Member]) -> bool
    ensures { result ≡ is_some (find spec.is_main (map member_of members.now)) }
{
    for member in members {
        if is_main(member) {
            return true;
        }
    }
    false
}

/// The function with a name.
fn function_named<'a>(members: &'a [TypedMember], name: &Name) -> Option<&'a TypedFunction>
    ensures { option_map (λ f. function_of f.now) result ≡ option_map (λ m. m.function) (declared.function_in (map member_body_of members.now) name.now) }
{
    match function_in(members, name) {
        Some(member) => Some(&member.function),
        None => None,
    }
}

/// Whether a program is functions, and one of them is a `main` that everybody may call.
fn is_script(checked: &Checked) -> bool
    ensures { result ≡ (not (is_some (program_of checked.now).bodies.transaction) && is_some (find spec.is_main (program_of checked.now).tables.functions)) }
{
    checked.bodies.transaction.is_none() && have_main(checked.tables.functions.as_slice())
}

/// `main` of a script, by its name. None of a program that isn't functions, or has no `main` that everybody may call.
pub fn main_of<'a>(checked: &'a Checked, name: &Name) -> Option<&'a TypedFunction>
    ensures { name.now ≡ main_name → option_map (λ f. function_of f.now) result ≡ spec.main_of (program_of checked.now) }
{
    if is_script(checked) {
        function_named(checked.bodies.functions.as_slice(), name)
    } else {
        None
    }
}
