// Where statements stand, and their numbers.
ghost use Rattle.std.specs.Prelude.{◌≡◌, ◌+◌, suc, IfOk, map};
ghost use Rattle.cad_environment.specs.Views.{local_of};
ghost use Rattle.cad_typing.specs.Statements as spec;
ghost use Rattle.cad_statement_parts.specs.Blocks as blocks_spec;
ghost use Rattle.cad_statement_parts.specs.Blocks.{around, inner};
ghost use Rattle.cad_statement_parts.specs.Views.{surroundings_of};

use crate::typing::Surroundings;
use cad_environment::{Environment, Local, Scopes, more};
use std::alloc::AllocError;

/// The number behind one of a statement.
pub fn after(at: u64) -> Result<u64, AllocError>
    ensures value { IfOk result (λ n. n ≡ suc at) }
    ensures sum { IfOk result (λ n. n ≡ at + 1) }
{
    at.checked_add(1).ok_or(AllocError)
}

/// The number of the first statement inside one whose own parts are typed; where they aren't it stops at its own.
pub fn first_inside<T>(at: u64, parts: &Option<T>) -> Result<Result<u64, u64>, AllocError>
    ensures { IfOk result (λ n. n ≡ blocks_spec.first_inside at parts.now) }
{
    match parts {
        None => Ok(Err(at)),
        Some(_) => Ok(Ok(after(at)?)),
    }
}

/// The number behind what is typed, or where it stopped.
pub fn number_behind<T>(typed: &Result<(T, u64), u64>) -> Result<u64, u64>
    ensures { result ≡ blocks_spec.number_behind typed.now }
{
    match typed {
        Ok((_, next)) => Ok(*next),
        Err(stop) => Err(*stop),
    }
}

/// Where the statements of a loop stand.
pub fn in_loop<'a>(w: Surroundings<'a>) -> Surroundings<'a>
    ensures { surroundings_of result ≡ spec.in_loop (surroundings_of w.entry) }
{
    Surroundings {
        may_break: true,
        may_continue: true,
        ..w
    }
}

/// Where the statements of a `switch` stand.
pub fn in_switch<'a>(w: Surroundings<'a>) -> Surroundings<'a>
    ensures { surroundings_of result ≡ spec.in_switch (surroundings_of w.entry) }
{
    Surroundings {
        may_break: true,
        ..w
    }
}

/// A length that is counted by a `u32`.
fn counted(length: usize) -> Result<u32, AllocError>
    ensures { IfOk result (λ n. n ≡ length) }
{
    match u32::try_from(length) {
        Ok(n) => Ok(n),
        Err(_) => Err(AllocError),
    }
}

/// What is around a block: these variables are in a scope outside it.
pub fn opened<'a>(
    w: &'a Surroundings<'a>,
    locals: &'a [Local],
) -> Result<Surroundings<'a>, AllocError>
    ensures { IfOk result (λ x. surroundings_of x ≡ around (map local_of locals.now) (surroundings_of w.now)) }
{
    let length = counted(locals.len())?;
    let in_use = more(w.env.in_use, length)?;
    Ok(within(w, locals, in_use))
}

/// Where a statement of a block stands: behind these variables of the block's own.
pub fn within<'a>(outer: &'a Surroundings<'a>, locals: &'a [Local], in_use: u32) -> Surroundings<'a>
    ensures { surroundings_of result ≡ inner (surroundings_of outer.now) (map local_of locals.now) in_use }
{
    let env = Environment {
        scopes: Scopes::Inside(locals, &outer.env.scopes),
        in_use,
        ..outer.env
    };
    Surroundings { env, ..*outer }
}
