// Stops of declarations and of functions with their statements.
ghost use Rattle.std.specs.Prelude.{◌≡◌, map, option_map, option_copied, reverse, IfOk};
ghost use Rattle.cad_grammar.specs.Views.{function_of, init_of, event_of};
ghost use Rattle.cad_declarations.specs.Build as build;
ghost use Rattle.cad_declarations.specs.Points as spec;
ghost use Rattle.cad_scopes.specs.Views.{scope_of};
ghost use Rattle.cad_stop_points.specs.Code.Stops as stops;

use crate::before::NamesBefore;
use crate::body_rows::{missing_in_block, missing_in_option};
use crate::names::{below, is_new, word};
use crate::right::{event_is_right, head_is_there, parameters_are_there};
use cad_declarations::Stop;
use cad_grammar::{Event, Function, Init};
use cad_scopes::Scope;
use cad_syntax::Name;
use std::alloc::{AllocError, Global};

/// The stop of a declaration that isn't right.
pub fn unless_right(
    alloc: Global,
    is_right: bool,
    names: &[Name],
    name: &Name,
) -> Result<Option<Stop>, AllocError>
    ensures { IfOk result (λ s. s ≡ stops.unless_right is_right (spec.below names.now name.now)) }
{
    if is_right {
        return Ok(None);
    }
    Ok(Some(Stop {
        inside: below(alloc, names, name)?,
        at: 0,
    }))
}

/// The stop at a statement of a function.
pub fn told_stop(
    alloc: Global,
    names: &[Name],
    name: &Name,
    missing: Option<u64>,
) -> Result<Option<Stop>, AllocError>
    ensures { IfOk result (λ s. s ≡ stops.told_stop (spec.below names.now name.now) missing) }
{
    match missing {
        Some(at) => Ok(Some(Stop {
            inside: below(alloc, names, name)?,
            at,
        })),
        None => Ok(None),
    }
}

/// The stop of a function, by the names in front of its own.
#[tactic(auto, using(crate::proofs::Stops::told_rows))]
pub fn function_stop(
    alloc: Global,
    scope: Scope<'_>,
    names: &[Name],
    before: &NamesBefore,
    x: &Function,
) -> Result<Option<Stop>, AllocError>
    ensures { IfOk result (λ s. s ≡ build.point_stop (scope_of scope.entry) (spec.function_point (scope_of scope.entry) names.now (reverse before.now) (function_of x.now))) }
{
    if !is_new(before, &x.name) || !head_is_there(alloc, scope, x)? {
        return unless_right(alloc, false, names, &x.name);
    }
    let missing = missing_in_option(alloc, scope, x.block.as_ref())?;
    told_stop(alloc, names, &x.name, missing)
}

/// The stop of an initializer.
#[tactic(auto, using(crate::proofs::Stops::told_rows))]
pub fn init_stop(
    alloc: Global,
    scope: Scope<'_>,
    names: &[Name],
    before: &NamesBefore,
    x: &Init,
) -> Result<Option<Stop>, AllocError>
    ensures { IfOk result (λ s. s ≡ build.point_stop (scope_of scope.entry) (spec.init_point (scope_of scope.entry) names.now (reverse before.now) (init_of x.now))) }
{
    let name = word(alloc, "init")?;
    if !is_new(before, &name) || !parameters_are_there(alloc, scope, x.parameters.as_slice())? {
        return unless_right(alloc, false, names, &name);
    }
    let missing = missing_in_block(alloc, scope, &x.block)?;
    told_stop(alloc, names, &name, missing)
}

/// The stop of an event, by whether it has its place there.
pub fn event_stop(
    alloc: Global,
    scope: Scope<'_>,
    names: &[Name],
    before: &NamesBefore,
    is_placed: bool,
    x: &Event,
) -> Result<Option<Stop>, AllocError>
    ensures { IfOk result (λ s. s ≡ build.point_stop (scope_of scope.entry) (spec.event_point (scope_of scope.entry) names.now (reverse before.now) is_placed (event_of x.now))) }
{
    let there = event_is_right(alloc, scope, x)?;
    unless_right(
        alloc,
        is_new(before, &x.name) && is_placed && there,
        names,
        &x.name,
    )
}
