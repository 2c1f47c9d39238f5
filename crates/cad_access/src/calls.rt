// The call that runs, and whose code it is.
ghost use Rattle.std.specs.Prelude.{◌≡◌, option_map};
ghost use Rattle.cad_world.specs.Labels as labels;
ghost use Rattle.cad_evaluation.specs.Access as spec;
ghost use Rattle.cad_state.specs.Views.{frame_of};
ghost use Rattle.cad_access.specs.Calls.{made_by, made_label as label_of_made};
ghost use Rattle.cad_access.specs.RunContracts.{run_of};

use cad_state::{Call, RunState};
use cad_syntax::TypeId;

/// The newest call.
pub fn newest(state: &RunState) -> Option<&Call>
    ensures { option_map (λ call. frame_of call.now) result ≡ labels.newest (run_of state.now) }
{
    state.calls.as_slice().last()
}

/// The type whose code runs; none outside of types.
pub fn within(state: &RunState) -> Option<&TypeId>
    ensures { option_map (λ id. id.now) result ≡ spec.within (run_of state.now) }
{
    match newest(state) {
        Some(call) => type_within(call),
        None => None,
    }
}

/// The type whose code a call runs.
fn type_within(call: &Call) -> Option<&TypeId>
    ensures { option_map (λ id. id.now) result ≡ (frame_of call.now).within }
{
    match &call.within {
        Some(id) => Some(id),
        None => None,
    }
}

/// The label of what the running initializer makes.
pub fn made_label(state: &RunState) -> Option<u64>
    ensures { result ≡ label_of_made (labels.newest (run_of state.now)) }
{
    match newest(state) {
        Some(call) => label_made(call),
        None => None,
    }
}

/// The label of what a call makes, if it is an initializer's.
fn label_made(call: &Call) -> Option<u64>
    ensures { result ≡ made_by (frame_of call.now) }
{
    if call.initializes { call.own } else { None }
}
