// What is done with what stands before `?.`, and where the content under `!` stands.
ghost use Rattle.std.specs.Prelude.{◌≡◌, IfOk, option_map, map};
ghost use Rattle.cad_grammar.specs.Views.{annotation_of};
ghost use Rattle.cad_grammar.specs.Trees as s;
ghost use Rattle.cad_environment.specs.Views.{environment_of, typing_of, base_of, receiver_of};
ghost use Rattle.cad_infer_calls.specs.Views.{call_view};
ghost use Rattle.cad_infer_parts.specs.Code.Steps as steps;

use cad_environment::{Base, Environment, Receiver, Typing};
use cad_grammar::TypeAnnotation;
use cad_infer_calls::Call;
use cad_infer_chains::{base_of_chain, chain_call, chain_value, forced_base};
use cad_syntax::Name;
use std::alloc::{AllocError, Global};

/// The value of a member of what stands before the `?.`.
#[tactic(auto, unfolding(crate::specs::Code::Steps::chain_then))]
pub fn chain_then(
    alloc: Global,
    env: Environment<'_>,
    name: &Name,
    base: Option<Base>,
) -> Result<Option<Typing>, AllocError>
    ensures { IfOk result (λ o. option_map typing_of o ≡ steps.chain_then (environment_of env.entry) name.now (option_map base_of base)) }
{
    let Some(base) = base else {
        return Ok(None);
    };
    chain_value(alloc, env, name, base)
}

/// Where a member of what stands before the `?.` stands.
#[tactic(auto, unfolding(crate::specs::Code::Steps::chain_place_then))]
pub fn chain_place_then(
    alloc: Global,
    env: Environment<'_>,
    name: &Name,
    base: Option<Base>,
) -> Result<Option<Base>, AllocError>
    ensures { IfOk result (λ o. option_map base_of o ≡ steps.chain_place_then (environment_of env.entry) name.now (option_map base_of base)) }
{
    let Some(base) = base else {
        return Ok(None);
    };
    base_of_chain(alloc, env, name, base)
}

/// A call of a member of what stands before the `?.`.
#[tactic(auto, unfolding(crate::specs::Code::Steps::chain_call_then))]
pub fn chain_call_then(
    alloc: Global,
    env: Environment<'_>,
    types: &[TypeAnnotation],
    name: &Name,
    base: Option<Base>,
) -> Result<Option<Call>, AllocError>
    ensures { IfOk result (λ o. option_map call_view o ≡ steps.chain_call_then (environment_of env.entry) (s.annotations_of (map annotation_of types.now)) name.now (option_map base_of base)) }
{
    let Some(base) = base else {
        return Ok(None);
    };
    chain_call(alloc, env, types, name, base)
}

/// Where the content of a receiver stands.
#[tactic(auto, unfolding(crate::specs::Code::Steps::force_place_then))]
pub fn force_place_then(
    alloc: Global,
    env: Environment<'_>,
    r: Option<Receiver>,
) -> Result<Option<Base>, AllocError>
    ensures { IfOk result (λ o. option_map base_of o ≡ steps.force_place_then (environment_of env.entry) (option_map receiver_of r)) }
{
    let Some(r) = r else {
        return Ok(None);
    };
    forced_base(alloc, env, r)
}
