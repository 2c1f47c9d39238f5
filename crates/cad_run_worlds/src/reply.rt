// Replies to scripts, and why there is none.
ghost use Rattle.std.specs.Prelude.{◌≡◌, IfOk, Some};
ghost use Rattle.serde_json.specs.Data.{Data};
ghost use Rattle.cad_run_worlds.specs.Code.{told_stop};
ghost use Rattle.cad_run_worlds.specs.Views.{Tells};
ghost use Rattle.cad_runs.specs.Commands.{Reply};

use cad_outcomes::Stop;
use cad_state::{RunState, Unknown, unknown_of};
use cad_syntax::Text;
use std::alloc::AllocError;

/// What a script answers.
#[derive(Debug, Drop, PartialEq, Eq)]
pub enum ScriptReply {
    /// The result: compact JSON.
    Result(Text),
    /// An error, by its number.
    Failed(u16),
    /// A unit is due, and none is left.
    Limit,
    /// The request can't run, by the number of its refusal.
    Bad(u16),
    /// A value isn't of the type that it should have.
    IllTyped,
}

/// Why there is no reply. It isn't let go but by its parts.
pub enum Unfinished {
    /// Memory ran out.
    Memory,
    /// The run asked of a code of which the front end says nothing: the code, and the contracts beside which it was asked.
    Unknown(Unknown),
    /// The run lacked the account of this index.
    Lacks(u64),
    /// The run added a contract to a World of which some accounts may not be known: it has to be over the whole World.
    Whole,
}

impl From<AllocError> for Unfinished {
    fn from(_: AllocError) -> Self {
        Unfinished::Memory
    }
}

/// Why a run gave no value, as a reply.
pub fn reply_to_stop(stop: Stop) -> Result<ScriptReply, AllocError>
    ensures { IfOk result (λ it. (reply : Reply Data) × (told_stop stop ≡ Some reply) × Tells it reply) }
{
    match stop {
        Stop::Failed(error) => Ok(ScriptReply::Failed(error.number())),
        Stop::Limit => Ok(ScriptReply::Limit),
        Stop::IllTyped => Ok(ScriptReply::IllTyped),
        Stop::Memory => Err(AllocError),
    }
}

/// Why there is no reply of a run that stopped in a state for want of memory: the account that it lacked, or the code of which it
/// asked, where it did.
pub fn why_unfinished(state: RunState) -> Unfinished {
    let wanted = state.wanted;
    match unknown_of(state) {
        Some(unknown) => Unfinished::Unknown(unknown),
        None => match wanted {
            Some(index) => Unfinished::Lacks(index),
            None => Unfinished::Memory,
        },
    }
}
