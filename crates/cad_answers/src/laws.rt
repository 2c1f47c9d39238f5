// Laws of replies.
ghost use Rattle.std.specs.Prelude.{◌≡◌, false, List, ℕ};
ghost use Rattle.cad_world.specs.State.{World};
ghost use Rattle.cad_worlds.specs.Standing.{Becomes, IsSound, WorldHasBytes};
ghost use Rattle.serde_json.specs.Data.{Data};
ghost use Rattle.cad_commands.specs.Commands.{command_of};
ghost use Rattle.cad_runs.specs.Commands.{Reply, is_ok, script};
ghost use Rattle.cad_answers.specs.Answer.{Answers};

use cad_fronts::{no_stop_of_accepted, one_acceptance, one_stop, one_verdict};
use cad_replies::{
    answers_extend, deployments_extend, one_answer, one_deployment, one_outcome, outcomes_extend,
};
use cad_serve_parts::one_world;

/// A command has one reply at most, and leads to one World.
pub fn one_reply()
    ensures { (w : World) (line : List ℕ) (a b : Reply Data) (u v : World) → Answers w line a u → Answers w line b v → (a ≡ b) × (u ≡ v) }
{
    one_stop();
    one_acceptance();
    no_stop_of_accepted();
    one_verdict();
    one_answer();
    answers_extend();
    one_outcome();
    outcomes_extend();
    one_deployment();
    deployments_extend();
    one_world();
}

/// A command whose reply isn't ok leaves the World.
pub fn failures_leave_the_world()
    ensures { (w u : World) (line : List ℕ) (a : Reply Data) → Answers w line a u → is_ok a ≡ false → u ≡ w }
{}

/// A script leaves the World, whatever its reply is.
pub fn scripts_leave_the_world()
    ensures { (w u : World) (line code : List ℕ) (arguments : List Data) (units : ℕ) (a : Reply Data) → command_of line ≡ script code arguments units → Answers w line a u → u ≡ w }
{}

/// A sound World whose values have bytes that no others have becomes itself.
pub fn sound_world_becomes_itself()
    ensures { (v u : World) → IsSound v → WorldHasBytes v → Becomes v u → u ≡ v }
{
    one_world();
}
