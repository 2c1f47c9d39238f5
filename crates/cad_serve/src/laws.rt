// Laws of replies and of tapes.
ghost use Rattle.std.specs.Prelude.{◌≡◌, ◌≢◌, List, ℕ, [], ◌∷◌, ◌++◌};
ghost use Rattle.cad_host.specs.declared.host.Tape.{Tape};
ghost use Rattle.cad_host.specs.Disk.{Event, put, reads};
ghost use Rattle.cad_host.specs.Crash.{IsSettled};
ghost use Rattle.cad_world.specs.State.{World};
ghost use Rattle.cad_store.specs.Opening.{opened};
ghost use Rattle.serde_json.specs.Data.{Data};
ghost use Rattle.cad_runs.specs.Commands.{Reply};
ghost use Rattle.cad_answers.specs.Answer.{Answers, answer_line};
ghost use Rattle.cad_serve.specs.Crashes.{DiskStands, Survives};

use cad_answers::one_reply;
use cad_serve_parts::one_world;
use cad_store::one_map_a_disk;

/// A run in which the reply to a command that changes the World is put before its commit is written doesn't survive each
/// crash, whatever it did later: when the reply is put, the tapes may be left as they read, which is without the command.
pub fn reply_before_commit()
    ensures { (w v : World) (command : List ℕ) (a : Reply Data) (old later : List Event) → Answers w command a v → v ≢ w → IsSettled old → DiskStands (reads old) w
        → Survives w (command ∷ []) old (later ++ put (answer_line a) ∷ opened old) → ⊥ }
{
    one_reply();
    one_world();
}

/// Tapes stand for one World at most.
pub fn one_state_a_disk()
    ensures { (disk : Tape → List ℕ) (v w : World) → DiskStands disk v → DiskStands disk w → v ≡ w }
{
    one_map_a_disk();
    one_world();
}
