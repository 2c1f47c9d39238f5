// Laws of sessions.
ghost use Rattle.std.specs.Prelude.{◌≡◌, List, ℕ};
ghost use Rattle.serde_json.specs.Data.{Data};
ghost use Rattle.cad_runs.specs.Commands.{Reply};
ghost use Rattle.cad_world.specs.State.{World};
ghost use Rattle.cad_serve.specs.Generated.{IsCountsLine};
ghost use Rattle.cad_serve.specs.Served.{AnswersAll};

use cad_answers::one_reply;

/// Commands that run one after another have one list of replies at most, and lead to one World.
pub fn one_session()
    ensures { (w : World) (commands : List (List ℕ)) (a b : List (Reply Data)) (u v : World) → AnswersAll w commands a u → AnswersAll w commands b v → (a ≡ b) × (u ≡ v) }
{
    one_reply();
}

/// A generated session has one line of counts at most.
pub fn one_counts_line()
    ensures { (n : ℕ) (a b : List ℕ) → IsCountsLine n a → IsCountsLine n b → a ≡ b }
{
    one_session();
}
