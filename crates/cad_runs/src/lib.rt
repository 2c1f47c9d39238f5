//! Transactions, deployments, scripts, and lists of commands: what each comes to, over a front end and JSON as parameters.
//! Definitions in specs/, laws in functions without work.
#![tactic(auto)]

ghost use Rattle.cad_runs.specs.Laws.{FailuresLeave, ScriptsLeave, SoundReadsBack};
ghost use Rattle.cad_world.specs.Begin.{ReadsBack};
ghost use Rattle.std.specs.Prelude.{ℕ};

/// A command that is refused, that fails or that is out of units leaves the World as it was.
pub fn failures_leave_the_world()
    ensures { FailuresLeave ℕ }
{}

/// A script leaves the World as it was, whatever it does.
pub fn scripts_leave_the_world()
    ensures { ScriptsLeave ℕ }
{}

/// A World is read back from the state that it begins.
pub fn worlds_are_read_back()
    ensures { ReadsBack }
{}

/// A sound World is one that is read back.
pub fn sound_worlds_are_read_back()
    ensures { SoundReadsBack }
{}
