// Laws of what scripts, transactions and deployments come to.
ghost use Rattle.cad_replies.specs.Deployments as deployment;
ghost use Rattle.cad_replies.specs.Scripts.{AnswersExtend, OneAnswer};
ghost use Rattle.cad_replies.specs.Transactions.{OneOutcome, OutcomesExtend};

use cad_bounds::{scripts_extend, transactions_extend};

/// A script has one answer at most to its arguments.
pub fn one_answer()
    ensures { OneAnswer }
{}

/// An answer under a front end is one under each that says what it says, where the run asked it of no code of which it says nothing.
pub fn answers_extend()
    ensures { AnswersExtend }
{
    scripts_extend()
}

/// A transaction comes to one outcome at most over a World.
pub fn one_outcome()
    ensures { OneOutcome }
{}

/// An outcome of a transaction under a front end is one under each that says what it says, where the run asked it of no code of which
/// it says nothing.
pub fn outcomes_extend()
    ensures { OutcomesExtend }
{
    transactions_extend()
}

/// A deployment comes to one outcome at most over a World.
pub fn one_deployment()
    ensures { deployment.OneOutcome }
{}

/// An outcome of a deployment under a front end is one under each that says what it says, where the run asked it of no code of which
/// it says nothing.
pub fn deployments_extend()
    ensures { deployment.OutcomesExtend }
{
    cad_bounds::deployments_extend()
}
