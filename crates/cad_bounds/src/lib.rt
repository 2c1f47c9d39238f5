//! What ends a run are its units: the bound by which calls and turns of loops are defined is never met before. And a run is the
//! same by each front end that says as much as it asks for. Laws alone.
#![tactic(auto)]

ghost use Rattle.cad_bounds.specs.Laws.{
  CallsAreBounded,
  DeploymentsAreBounded,
  DeploymentsExtend,
  JoinsExtendTheFirst,
  JoinsExtendTheSecond,
  ScriptsAreBounded,
  ScriptsExtend,
  TransactionsAreBounded,
  TransactionsExtend,
  UnitsNeverRise,
};

/// A call comes to the same by each bound that its units allow.
pub fn calls_end_by_their_units()
    ensures { CallsAreBounded }
{}

/// A transaction comes to the same by each bound that its units allow.
pub fn transactions_end_by_their_units()
    ensures { TransactionsAreBounded }
{}

/// A deployment comes to the same by each bound that its units allow.
pub fn deployments_end_by_their_units()
    ensures { DeploymentsAreBounded }
{}

/// A script comes to the same by each bound that its units allow.
pub fn scripts_end_by_their_units()
    ensures { ScriptsAreBounded }
{}

/// No call gains units.
pub fn units_never_rise()
    ensures { UnitsNeverRise }
{}

/// A transaction that asks for nothing of which its front end says nothing is the same by one that says more.
pub fn transactions_extend()
    ensures { TransactionsExtend }
{}

/// So is a deployment.
pub fn deployments_extend()
    ensures { DeploymentsExtend }
{}

/// So is a script.
pub fn scripts_extend()
    ensures { ScriptsExtend }
{}

/// Two front ends that are joined say what the first says.
pub fn joins_extend_the_first()
    ensures { JoinsExtendTheFirst }
{}

/// And what the second says, where they agree.
pub fn joins_extend_the_second()
    ensures { JoinsExtendTheSecond }
{}
