//! Labels in whole runs: one that was given is never given again, and stands on one node. Laws alone.
#![tactic(auto)]

ghost use Rattle.cad_runs.specs.Laws.{LabelsAreGivenOnce};
ghost use Rattle.cad_label_runs.specs.Laws.{CallsKeepLabels, CallsLeaveWhatIsGone, DeploymentsKeepLabels, MembersKeepLabels, ScriptsKeepLabels, TermsKeepLabels, TransactionsFollow};

/// A transaction keeps labels apart.
pub fn labels_are_given_once()
    ensures { LabelsAreGivenOnce }
{}

/// A call keeps labels apart, and its result has none.
pub fn calls_keep_labels()
    ensures { CallsKeepLabels }
{}

/// A deployment keeps labels apart.
pub fn deployments_keep_labels()
    ensures { DeploymentsKeepLabels }
{}

/// A script keeps labels apart.
pub fn scripts_keep_labels()
    ensures { ScriptsKeepLabels }
{}

/// What an expression comes to has no labels.
pub fn terms_keep_labels()
    ensures { TermsKeepLabels }
{}

/// A built-in member keeps labels apart, on a receiver as it is now.
pub fn members_keep_labels()
    ensures { MembersKeepLabels }
{}

/// A label that was gone when a transaction began stands nowhere when it ends, and the next label never falls.
pub fn labels_never_return()
    ensures { TransactionsFollow }
{}

/// What was gone when a call began isn't found when it ends.
pub fn calls_leave_what_is_gone()
    ensures { CallsLeaveWhatIsGone }
{}
