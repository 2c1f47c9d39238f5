//! What programs mean: evaluation of elaborated trees. Definitions in specs/.
#![tactic(auto)]
