//! The state of a run: nodes in rows of places, calls, accounts and contracts. Definitions in specs/.
#![tactic(auto)]
