//! JSON-Cadence: which JSON stands for which values. Definitions alone.
#![tactic(auto)]
