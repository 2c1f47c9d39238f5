//! Typing: which expressions have a type, and the elaborated trees that they stand for. Definitions alone, in specs/.
#![tactic(auto)]
