// Verdicts.
use cad_declarations::Rejected;

/// Why a code is refused.
#[derive(Debug, Drop)]
pub enum Refusal {
    /// A phase refuses it.
    Stopped(Rejected),
    /// No phase refuses it, but it isn't one contract of its name: the number that tells so.
    Bad(u16),
}

/// What is answered to a request.
#[derive(Debug, Drop)]
pub enum Verdict {
    Accepted,
    /// One of the contracts that are judged first is refused, by its place in their list, or else what is judged beside them.
    Refused(Option<u64>, Refusal),
}
