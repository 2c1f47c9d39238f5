// Errors of arithmetic.

/// Why an operation has no result: it is above the kind's greatest number, below its least, or the divisor is 0.
#[derive(Clone, Copy, Debug, PartialEq, Eq)]
pub enum NumError {
    Overflow,
    Underflow,
    DivisionByZero,
}
