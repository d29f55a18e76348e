//! Why a text is no number.

use thiserror::Error;

/// Why a text is refused where a number is read.
#[derive(Clone, Copy, Debug, PartialEq, Eq, Error)]
pub enum NumberFault {
    /// It is no spelling of a number.
    #[error("not a number")]
    NotANumber,
    /// It is a spelling of a number, but for too many digits.
    #[error("a number of too many digits")]
    TooLong,
    /// Its denominator is 0.
    #[error("a denominator that is 0")]
    ZeroDenominator,
}
