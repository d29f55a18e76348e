//! Fractions in lowest terms, exact within their range.
#![tactic(auto)]

mod divisor;
mod fault;
mod frac;
pub mod laws;
mod print;
mod read;
mod tail;

pub use fault::NumberFault;
pub use frac::Frac;
