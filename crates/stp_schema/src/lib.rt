//! Domains and problems as they are read: typed, and lifted over the parameters of actions.
#![tactic(auto)]

pub mod declared;
pub mod domain;
pub mod expr;
pub mod lifted;
pub mod problem;
pub mod rows;
pub mod timed;

pub use declared::{Declared, Objects};
pub use domain::{Domain, Schema, Timing};
pub use expr::Expr;
pub use lifted::{Lifted, LiftedAtom, Term};
pub use problem::{Fact, Given, Problem};
pub use rows::{ObjectRow, Symbol, TypeRow};
pub use stp_refusal::Code;
pub use stp_tables::Names;
pub use timed::{TimedFact, TimedLiteral};
