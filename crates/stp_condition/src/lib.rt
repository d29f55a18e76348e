//! Terms, variables in scope, and conditions, timed ones too, as they are read from a tree.
#![tactic(auto)]

pub mod atom;
pub mod condition;
mod form;
pub mod formula;
mod gather;
pub mod key;
pub mod laws;
pub mod read;
mod row;
pub mod scope;
pub mod term;
pub mod timed;
pub mod variables;

pub use atom::{SymbolKind, read_atom};
pub use condition::read_condition_in;
pub use key::{Key, Operator, key_of};
pub use read::read_condition;
pub use scope::Scope;
pub use term::read_term;
pub use timed::{TimedConditions, read_timed_condition};
