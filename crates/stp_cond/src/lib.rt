//! Conditions over ground atoms, events, and which events interfere.
#![tactic(auto)]

pub mod cond;
pub mod conjunctive;
pub mod deciding;
pub mod event;
pub mod folding;
pub mod gathering;
pub mod interfering;
pub mod known;
pub mod laws;
pub mod rows;
pub mod sets;
pub mod substituting;

pub use cond::{Cond, conjunction, holds, negate};
pub use conjunctive::conjunctive_event;
pub use deciding::decide;
pub use event::Event;
pub use folding::{fold, fold_and, fold_not, fold_or};
pub use gathering::atoms;
pub use interfering::interfere;
pub use known::Three;
pub use rows::apply;
pub use sets::{ascending, have_common, is_among, without};
pub use substituting::substitute;
