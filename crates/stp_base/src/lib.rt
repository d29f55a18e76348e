//! Numbers of things, lists, texts and rows of truth values, on which all crates of stp stand.
#![tactic(auto)]

pub mod ids;
pub mod limits;
pub mod list;
pub mod memory;
pub mod row;
pub mod text;

pub use ids::{ActionId, AtomId, ObjectId, PointId, StepId};
pub use list::List;
pub use memory::Memory;
pub use row::StateRow;
pub use text::Text;
