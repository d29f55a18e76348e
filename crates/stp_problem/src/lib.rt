//! Problems: their objects, facts and values, how many objects each type has, the nodes of what is expanded, and
//! the whole problem or its refusal.
#![tactic(auto)]

pub mod call;
pub mod counting;
pub mod cutting;
pub mod events;
pub mod facts;
pub mod item;
pub mod laws;
pub mod nodes;
pub mod objects;
pub mod problem;
pub mod rung;
pub mod schemas;
pub mod sizing;
pub mod timed;
pub mod timed_item;
pub mod times;
pub mod window;
pub mod written;

pub use counting::sizes;
pub use events::read_events;
pub use facts::{Facts, read_facts};
pub use nodes::{expanded_nodes, is_too_large};
pub use objects::read_objects;
pub use problem::read_problem;
pub use schemas::{first_too_large, schema_nodes};
pub use stp_refusal::ReadFault;
pub use timed::read_timed;
pub use timed_item::TimedItem;
pub use window::Window;
