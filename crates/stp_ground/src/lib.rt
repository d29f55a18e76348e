//! The ground action that a name and arguments choose, and what events of the environment do.
#![tactic(auto)]

mod arguments;
pub mod beginning;
pub mod choosing;
pub mod chosen;
pub mod events;
pub mod fault;
pub mod grounding;
pub mod instances;
mod marks;
pub mod numbering;
pub mod row;
mod tables;
pub mod world;

pub use beginning::{goal_in, number_goal, number_initial};
pub use choosing::{choose, chosen_under};
pub use chosen::Chosen;
pub use events::{ground_event, number_events};
pub use fault::InstanceFault;
pub use grounding::ground;
pub use instances::instance;
pub use numbering::number_chosen;
pub use row::initial_row;
pub use world::World;
