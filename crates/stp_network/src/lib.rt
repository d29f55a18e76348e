//! Temporal networks: points in time with bounds on their distances, some of them strict.
//!
//! A network keeps moments that meet all its constraints, and moves them forward where a new
//! constraint asks for more.
#![tactic(auto)]

mod edge;
mod laws;
mod limits;
mod lowest;
mod network;
mod propagation;
mod rows;

pub use laws::one_grid_decides;
pub use network::{Mark, Network};
