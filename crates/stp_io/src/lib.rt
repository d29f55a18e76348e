//! Files and standard output: the outside as stp sees it, real or in memory, and whole files and texts over it.
#![tactic(auto)]

pub mod calls;
pub mod copying;
pub mod loading;
pub mod memory_sink;
pub mod memory_store;
pub mod named;
pub mod real;
pub mod sink;
pub mod steady;
pub mod store;
pub mod writing;

pub use loading::{LoadFault, load};
pub use memory_sink::MemorySink;
pub use memory_store::MemoryStore;
pub use real::{FileStore, OutSink};
pub use sink::Sink;
pub use steady::{SteadySink, SteadyStore};
pub use store::{Failed, Store};
pub use writing::write_all;

#[cfg(test)]
mod tests;
