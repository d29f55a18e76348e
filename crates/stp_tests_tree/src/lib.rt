//! Small trees given by tables, searched with each budget. There is nothing here but tests.
#![tactic(auto)]

#[cfg(test)]
mod rows;
pub mod space;
pub mod table;
