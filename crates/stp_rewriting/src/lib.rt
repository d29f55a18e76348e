//! Laws of the rewritten problem: a box is strong exactly where its dated list is valid there.
#![tactic(auto)]

pub mod laws;
