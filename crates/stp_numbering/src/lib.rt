//! Laws of numberings: which atom has which number changes neither whether a run executes nor whether a box is strong.
#![tactic(auto)]

pub mod laws;
