//! Worked rows of temporal networks, and small networks beside the plain definition tried over all
//! small times. There is nothing here but tests.
#![tactic(auto)]

#[cfg(test)]
mod asking;
#[cfg(test)]
mod rows;
#[cfg(test)]
mod small;
