//! Worked rows of the whole program: small files whose answers were worked out by hand, as calls of `run` over
//! stores and sinks in memory. There is nothing here but tests.
#![tactic(auto)]

#[cfg(test)]
mod commands;
#[cfg(test)]
mod demos;
#[cfg(test)]
mod environment;
#[cfg(test)]
mod lab;
#[cfg(test)]
mod outside;
#[cfg(test)]
mod plans;
#[cfg(test)]
mod refusals;
#[cfg(test)]
mod replays;
#[cfg(test)]
mod rover;
#[cfg(test)]
mod setting;
