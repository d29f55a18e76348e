//! Worked boxes and runs: small ones whose verdicts, windows and faults were worked out by hand or by going
//! through all vectors. There is nothing here but tests.
#![tactic(auto)]

#[cfg(test)]
mod environment;
#[cfg(test)]
mod events;
#[cfg(test)]
mod families;
#[cfg(test)]
mod formulas;
#[cfg(test)]
mod runs;
#[cfg(test)]
mod sketches;
#[cfg(test)]
mod verdicts;
#[cfg(test)]
mod windows;
