//! Worked rows of ground actions, boxes, lists of durations and answers, worked out by hand. There is nothing here but
//! tests.
#![tactic(auto)]

#[cfg(test)]
mod answers;
#[cfg(test)]
mod boxes;
#[cfg(test)]
mod durations;
#[cfg(test)]
mod events;
#[cfg(test)]
mod fitting;
#[cfg(test)]
mod grounding;
#[cfg(test)]
mod instances;
#[cfg(test)]
mod lists;
#[cfg(test)]
mod pairs;
#[cfg(test)]
mod setting;
