//! Worked rows of all that is read: numbers, tables, texts, plans, domains and problems, whose answers were worked out
//! by hand. There is nothing here but tests.
#![tactic(auto)]

#[cfg(test)]
mod actions;
#[cfg(test)]
mod base;
#[cfg(test)]
mod conditions;
#[cfg(test)]
mod domains;
#[cfg(test)]
mod events;
#[cfg(test)]
mod facts;
#[cfg(test)]
mod fractions;
#[cfg(test)]
mod many_events;
#[cfg(test)]
mod nodes;
#[cfg(test)]
mod plans;
#[cfg(test)]
mod printing;
#[cfg(test)]
mod problems;
#[cfg(test)]
mod setting;
#[cfg(test)]
mod texts;
