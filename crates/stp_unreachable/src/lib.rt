//! The law of certificates for plans: where there is a certificate for the task of a problem, no plan of it executes.
#![tactic(auto)]

pub mod laws;
