//! Predicates, functions and actions as they are declared.

use stp_base::List;
use stp_domain_parts::{ActionParts, Entry};

/// A predicate or a function as it is declared: its name, and the entries of its list of parameters.
#[derive(Drop)]
pub struct Declaration<'a> {
    pub name: &'a [u8],
    pub parameters: List<Entry<'a>>,
}

/// An action as it is written, and the entries of its list of parameters.
#[derive(Drop)]
pub struct ActionDeclaration<'a> {
    pub action: ActionParts<'a>,
    pub parameters: List<Entry<'a>>,
}
