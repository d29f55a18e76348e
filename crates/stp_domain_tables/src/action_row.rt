//! Actions with the names and the types of their parameters.

use stp_domain_parts::ActionParts;

/// An action as it is written, with the names and the types of its parameters.
#[derive(Clone, Copy)]
pub struct ActionRow<'a> {
    pub action: ActionParts<'a>,
    pub names: &'a [&'a [u8]],
    pub kinds: &'a [u32],
}
