//! Conditions over ground atoms.

use stp_base::ObjectId;

/// A condition over ground atoms, whose parts lie in an arena: an atom by its predicate and its objects, an equality
/// of two objects, or what is made of others.
#[derive(Clone, Copy)]
pub enum Ground<'a> {
    Fact(u32, &'a [ObjectId]),
    Same(ObjectId, ObjectId),
    Opposite(&'a Ground<'a>),
    Every(&'a [Ground<'a>]),
    Any(&'a [Ground<'a>]),
}
