//! What a domain declares: types, predicates, functions, objects.

/// A type, with the number of its parent. Type 0 is `object`, which is written as its own parent.
#[derive(Clone, Copy)]
pub struct TypeRow<'a> {
    pub name: &'a [u8],
    pub parent: u32,
}

/// A predicate or a function, with the types of its parameters.
#[derive(Clone, Copy)]
pub struct Symbol<'a> {
    pub name: &'a [u8],
    pub parameters: &'a [u32],
}

/// An object, with its type.
#[derive(Clone, Copy)]
pub struct ObjectRow<'a> {
    pub name: &'a [u8],
    pub kind: u32,
}
