//! What a domain declares before its actions, with look-ups by name.

ghost use Rattle.std.specs.Prelude.{◌≡◌, ◌<◌, length, map, List, ℕ, IfSome};
ghost use Rattle.stp_types.specs.Forest.{is_below};
ghost use Rattle.stp_tables.specs.Names.{number_of};
ghost use Rattle.stp_schema.specs.Rows.{type_names_of, parents_of, symbol_names_of, object_names_of};
ghost use Rattle.stp_types.specs.Rows.{AreAncestries, parents_of as parents_of_rows};

use crate::rows::{ObjectRow, Symbol, TypeRow};
use stp_tables::Names;
use stp_types::{Ancestry, is_below};

/// Types, predicates and functions in the order of their numbers, and the tables of their names.
#[derive(Drop)]
pub struct Declared<'a> {
    pub types: &'a [TypeRow<'a>],
    pub predicates: &'a [Symbol<'a>],
    pub functions: &'a [Symbol<'a>],
    pub ancestries: &'a [Ancestry],
    pub type_names: Names,
    pub predicate_names: Names,
    pub function_names: Names,
    pub ghost forest: { AreAncestries ancestries.now },
    pub ghost same_parents: { parents_of_rows ancestries.now ≡ parents_of types.now },
    pub ghost same_types: { type_names ≡ type_names_of types.now },
    pub ghost same_predicates: { predicate_names ≡ symbol_names_of predicates.now },
    pub ghost same_functions: { function_names ≡ symbol_names_of functions.now },
}

/// Objects in the order of their numbers, and the table of their names.
#[derive(Drop)]
pub struct Objects<'a> {
    pub rows: &'a [ObjectRow<'a>],
    pub names: Names,
    pub ghost same_names: { names ≡ object_names_of rows.now },
}

impl<'a> Declared<'a> {
    /// The number of a type.
    pub fn find_type(&self, name: &[u8]) -> Option<u32>
        ensures number { result ≡ number_of (type_names_of self.now.types.now) name.now }
        ensures within { IfSome result (λ n. n < length self.now.types.now) }
    {
        let _ = &self.types;
        self.type_names.find(name)
    }

    /// The number of a predicate.
    pub fn find_predicate(&self, name: &[u8]) -> Option<u32>
        ensures number { result ≡ number_of (symbol_names_of self.now.predicates.now) name.now }
        ensures within { IfSome result (λ n. n < length self.now.predicates.now) }
    {
        let _ = &self.predicates;
        self.predicate_names.find(name)
    }

    /// The number of a function.
    pub fn find_function(&self, name: &[u8]) -> Option<u32>
        ensures number { result ≡ number_of (symbol_names_of self.now.functions.now) name.now }
        ensures within { IfSome result (λ n. n < length self.now.functions.now) }
    {
        let _ = &self.functions;
        self.function_names.find(name)
    }

    /// Whether a type is another, or below it.
    pub fn is_below(&self, kind: u32, other: u32) -> bool
        ensures { result ≡ is_below (parents_of self.now.types.now) kind other }
    {
        let _ = &self.types;
        let count = self.ancestries.len();
        if (kind as usize) >= count {
            return kind == other || other == 0;
        }
        (other as usize) < count && is_below(self.ancestries, kind, other)
    }
}

impl<'a> Objects<'a> {
    /// The number of an object.
    pub fn find(&self, name: &[u8]) -> Option<u32>
        ensures number { result ≡ number_of (object_names_of self.now.rows.now) name.now }
        ensures within { IfSome result (λ n. n < length self.now.rows.now) }
    {
        let _ = &self.rows;
        self.names.find(name)
    }
}
