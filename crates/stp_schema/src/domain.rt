//! Domains.

ghost use Rattle.std.specs.Prelude.{◌≡◌, ◌<◌, All, length, map, IfSome};
ghost use Rattle.stp_types.specs.Forest.{is_below};
ghost use Rattle.stp_tables.specs.Names.{number_of};
ghost use Rattle.stp_schema.specs.Rows.{parents_of, type_names_of, shape_of};
ghost use Rattle.stp_schema.specs.Schemas.{schema_names_of};

use crate::declared::Declared;
use crate::expr::Expr;
use crate::lifted::{Lifted, LiftedAtom};
use crate::rows::{ObjectRow, Symbol, TypeRow};
use stp_tables::Names;

/// How long an action lasts: the low and the high bound of its duration, which the plan or the environment chooses.
#[derive(Clone, Copy)]
pub enum Timing<'a> {
    Instant,
    Controlled(&'a Expr<'a>, &'a Expr<'a>),
    Uncertain(&'a Expr<'a>, &'a Expr<'a>),
}

/// An action over its parameters. A simple action's condition and effect are those of its start.
#[derive(Clone, Copy)]
pub struct Schema<'a> {
    pub name: &'a [u8],
    pub parameters: &'a [u32],
    pub timing: Timing<'a>,
    /// Whether a condition stands in the text: one that is missing has no nodes, and `()` has one.
    pub has_condition: bool,
    pub start_cond: &'a Lifted<'a>,
    pub over_all: &'a Lifted<'a>,
    pub end_cond: &'a Lifted<'a>,
    pub start_adds: &'a [LiftedAtom<'a>],
    pub start_dels: &'a [LiftedAtom<'a>],
    pub end_adds: &'a [LiftedAtom<'a>],
    pub end_dels: &'a [LiftedAtom<'a>],
}

/// A domain. All lists stand in the order of the text, types in the order of first sight behind `object`. There is
/// a type, and each constant has one.
#[derive(Drop)]
pub struct Domain<'a> {
    pub name: &'a [u8],
    pub types: &'a [TypeRow<'a>],
    pub predicates: &'a [Symbol<'a>],
    pub functions: &'a [Symbol<'a>],
    pub constants: &'a [ObjectRow<'a>],
    pub schemas: &'a [Schema<'a>],
    pub declared: Declared<'a>,
    pub schema_names: Names,
    pub ghost has_type: { 0 < length types.now },
    pub ghost typed_constants: { All (λ c. c.kind < length types.now) constants.now },
    pub ghost same_parents: { parents_of types.now ≡ parents_of declared.types.now },
    pub ghost same_types: { type_names_of types.now ≡ type_names_of declared.types.now },
    pub ghost same_predicates: { map shape_of predicates.now ≡ map shape_of declared.predicates.now },
    pub ghost same_functions: { map shape_of functions.now ≡ map shape_of declared.functions.now },
    pub ghost same_schemas: { schema_names ≡ schema_names_of schemas.now },
}

impl<'a> Domain<'a> {
    /// Whether a type is another, or below it.
    pub fn is_below(&self, kind: u32, other: u32) -> bool
        ensures { result ≡ is_below (parents_of self.now.types.now) kind other }
    {
        let _ = &self.types;
        self.declared.is_below(kind, other)
    }

    /// The number of an action's schema.
    pub fn find_schema(&self, name: &[u8]) -> Option<u32>
        ensures number { result ≡ number_of (schema_names_of self.now.schemas.now) name.now }
        ensures within { IfSome result (λ n. n < length self.now.schemas.now) }
    {
        let _ = &self.schemas;
        self.schema_names.find(name)
    }
}
