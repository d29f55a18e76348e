//! Tables of what is declared, each name once.

ghost use Rattle.std.specs.Prelude.{◌≡◌};
ghost use Rattle.stp_domain_tables.specs.Named.{names_of, action_names_of};

use crate::declaration::{ActionDeclaration, Declaration};
use stp_base::List;
use stp_tables::Names;

/// Predicates or functions in the order of their numbers, and the table of their names.
#[derive(Drop)]
pub struct SymbolTable<'a> {
    pub rows: List<Declaration<'a>>,
    pub names: Names,
    pub ghost same_names: { names ≡ names_of rows },
}

/// Actions in the order of their numbers, and the table of their names.
#[derive(Drop)]
pub struct ActionTable<'a> {
    pub rows: List<ActionDeclaration<'a>>,
    pub names: Names,
    pub ghost same_names: { names ≡ action_names_of rows },
}
