//! The tables of a domain.

ghost use Rattle.std.specs.Prelude.{◌≡◌};
ghost use Rattle.stp_types.specs.Rows.{AreAncestries, parents_of as parents_of_rows};
ghost use Rattle.stp_schema.specs.Rows.{type_names_of, parents_of};
ghost use Rattle.stp_domain_tables.specs.ActionRows.{row_names_of};

use crate::action_row::ActionRow;
use stp_schema::{Declared, Objects, TypeRow};
use stp_tables::Names;
use stp_types::Ancestry;

/// Types in the order of their numbers, their ancestors, and the table of their names.
#[derive(Drop)]
pub struct TypeTable<'a> {
    pub rows: &'a [TypeRow<'a>],
    pub ancestries: &'a [Ancestry],
    pub names: Names,
    pub ghost forest: { AreAncestries ancestries.now },
    pub ghost same_parents: { parents_of_rows ancestries.now ≡ parents_of rows.now },
    pub ghost same_names: { names ≡ type_names_of rows.now },
}

/// What a domain declares, its constants, and its actions with their parameters.
#[derive(Drop)]
pub struct DeclaredDomain<'a> {
    pub declared: Declared<'a>,
    pub constants: Objects<'a>,
    pub actions: &'a [ActionRow<'a>],
    pub action_names: Names,
    pub ghost same_names: { action_names ≡ row_names_of actions.now },
}
