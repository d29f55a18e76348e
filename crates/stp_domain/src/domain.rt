//! Domains.

ghost use Rattle.std.specs.Prelude.{◌≡◌, ℕ, Ok, Err, IfOk};
ghost use Rattle.stp_text.specs.Tree.{view};
ghost use Rattle.stp_refusal.specs.declared.code.Code.{Code as TheCode};
ghost use Rattle.stp_schema.specs.Views.{domain_of};
ghost use Rattle.stp_domain.specs.Reading.{domain_or_refusal};

use crate::schemas::read_schemas;
use bumpalo::Bump;
use std::alloc::Global;
use stp_domain_parts::domain_parts;
use stp_domain_tables::{declare, read_declarations};
use stp_refusal::{ReadFault, end_phase};
use stp_schema::Domain;
use stp_text::Sexpr;

/// The domain of a tree, or its one refusal: of the earliest phase with an offence, the one of the least place, and
/// there the one of the least code. The phases are sections; names and lists; types; conditions, effects and durations.
pub fn read_domain<'a>(
    alloc: Global,
    arena: &'a Bump,
    tree: &'a Sexpr<'a>,
) -> Result<Domain<'a>, ReadFault>
    ensures ok { IfOk result (λ d. domain_or_refusal (view tree.now) ≡ Ok (domain_of d)) }
    ensures refused { (code : TheCode) (at : ℕ) → result ≡ Err (ReadFault.Refused code at) → domain_or_refusal (view tree.now) ≡ Err (ReadFault.Refused code at) }
{
    let mut first = None;
    let parts = domain_parts(alloc, arena, tree, &mut first)?;
    end_phase(first)?;
    let mut first = None;
    let declarations = read_declarations(alloc, parts, &mut first)?;
    end_phase(first)?;
    let mut first = None;
    let tables = declare(alloc, arena, declarations, &mut first)?;
    end_phase(first)?;
    let mut first = None;
    let schemas = read_schemas(
        alloc,
        arena,
        &tables.declared,
        &tables.constants,
        tables.actions,
        &mut first,
    )?;
    end_phase(first)?;
    Ok(Domain {
        name: parts.name,
        types: tables.declared.types,
        predicates: tables.declared.predicates,
        functions: tables.declared.functions,
        constants: tables.constants.rows,
        schemas,
        declared: tables.declared,
        schema_names: tables.action_names,
    })
}
