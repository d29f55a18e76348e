//! Atoms.

ghost use Rattle.std.specs.Prelude.{◌≡◌, option_map, map, IfOk};
ghost use Rattle.stp_text.specs.Tree.{views};
ghost use Rattle.stp_refusal.specs.Read.{IsRead, bad};
ghost use Rattle.stp_schema.specs.Rows.{shape_of};
ghost use Rattle.stp_schema.specs.Known.{known};
ghost use Rattle.stp_schema.specs.Formula.{atom_of};
ghost use Rattle.stp_condition.specs.Scope.{with_value};
ghost use Rattle.stp_condition.specs.Atoms.{shapes_of, shape_at, shape_in, no_atom, atom_read};
ghost use Rattle.stp_condition.specs.Views.{found_shape};

use crate::row::row_at;
use crate::scope::Scope;
use crate::term::read_terms;
use bumpalo::Bump;
use stp_base::Memory;
use stp_refusal::{Code, Offence, note};
use stp_schema::{Declared, LiftedAtom, Objects, Symbol};
use stp_text::Sexpr;

/// What the first word of an atom names.
#[derive(Clone, Copy, Debug, PartialEq, Eq)]
pub enum SymbolKind {
    Predicate,
    Function,
}

/// The symbol of a number, if there is one, with that number.
fn symbol_at<'d>(symbols: &[Symbol<'d>], number: Option<u32>) -> Option<(u32, Symbol<'d>)>
    ensures { option_map found_shape result ≡ with_value (shape_at (map shape_of symbols.now)) number }
{
    let number = number?;
    let symbol = row_at(symbols, number)?;
    Some((number, symbol))
}

/// The predicate or the function of a name, with its number.
fn find_symbol<'d>(
    kind: SymbolKind,
    declared: &Declared<'d>,
    name: &[u8],
) -> Option<(u32, Symbol<'d>)>
    ensures { option_map found_shape result
        ≡ shape_in (shapes_of kind (map shape_of declared.now.predicates.now) (map shape_of declared.now.functions.now)) name.now }
{
    match kind {
        SymbolKind::Predicate => symbol_at(declared.predicates, declared.find_predicate(name)),
        SymbolKind::Function => symbol_at(declared.functions, declared.find_function(name)),
    }
}

/// Notes an offence of an atom, and gives what stands in its place.
fn refused<'a>(at: u32, code: Code, first: &mut Option<Offence>) -> LiftedAtom<'a>
    ensures { IsRead first.old first.new (atom_of result) (bad at code no_atom) }
{
    note(first, at, code);
    LiftedAtom {
        symbol: 0,
        terms: &[],
    }
}

/// What a list at a place says as an atom, by its first word and the items behind it. A word that is not declared
/// is D17 at the list, a wrong number of terms D18 there; otherwise its terms are judged.
pub fn read_atom<'a>(
    arena: &'a Bump,
    kind: SymbolKind,
    declared: &Declared<'_>,
    objects: &Objects<'_>,
    scope: &Scope<'_>,
    at: u32,
    name: &[u8],
    items: &[Sexpr<'_>],
    first: &mut Option<Offence>,
) -> Result<LiftedAtom<'a>, Memory>
    ensures { IfOk result
        (λ r. IsRead first.old first.new (atom_of r)
        (atom_read kind (known declared.now objects.now.rows.now) scope.now at name.now (views items.now))) }
{
    let Some((symbol, shape)) = find_symbol(kind, declared, name) else {
        return Ok(refused(at, Code::D17, first));
    };
    if items.len() != shape.parameters.len() {
        return Ok(refused(at, Code::D18, first));
    }
    let terms = read_terms(
        arena,
        declared,
        objects,
        scope,
        shape.parameters,
        items,
        first,
    )?;
    Ok(LiftedAtom { symbol, terms })
}
