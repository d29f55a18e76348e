//! Effects of simple actions, gathered one after the other.

ghost use Rattle.std.specs.Prelude.{◌≡◌, IfOk, OnOk};
ghost use Rattle.stp_text.specs.Tree.{view, views};
ghost use Rattle.stp_refusal.specs.Read.{IsRead, map_read};
ghost use Rattle.stp_schema.specs.Known.{known};
ghost use Rattle.stp_schema.specs.Formula.{atom_of};
ghost use Rattle.stp_body.specs.Effects.{no_effects, adding, deleting, and_then, not_read, effect_read, all_effects};
ghost use Rattle.stp_body.specs.EffectViews.{effects_of, gathered_of};

use crate::effect::Effects;
use crate::form::{Form, form_of, only_atom};
use bumpalo::Bump;
use std::alloc::Global;
use stp_base::{List, Memory};
use stp_condition::{Scope, SymbolKind, read_atom};
use stp_refusal::{Code, Offence, note};
use stp_schema::{Declared, LiftedAtom, Objects};
use stp_text::Sexpr;

/// The atoms of the effects that were read so far.
#[derive(Drop)]
pub struct Gathered<'a> {
    adds: List<LiftedAtom<'a>>,
    dels: List<LiftedAtom<'a>>,
}

impl<'a> Gathered<'a> {
    /// No atoms, which take no memory.
    pub fn new(alloc: Global) -> Gathered<'a>
        ensures { gathered_of result ≡ no_effects }
    {
        Gathered {
            adds: List::new(alloc),
            dels: List::new(alloc),
        }
    }

    /// Puts an atom that is made true at the end.
    fn add(&mut self, atom: LiftedAtom<'a>) -> Result<(), Memory>
        ensures { OnOk result (gathered_of self.new ≡ and_then (gathered_of self.old) (adding (atom_of atom.entry))) }
    {
        self.adds.push(atom)
    }

    /// Puts an atom that is made false at the end.
    fn delete(&mut self, atom: LiftedAtom<'a>) -> Result<(), Memory>
        ensures { OnOk result (gathered_of self.new ≡ and_then (gathered_of self.old) (deleting (atom_of atom.entry))) }
    {
        self.dels.push(atom)
    }

    /// The atoms in an arena.
    pub fn in_arena(&self, arena: &'a Bump) -> Result<Effects<'a>, Memory>
        ensures { IfOk result (λ r. effects_of r ≡ gathered_of self.now) }
    {
        let adds = arena.try_alloc_slice_copy(self.adds.as_slice())?;
        let dels = arena.try_alloc_slice_copy(self.dels.as_slice())?;
        Ok(Effects { adds, dels })
    }
}

/// Gathers what the items behind `not` say: they must be one atom.
fn gather_not<'a>(
    arena: &'a Bump,
    declared: &Declared<'_>,
    objects: &Objects<'_>,
    scope: &Scope<'_>,
    at: u32,
    items: &'a [Sexpr<'a>],
    out: &mut Gathered<'a>,
    first: &mut Option<Offence>,
) -> Result<(), Memory>
    ensures { OnOk result
        (IsRead first.old first.new (gathered_of out.new)
        (map_read (and_then (gathered_of out.old))
        (not_read (known declared.now objects.now.rows.now) scope.now at (views items.now)))) }
{
    let Some(atom) = only_atom(items) else {
        note(first, at, Code::D22);
        return Ok(());
    };
    let atom = read_atom(
        arena,
        SymbolKind::Predicate,
        declared,
        objects,
        scope,
        atom.at,
        atom.name,
        atom.items,
        first,
    )?;
    out.delete(atom)?;
    Ok(())
}

/// Gathers what a tree says as an effect.
#[cycle(effects)]
pub fn gather<'a>(
    arena: &'a Bump,
    declared: &Declared<'_>,
    objects: &Objects<'_>,
    scope: &Scope<'_>,
    tree: &'a Sexpr<'a>,
    out: &mut Gathered<'a>,
    first: &mut Option<Offence>,
) -> Result<(), Memory>
    ensures { OnOk result
        (IsRead first.old first.new (gathered_of out.new)
        (map_read (and_then (gathered_of out.old))
        (effect_read (known declared.now objects.now.rows.now) scope.now (view tree.now)))) }
{
    let (at, items) = match tree {
        Sexpr::Word { at, .. } => {
            note(first, *at, Code::D22);
            return Ok(());
        }
        Sexpr::Items { at, items } => (*at, *items),
    };
    let [head, rest @ ..] = items else {
        return Ok(());
    };
    let Sexpr::Word { text, .. } = head else {
        note(first, at, Code::D22);
        return Ok(());
    };
    match form_of(text) {
        Form::And => gather_all(arena, declared, objects, scope, rest, out, first)?,
        Form::Not => gather_not(arena, declared, objects, scope, at, rest, out, first)?,
        Form::Atom => {
            let kind = SymbolKind::Predicate;
            let atom = read_atom(arena, kind, declared, objects, scope, at, text, rest, first)?;
            out.add(atom)?;
        }
        Form::Unsupported => note(first, at, Code::D23),
        Form::Malformed => note(first, at, Code::D22),
    }
    Ok(())
}

/// Gathers what several trees say as effects, one after the other.
#[cycle(effects)]
fn gather_all<'a>(
    arena: &'a Bump,
    declared: &Declared<'_>,
    objects: &Objects<'_>,
    scope: &Scope<'_>,
    items: &'a [Sexpr<'a>],
    out: &mut Gathered<'a>,
    first: &mut Option<Offence>,
) -> Result<(), Memory>
    ensures { OnOk result
        (IsRead first.old first.new (gathered_of out.new)
        (map_read (and_then (gathered_of out.old))
        (all_effects (known declared.now objects.now.rows.now) scope.now (views items.now)))) }
{
    for item in items {
        gather(arena, declared, objects, scope, item, out, first)?;
    }
    Ok(())
}
