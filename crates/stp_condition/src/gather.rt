//! Timed conditions, gathered one after the other.

ghost use Rattle.std.specs.Prelude.{◌≡◌, map, IfOk, OnOk};
ghost use Rattle.stp_text.specs.Tree.{view, views};
ghost use Rattle.stp_refusal.specs.Read.{IsRead, map_read};
ghost use Rattle.stp_schema.specs.Known.{known};
ghost use Rattle.stp_schema.specs.Formula.{formula};
ghost use Rattle.stp_condition.specs.Conditions.{each_of};
ghost use Rattle.stp_condition.specs.TimedConditions.{no_parts, and_then, part_at, span_read, equality_refused, parts_read, all_parts, conjunctions};
ghost use Rattle.stp_condition.specs.Views.{gathered_of, timed_conditions_of};

use crate::form::{Form, Span, form_of, part_in};
use crate::timed::TimedConditions;
use crate::{Scope, read_condition_in};
use bumpalo::Bump;
use std::alloc::Global;
use stp_base::{List, Memory};
use stp_refusal::{Code, Offence, note};
use stp_schema::{Declared, Lifted, Objects};
use stp_text::{Sexpr, has_list};

/// The conditions that were read so far, for each span.
#[derive(Drop)]
pub struct Gathered<'a> {
    start: List<Lifted<'a>>,
    over_all: List<Lifted<'a>>,
    end: List<Lifted<'a>>,
}

/// The conjunction of these conditions.
fn conjunction<'a>(arena: &'a Bump, parts: &[Lifted<'a>]) -> Result<Lifted<'a>, Memory>
    ensures { IfOk result (λ r. formula r ≡ each_of (map formula parts.now)) }
{
    let members = arena.try_alloc_slice_copy(parts)?;
    Ok(Lifted::And(members))
}

impl<'a> Gathered<'a> {
    /// No conditions, which take no memory.
    pub fn new(alloc: Global) -> Gathered<'a>
        ensures { gathered_of result ≡ no_parts }
    {
        Gathered {
            start: List::new(alloc),
            over_all: List::new(alloc),
            end: List::new(alloc),
        }
    }

    /// Puts a condition at the end of those of a span.
    fn add(&mut self, span: Span, part: Lifted<'a>) -> Result<(), Memory>
        ensures { OnOk result (gathered_of self.new ≡ and_then (gathered_of self.old) (part_at span (formula part.entry))) }
    {
        match span {
            Span::Start => self.start.push(part),
            Span::OverAll => self.over_all.push(part),
            Span::End => self.end.push(part),
        }
    }

    /// The conjunction of each span, in an arena.
    pub fn conjunctions(&self, arena: &'a Bump) -> Result<TimedConditions<'a>, Memory>
        ensures { IfOk result (λ r. timed_conditions_of r ≡ conjunctions (gathered_of self.now)) }
    {
        let start = conjunction(arena, self.start.as_slice())?;
        let over_all = conjunction(arena, self.over_all.as_slice())?;
        let end = conjunction(arena, self.end.as_slice())?;
        Ok(TimedConditions {
            start,
            over_all,
            end,
        })
    }
}

/// Gathers what a list says that begins with the word of no connective: it must be a condition with its span.
fn gather_part<'a>(
    alloc: Global,
    arena: &'a Bump,
    declared: &Declared<'_>,
    objects: &Objects<'_>,
    scope: &mut Scope<'a>,
    at: u32,
    word: &[u8],
    items: &'a [Sexpr<'a>],
    out: &mut Gathered<'a>,
    first: &mut Option<Offence>,
) -> Result<(), Memory>
    ensures value { OnOk result
        (IsRead first.old first.new (gathered_of out.new)
        (map_read (and_then (gathered_of out.old))
        (span_read (known declared.now objects.now.rows.now) scope.old at word.now (views items.now)))) }
    ensures kept { OnOk result (scope.new ≡ scope.old) }
{
    let Some((span, condition)) = part_in(word, items) else {
        note(first, at, Code::D16);
        return Ok(());
    };
    let part = read_condition_in(alloc, arena, declared, objects, scope, condition, first)?;
    out.add(span, part)?;
    Ok(())
}

/// Notes that an equality is no timed condition.
fn refuse_equality(at: u32, items: &[Sexpr<'_>], out: &Gathered<'_>, first: &mut Option<Offence>)
    ensures { IsRead first.old first.new (gathered_of out.now)
        (map_read (and_then (gathered_of out.now)) (equality_refused at (views items.now))) }
{
    if has_list(items) {
        note(first, at, Code::D21);
        return;
    }
    note(first, at, Code::D16);
}

/// Gathers what a tree says as a timed condition. The scope is at the end as it was.
#[cycle(timed_conditions)]
pub fn gather<'a>(
    alloc: Global,
    arena: &'a Bump,
    declared: &Declared<'_>,
    objects: &Objects<'_>,
    scope: &mut Scope<'a>,
    tree: &'a Sexpr<'a>,
    out: &mut Gathered<'a>,
    first: &mut Option<Offence>,
) -> Result<(), Memory>
    ensures value { OnOk result
        (IsRead first.old first.new (gathered_of out.new)
        (map_read (and_then (gathered_of out.old))
        (parts_read (known declared.now objects.now.rows.now) scope.old (view tree.now)))) }
    ensures kept { OnOk result (scope.new ≡ scope.old) }
{
    let (at, items) = match tree {
        Sexpr::Word { at, .. } => {
            note(first, *at, Code::D16);
            return Ok(());
        }
        Sexpr::Items { at, items } => (*at, *items),
    };
    let [head, rest @ ..] = items else {
        return Ok(());
    };
    let Sexpr::Word { text, .. } = head else {
        note(first, at, Code::D16);
        return Ok(());
    };
    match form_of(text) {
        Form::And => gather_all(alloc, arena, declared, objects, scope, rest, out, first)?,
        Form::Timed => gather_part(
            alloc, arena, declared, objects, scope, at, text, rest, out, first,
        )?,
        Form::Equality => refuse_equality(at, rest, out, first),
        Form::Unsupported => note(first, at, Code::D21),
        Form::Malformed => note(first, at, Code::D16),
    }
    Ok(())
}

/// Gathers what several trees say as timed conditions, one after the other. The scope is at the end as it was.
#[cycle(timed_conditions)]
fn gather_all<'a>(
    alloc: Global,
    arena: &'a Bump,
    declared: &Declared<'_>,
    objects: &Objects<'_>,
    scope: &mut Scope<'a>,
    items: &'a [Sexpr<'a>],
    out: &mut Gathered<'a>,
    first: &mut Option<Offence>,
) -> Result<(), Memory>
    ensures value { OnOk result
        (IsRead first.old first.new (gathered_of out.new)
        (map_read (and_then (gathered_of out.old))
        (all_parts (known declared.now objects.now.rows.now) scope.old (views items.now)))) }
    ensures kept { OnOk result (scope.new ≡ scope.old) }
{
    for item in items {
        gather(alloc, arena, declared, objects, scope, item, out, first)?;
    }
    Ok(())
}
