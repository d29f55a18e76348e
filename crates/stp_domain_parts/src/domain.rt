//! The parts of a domain.

ghost use Rattle.std.specs.Prelude.{◌≡◌, OnOk, IfOk};
ghost use Rattle.stp_text.specs.Tree.{view, views};
ghost use Rattle.stp_refusal.specs.Read.{IsRead};
ghost use Rattle.stp_domain_parts.specs.Domain.{no_sections, has_section, with_section, section_by, section_read, sections_read, no_domain, domain_read};
ghost use Rattle.stp_domain_parts.specs.Views.{sections_of, domain_of};

use crate::action::{ActionParts, read_action};
use crate::forms::definition;
use crate::key::{PartKey, SectionKey, section_key};
use bumpalo::Bump;
use std::alloc::Global;
use stp_base::{List, Memory};
use stp_refusal::{Code, Offence, note};
use stp_text::Sexpr;

/// A domain, as it is written: of each section the items behind its first word, and none where it is missing.
#[derive(Clone, Copy)]
pub struct DomainParts<'a> {
    pub name: &'a [u8],
    pub types: &'a [Sexpr<'a>],
    pub constants: &'a [Sexpr<'a>],
    pub predicates: &'a [Sexpr<'a>],
    pub functions: &'a [Sexpr<'a>],
    pub actions: &'a [ActionParts<'a>],
}

/// The sections of a domain, as far as they were read.
#[derive(Drop)]
struct Found<'a> {
    requirements: Option<&'a [Sexpr<'a>]>,
    types: Option<&'a [Sexpr<'a>]>,
    constants: Option<&'a [Sexpr<'a>]>,
    predicates: Option<&'a [Sexpr<'a>]>,
    functions: Option<&'a [Sexpr<'a>]>,
    actions: List<ActionParts<'a>>,
}

impl<'a> Found<'a> {
    /// No section.
    fn none(alloc: Global) -> Found<'a>
        ensures { sections_of result ≡ no_sections }
    {
        Found {
            requirements: None,
            types: None,
            constants: None,
            predicates: None,
            functions: None,
            actions: List::new(alloc),
        }
    }

    /// Whether a section was seen.
    fn has(&self, key: PartKey) -> bool
        ensures { result ≡ has_section key (sections_of self.now) }
    {
        match key {
            PartKey::Requirements => self.requirements.is_some(),
            PartKey::Types => self.types.is_some(),
            PartKey::Constants => self.constants.is_some(),
            PartKey::Predicates => self.predicates.is_some(),
            PartKey::Functions => self.functions.is_some(),
        }
    }

    /// Adds a section.
    fn add(&mut self, key: PartKey, items: &'a [Sexpr<'a>])
        ensures { sections_of self.new ≡ with_section key (views items.now) (sections_of self.old) }
    {
        match key {
            PartKey::Requirements => self.requirements = Some(items),
            PartKey::Types => self.types = Some(items),
            PartKey::Constants => self.constants = Some(items),
            PartKey::Predicates => self.predicates = Some(items),
            PartKey::Functions => self.functions = Some(items),
        }
    }

    /// Reads a section at a place, by its first word.
    fn read_by(
        &mut self,
        key: SectionKey,
        at: u32,
        items: &'a [Sexpr<'a>],
        first: &mut Option<Offence>,
    ) -> Result<(), Memory>
        ensures { OnOk result (IsRead first.old first.new (sections_of self.new) (section_by key at (views items.now) (sections_of self.old))) }
    {
        match key {
            SectionKey::Part(key) => {
                if self.has(key) {
                    note(first, at, Code::D04);
                } else {
                    self.add(key, items);
                }
            }
            SectionKey::Action(kind) => self.actions.push(read_action(kind, at, items, first))?,
            SectionKey::Unsupported => note(first, at, Code::D03),
            SectionKey::Unknown => note(first, at, Code::D02),
        }
        Ok(())
    }

    /// Reads a section.
    fn read(&mut self, section: &'a Sexpr<'a>, first: &mut Option<Offence>) -> Result<(), Memory>
        ensures { OnOk result (IsRead first.old first.new (sections_of self.new) (section_read (sections_of self.old) (view section.now))) }
    {
        let at = section.place();
        let Some((word, items)) = section.keyed() else {
            note(first, at, Code::D02);
            return Ok(());
        };
        self.read_by(section_key(word), at, items, first)?;
        Ok(())
    }
}

/// The sections of a domain.
fn read_sections<'a>(
    alloc: Global,
    sections: &'a [Sexpr<'a>],
    first: &mut Option<Offence>,
) -> Result<Found<'a>, Memory>
    ensures { IfOk result (λ r. IsRead first.old first.new (sections_of r) (sections_read no_sections (views sections.now))) }
{
    let mut found = Found::none(alloc);
    for section in sections {
        found.read(section, first)?;
    }
    Ok(found)
}

/// What stands in the place of a file that is no domain.
fn no_domain<'a>() -> DomainParts<'a>
    ensures { domain_of result ≡ no_domain }
{
    DomainParts {
        name: &[],
        types: &[],
        constants: &[],
        predicates: &[],
        functions: &[],
        actions: &[],
    }
}

/// The parts of a domain.
///
/// Each offence is noted: a file that is no domain, sections that are unknown, unsupported or repeated, and malformed
/// actions.
pub fn domain_parts<'a>(
    alloc: Global,
    arena: &'a Bump,
    tree: &'a Sexpr<'a>,
    first: &mut Option<Offence>,
) -> Result<DomainParts<'a>, Memory>
    ensures { IfOk result (λ r. IsRead first.old first.new (domain_of r) (domain_read (view tree.now))) }
{
    let Some((name, sections)) = definition(b"domain".as_slice(), tree) else {
        note(first, tree.place(), Code::D01);
        return Ok(no_domain());
    };
    let found = read_sections(alloc, sections, first)?;
    let actions = arena.try_alloc_slice_copy(found.actions.as_slice())?;
    Ok(DomainParts {
        name,
        types: found.types.unwrap_or(&[]),
        constants: found.constants.unwrap_or(&[]),
        predicates: found.predicates.unwrap_or(&[]),
        functions: found.functions.unwrap_or(&[]),
        actions,
    })
}
