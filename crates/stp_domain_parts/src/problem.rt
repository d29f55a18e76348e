//! The parts of a problem.

ghost use Rattle.std.specs.Prelude.{◌≡◌, option_map};
ghost use Rattle.stp_text.specs.Tree.{view, views};
ghost use Rattle.stp_refusal.specs.Read.{IsRead, Finds};
ghost use Rattle.stp_domain_parts.specs.Problem.{no_sections, has_section, with_section, names_domain, own_offences, section_once, section_read, sections_read, missing, section_or, goal_in, problem_with, problem_read};
ghost use Rattle.stp_domain_parts.specs.ProblemViews.{section_of, sections_of, problem_of};

use crate::forms::definition;
use crate::key::{ProblemKey, problem_key};
use stp_refusal::{Code, Offence, note};
use stp_text::{Sexpr, only};

/// A problem, as it is written: of each section the items behind its first word, and none where it is missing.
#[derive(Clone, Copy)]
pub struct ProblemParts<'a> {
    pub objects: &'a [Sexpr<'a>],
    pub init: &'a [Sexpr<'a>],
    /// The offset of the goal's section.
    pub goal_at: u32,
    pub goal: Sexpr<'a>,
}

/// A section: its offset, and the items behind its first word.
#[derive(Clone, Copy)]
struct Section<'a> {
    at: u32,
    items: &'a [Sexpr<'a>],
}

/// The sections of a problem, as far as they were read.
#[derive(Clone, Copy)]
struct Found<'a> {
    domain: Option<Section<'a>>,
    requirements: Option<Section<'a>>,
    metric: Option<Section<'a>>,
    objects: Option<Section<'a>>,
    init: Option<Section<'a>>,
    goal: Option<Section<'a>>,
}

impl<'a> Found<'a> {
    /// No section.
    fn none() -> Found<'a>
        ensures { sections_of result ≡ no_sections }
    {
        Found {
            domain: None,
            requirements: None,
            metric: None,
            objects: None,
            init: None,
            goal: None,
        }
    }

    /// Whether a section was seen.
    fn has(&self, key: ProblemKey) -> bool
        ensures { result ≡ has_section key (sections_of self.now) }
    {
        match key {
            ProblemKey::Domain => self.domain.is_some(),
            ProblemKey::Requirements => self.requirements.is_some(),
            ProblemKey::Metric => self.metric.is_some(),
            ProblemKey::Objects => self.objects.is_some(),
            ProblemKey::Init => self.init.is_some(),
            ProblemKey::Goal => self.goal.is_some(),
        }
    }

    /// Adds a section.
    fn add(&mut self, key: ProblemKey, section: Section<'a>)
        ensures { sections_of self.new ≡ with_section key (section_of section.entry) (sections_of self.old) }
    {
        match key {
            ProblemKey::Domain => self.domain = Some(section),
            ProblemKey::Requirements => self.requirements = Some(section),
            ProblemKey::Metric => self.metric = Some(section),
            ProblemKey::Objects => self.objects = Some(section),
            ProblemKey::Init => self.init = Some(section),
            ProblemKey::Goal => self.goal = Some(section),
        }
    }

    /// Adds a section that is not repeated.
    fn read_once(&mut self, key: ProblemKey, section: Section<'a>, first: &mut Option<Offence>)
        ensures { IsRead first.old first.new (sections_of self.new) (section_once key (section_of section.entry) (sections_of self.old)) }
    {
        if self.has(key) {
            note(first, section.at, Code::P04);
        } else {
            self.add(key, section);
        }
    }

    /// Reads a section.
    fn read(&mut self, domain: &[u8], tree: &'a Sexpr<'a>, first: &mut Option<Offence>)
        ensures { IsRead first.old first.new (sections_of self.new) (section_read domain.now (sections_of self.old) (view tree.now)) }
    {
        let at = tree.place();
        let Some((word, items)) = tree.keyed() else {
            note(first, at, Code::P03);
            return;
        };
        let Some(key) = problem_key(word) else {
            note(first, at, Code::P03);
            return;
        };
        judge(domain, key, at, items, first);
        self.read_once(key, Section { at, items }, first);
    }
}

/// Whether the items of `(:domain NAME)` are this domain's name.
fn names_domain(domain: &[u8], items: &[Sexpr<'_>]) -> bool
    ensures { result ≡ names_domain domain.now (views items.now) }
{
    let Some(item) = only(items) else {
        return false;
    };
    let Some(name) = item.word() else {
        return false;
    };
    name == domain
}

/// Notes what is wrong with a section by itself.
fn judge(domain: &[u8], key: ProblemKey, at: u32, items: &[Sexpr<'_>], first: &mut Option<Offence>)
    ensures { Finds first.old first.new (own_offences domain.now key at (views items.now)) }
{
    match key {
        ProblemKey::Domain => {
            if !names_domain(domain, items) {
                note(first, at, Code::P02);
            }
        }
        ProblemKey::Goal => {
            if only(items).is_none() {
                note(first, at, Code::P05);
            }
        }
        _ => {}
    }
}

/// The sections of a problem.
fn read_sections<'a>(
    domain: &[u8],
    sections: &'a [Sexpr<'a>],
    first: &mut Option<Offence>,
) -> Found<'a>
    ensures { IsRead first.old first.new (sections_of result) (sections_read domain.now no_sections (views sections.now)) }
{
    let mut found = Found::none();
    for section in sections {
        found.read(domain, section, first);
    }
    found
}

/// Notes the sections that are missing in a file at a place.
fn judge_missing(at: u32, found: &Found<'_>, first: &mut Option<Offence>)
    ensures { Finds first.old first.new (missing at (sections_of found.now)) }
{
    if found.domain.is_none() {
        note(first, at, Code::P02);
    }
    if found.goal.is_none() {
        note(first, at, Code::P05);
    }
}

/// A section, or an empty one at a place.
fn section_or<'a>(at: u32, section: Option<Section<'a>>) -> Section<'a>
    ensures { section_of result ≡ section_or at (option_map section_of section.entry) }
{
    section.unwrap_or(Section { at, items: &[] })
}

/// The one item of the goal's section, or `()`.
fn goal_in<'a>(section: Section<'a>) -> Sexpr<'a>
    ensures { view result ≡ goal_in (section_of section.entry) }
{
    match only(section.items) {
        Some(goal) => *goal,
        None => Sexpr::Items {
            at: section.at,
            items: &[],
        },
    }
}

/// The parts that these sections of a file at a place give.
fn problem_with<'a>(at: u32, found: &Found<'a>) -> ProblemParts<'a>
    ensures { problem_of result ≡ problem_with at (sections_of found.now) }
{
    let goal = section_or(at, found.goal);
    ProblemParts {
        objects: section_or(at, found.objects).items,
        init: section_or(at, found.init).items,
        goal_at: goal.at,
        goal: goal_in(goal),
    }
}

/// The parts of a problem of a domain of this name.
///
/// Each offence is noted: a file that is no problem, another domain, sections that are unknown or repeated, and a goal
/// that is missing or not one.
pub fn problem_parts<'a>(
    domain_name: &[u8],
    tree: &'a Sexpr<'a>,
    first: &mut Option<Offence>,
) -> ProblemParts<'a>
    ensures { IsRead first.old first.new (problem_of result) (problem_read domain_name.now (view tree.now)) }
{
    let at = tree.place();
    let Some((_, sections)) = definition(b"problem".as_slice(), tree) else {
        note(first, at, Code::P01);
        return problem_with(at, &Found::none());
    };
    let found = read_sections(domain_name, sections, first);
    judge_missing(at, &found, first);
    problem_with(at, &found)
}
