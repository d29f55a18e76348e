//! Problems from texts.

use bumpalo::Bump;
use std::alloc::Global;
use stp_base::limits::MAX_FILE_BYTES;
use stp_base::{Memory, Text};
use stp_domain::read_domain;
use stp_problem::read_problem;
use stp_schema::{Domain, Problem};
use stp_text::{Sexpr, tree};

/// The tree of a text.
fn tree_of<'a>(alloc: Global, arena: &'a Bump, bytes: &[u8]) -> Option<&'a Sexpr<'a>> {
    if bytes.len() > MAX_FILE_BYTES {
        return None;
    }
    let tree = tree(alloc, arena, bytes).ok()?;
    let tree = arena.try_alloc(tree).ok()?;
    Some(tree)
}

/// A text between two others.
pub fn between(alloc: Global, parts: &[&[u8]; 3]) -> Result<Text, Memory> {
    let mut text = Text::new(alloc);
    for part in parts {
        text.push(part)?;
    }
    Ok(text)
}

/// The domain of a tree.
fn domain_of_tree<'a>(alloc: Global, arena: &'a Bump, tree: &'a Sexpr<'a>) -> Option<Domain<'a>> {
    match read_domain(alloc, arena, tree) {
        Ok(domain) => Some(domain),
        Err(_fault) => None,
    }
}

/// What the text of a problem says for that of a domain.
pub fn problem_in<'a>(
    alloc: Global,
    arena: &'a Bump,
    domain: &[u8],
    problem: &[u8],
) -> Option<Problem<'a>> {
    let domain_tree = tree_of(alloc, arena, domain)?;
    let problem_tree = tree_of(alloc, arena, problem)?;
    let domain = domain_of_tree(alloc, arena, domain_tree)?;
    let Ok(problem) = read_problem(alloc, arena, domain, problem_tree) else {
        return None;
    };
    Some(problem)
}
