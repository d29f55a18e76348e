//! Domains and problems from texts, and whether they are refused.

use bumpalo::Bump;
use std::alloc::Global;
use stp_base::limits::MAX_FILE_BYTES;
use stp_base::{Memory, Text};
use stp_domain::read_domain;
use stp_problem::read_problem;
use stp_refusal::{Code, ReadFault};
use stp_schema::{Domain, Problem};
use stp_text::{Sexpr, tree};

/// The tree of a text.
pub fn tree_of<'a>(alloc: Global, arena: &'a Bump, bytes: &[u8]) -> Option<&'a Sexpr<'a>> {
    if bytes.len() > MAX_FILE_BYTES {
        return None;
    }
    let tree = tree(alloc, arena, bytes).ok()?;
    let tree = arena.try_alloc(tree).ok()?;
    Some(tree)
}

/// A text between two others.
pub fn between(alloc: Global, parts: &[&[u8]; 3]) -> Result<Text, Memory> {
    let mut text = Text::new(alloc);
    for part in parts {
        text.push(part)?;
    }
    Ok(text)
}

/// The domain of a tree.
pub fn domain_of_tree<'a>(
    alloc: Global,
    arena: &'a Bump,
    tree: &'a Sexpr<'a>,
) -> Option<Domain<'a>> {
    match read_domain(alloc, arena, tree) {
        Ok(domain) => Some(domain),
        Err(_fault) => None,
    }
}

/// The domain of a text.
pub fn domain_in<'a>(alloc: Global, arena: &'a Bump, bytes: &[u8]) -> Option<Domain<'a>> {
    let tree = tree_of(alloc, arena, bytes)?;
    domain_of_tree(alloc, arena, tree)
}

/// What the text of a problem says for that of a domain; want of memory where one of them has no tree or the domain is
/// refused.
pub fn problem_in<'a>(
    alloc: Global,
    arena: &'a Bump,
    domain: &[u8],
    problem: &[u8],
) -> Result<Problem<'a>, ReadFault> {
    let Some(domain) = domain_in(alloc, arena, domain) else {
        return Err(ReadFault::Memory);
    };
    let Some(tree) = tree_of(alloc, arena, problem) else {
        return Err(ReadFault::Memory);
    };
    read_problem(alloc, arena, domain, tree)
}

/// Whether a fault is this refusal.
fn is_refusal(fault: Option<ReadFault>, at: u32, code: Code) -> bool {
    fault == Some(ReadFault::Refused { code, at })
}

/// The fault of a domain's text.
fn fault(alloc: Global, bytes: &[u8]) -> Option<ReadFault> {
    let arena = Bump::new(alloc);
    let Some(tree) = tree_of(alloc, &arena, bytes) else {
        return Some(ReadFault::Memory);
    };
    read_domain(alloc, &arena, tree).err()
}

/// Whether a domain's text is refused so.
pub fn is_domain_refused(alloc: Global, bytes: &[u8], at: u32, code: Code) -> bool {
    is_refusal(fault(alloc, bytes), at, code)
}

/// Whether a place is this one behind some bytes.
fn is_behind(bytes: &[u8], place: u32, at: u32) -> bool {
    place >= at && (place - at) as usize == bytes.len()
}

/// Whether a domain's text is refused so at the part between two others.
pub fn is_part_refused(alloc: Global, parts: &[&[u8]; 3], at: u32, code: Code) -> bool {
    let Ok(text) = between(alloc, parts) else {
        return false;
    };
    match fault(alloc, text.as_slice()) {
        Some(
            ReadFault::Refused {
                code: found,
                at: place,
            },
        ) => { is_behind(parts[0], place, at) && found == code }
        _ => false,
    }
}

/// The fault of a problem's text for that of a domain.
pub fn problem_fault(alloc: Global, domain: &[u8], problem: &[u8]) -> Option<ReadFault> {
    let arena = Bump::new(alloc);
    problem_in(alloc, &arena, domain, problem).err()
}

/// Whether a problem's text is refused so.
pub fn is_problem_refused(
    alloc: Global,
    domain: &[u8],
    problem: &[u8],
    at: u32,
    code: Code,
) -> bool {
    is_refusal(problem_fault(alloc, domain, problem), at, code)
}

/// Whether a problem's text is refused so at the part between two others.
pub fn is_problem_part_refused(
    alloc: Global,
    domain: &[u8],
    parts: &[&[u8]; 3],
    at: u32,
    code: Code,
) -> bool {
    let Ok(text) = between(alloc, parts) else {
        return false;
    };
    match problem_fault(alloc, domain, text.as_slice()) {
        Some(
            ReadFault::Refused {
                code: found,
                at: place,
            },
        ) => { is_behind(parts[0], place, at) && found == code }
        _ => false,
    }
}
