//! Worked formulas: their atoms, with other atoms, and folded.
//!
//! A formula is written as `t`, `f`, a digit for an atom, or an operator `!`, `&` or `|` before its
//! members in parentheses.

ghost use Rattle.std.specs.Prelude.{◌≡◌, Bool};
ghost use Rattle.stp_cond.specs.Truth.{is_below};

use bumpalo::Bump;
use std::alloc::Global;
use std::test::*;
use stp_base::{AtomId, Memory, StateRow, Text};
use stp_cond::{Cond, Three, atoms, fold, holds, negate, substitute};

/// The formula of an operator and its members.
fn made<'a>(arena: &'a Bump, operator: u8, members: &[Cond<'a>]) -> Result<Cond<'a>, Memory> {
    let members = arena.try_alloc_slice_copy(members)?;
    match (operator, members) {
        (b'!', [part, ..]) => Ok(Cond::Not(part)),
        (b'&', members) => Ok(Cond::And(members)),
        (_, members) => Ok(Cond::Or(members)),
    }
}

/// The formula that a text spells.
fn read<'a>(alloc: Global, arena: &'a Bump, text: &[u8]) -> Result<Cond<'a>, Memory> {
    let mut parts = Vec::new(alloc);
    let mut open = Vec::new(alloc);
    for byte in text {
        match *byte {
            b't' => parts.push(Cond::True)?,
            b'f' => parts.push(Cond::False)?,
            b'0'..=b'9' => parts.push(Cond::Atom(AtomId(u32::from(*byte - b'0'))))?,
            b')' => {
                if let Some((operator, start)) = open.pop()
                    && start <= parts.len()
                {
                    let whole = made(arena, operator, &parts[start..])?;
                    parts.truncate(start);
                    parts.push(whole)?;
                }
            }
            b'!' | b'&' | b'|' => open.push((*byte, parts.len()))?,
            _ => {}
        }
    }
    Ok(parts.pop().unwrap_or(Cond::False))
}

/// Writes a formula, its atoms by their last digits.
#[cycle(spell)]
fn spell(cond: &Cond<'_>, out: &mut Text) -> Result<(), Memory> {
    match cond {
        Cond::True => out.push(b"t"),
        Cond::False => out.push(b"f"),
        Cond::Atom(atom) => out.push(&[b'0' + (atom.0 % 10) as u8]),
        Cond::Not(part) => {
            out.push(b"!(")?;
            spell(part, out)?;
            out.push(b")")
        }
        Cond::And(parts) => spell_all(b"&(", parts, out),
        Cond::Or(parts) => spell_all(b"|(", parts, out),
    }
}

/// Writes the members of a formula.
#[cycle(spell)]
fn spell_all(operator: &[u8], parts: &[Cond<'_>], out: &mut Text) -> Result<(), Memory> {
    out.push(operator)?;
    for part in parts {
        spell(part, out)?;
    }
    out.push(b")")
}

/// The text of a formula.
fn spelled(alloc: Global, cond: &Cond<'_>) -> Result<Text, Memory> {
    let mut out = Text::new(alloc);
    spell(cond, &mut out)?;
    Ok(out)
}

/// Whether each atom of a formula is below a number.
fn within(cond: &Cond<'_>, count: usize) -> bool
    ensures { result ≡ is_below count cond.now }
{
    match cond {
        Cond::True | Cond::False => true,
        Cond::Atom(atom) => (atom.0 as usize) < count,
        Cond::Not(part) => within(part, count),
        Cond::And(parts) | Cond::Or(parts) => {
            for part in *parts {
                if !within(part, count) {
                    return false;
                }
            }
            true
        }
    }
}

/// A formula folded where the atom 0 is true, the atom 1 is false and the atoms 2 and 3 are unknown.
fn folded<'a>(alloc: Global, arena: &'a Bump, cond: &Cond<'a>) -> Result<Text, Memory> {
    if !within(cond, 4) {
        return Ok(Text::new(alloc));
    }
    let known = [Three::Yes, Three::No, Three::Unknown, Three::Unknown];
    let folded = fold(alloc, arena, cond, &known)?;
    spelled(alloc, &folded)
}

/// A formula with the atom 3 for the atom 1, and 7 for 3.
fn replaced<'a>(alloc: Global, arena: &'a Bump, cond: &Cond<'a>) -> Result<Text, Memory> {
    let new = substitute(
        alloc,
        arena,
        cond,
        &[AtomId(1), AtomId(3)],
        &[AtomId(3), AtomId(7)],
    )?;
    spelled(alloc, &new)
}

const FOLDED: [(&[u8], &[u8]); 20] = [
    (b"0", b"t"),
    (b"1", b"f"),
    (b"2", b"2"),
    (b"!(2)", b"!(2)"),
    (b"!(0)", b"f"),
    (b"!(1)", b"t"),
    (b"&()", b"t"),
    (b"|()", b"f"),
    (b"&(023)", b"&(23)"),
    (b"|(123)", b"|(23)"),
    (b"&(2013)", b"f"),
    (b"|(2013)", b"t"),
    (b"&(02)", b"2"),
    (b"|(1!(2))", b"!(2)"),
    (b"&(0t)", b"t"),
    (b"|(1f)", b"f"),
    (b"|(&(01)!(|(12))&(0|(13)))", b"|(!(2)3)"),
    (b"&(|(01)!(|(12))&(0|(13)))", b"&(!(2)3)"),
    (b"&(2!(|(01)))", b"f"),
    (b"&(&(23)|(32))", b"&(&(23)|(32))"),
];

/// The text of a formula folded.
fn text_folded(alloc: Global, text: &[u8]) -> Result<Text, Memory> {
    let arena = Bump::new(alloc);
    let cond = read(alloc, &arena, text)?;
    folded(alloc, &arena, &cond)
}

/// Whether a text was made, and is this one.
fn is_text(found: Result<Text, Memory>, wanted: &[u8]) -> bool {
    match found {
        Ok(text) => text.as_slice() == wanted,
        Err(_memory) => false,
    }
}

#[test]
fn folding(rt: HostRuntime) {
    for (text, wanted) in FOLDED.iter() {
        assert!(rt; is_text(text_folded(rt.alloc(), text), wanted));
    }
}

const REPLACED: [(&[u8], &[u8]); 7] = [
    (b"1", b"3"),
    (b"3", b"7"),
    (b"2", b"2"),
    (b"f", b"f"),
    (b"&()", b"&()"),
    (b"|()", b"|()"),
    (b"&(1!(3)|(21f)t)", b"&(3!(7)|(23f)t)"),
];

/// The text of a formula with other atoms.
fn text_replaced(alloc: Global, text: &[u8]) -> Result<Text, Memory> {
    let arena = Bump::new(alloc);
    let cond = read(alloc, &arena, text)?;
    replaced(alloc, &arena, &cond)
}

#[test]
fn substituting(rt: HostRuntime) {
    for (text, wanted) in REPLACED.iter() {
        assert!(rt; is_text(text_replaced(rt.alloc(), text), wanted));
    }
}

/// The text of the negation of a formula.
fn text_negated(alloc: Global, text: &[u8]) -> Result<Text, Memory> {
    let arena = Bump::new(alloc);
    let cond = read(alloc, &arena, text)?;
    let negated = negate(&arena, &cond)?;
    spelled(alloc, &negated)
}

/// Whether the atoms of a formula are these.
fn has_atoms(alloc: Global, cond: &Cond<'_>, wanted: &[AtomId]) -> bool {
    match atoms(alloc, cond) {
        Ok(found) => found.as_slice() == wanted,
        Err(_memory) => false,
    }
}

/// Whether the atoms of a text's formula are these.
fn text_has_atoms(alloc: Global, text: &[u8], wanted: &[AtomId]) -> bool {
    let arena = Bump::new(alloc);
    match read(alloc, &arena, text) {
        Ok(cond) => has_atoms(alloc, &cond, wanted),
        Err(_memory) => false,
    }
}

#[test]
fn negation_and_atoms(rt: HostRuntime) {
    let alloc = rt.alloc();
    assert!(rt; is_text(text_negated(alloc, b"|(56)"), b"!(|(56))"));
    let wanted = [AtomId(0), AtomId(2), AtomId(5), AtomId(6), AtomId(7)];
    assert!(rt; text_has_atoms(alloc, b"&(7!(|(56))2t70)", &wanted));
}

/// The atom 0 under so many negations of a conjunction of a disjunction, each with the atom 1.
fn deep<'a>(arena: &'a Bump, count: u32) -> Result<Cond<'a>, Memory> {
    let mut cond = Cond::Atom(AtomId(0));
    for _ in 0..count {
        let either = made(arena, b'|', &[cond, Cond::Atom(AtomId(1))])?;
        let alone = made(arena, b'&', &[either])?;
        cond = made(arena, b'!', &[alone])?;
    }
    Ok(cond)
}

/// Whether a formula holds where the first of two atoms is true and the other false.
fn holds_at_first(alloc: Global, cond: &Cond<'_>) -> Option<bool> {
    if !within(cond, 2) {
        return None;
    }
    let mut row = StateRow::new(alloc, 2).ok()?;
    row.set(AtomId(0), true);
    Some(holds(cond, &row))
}

/// Whether a deep formula has its two atoms, folds to false, and is false.
fn is_deep<'a>(alloc: Global, arena: &'a Bump, cond: &Cond<'a>) -> bool {
    has_atoms(alloc, cond, &[AtomId(0), AtomId(1)])
        && is_text(folded(alloc, arena, cond), b"f")
        && holds_at_first(alloc, cond) == Some(false)
}

/// Whether the same with the atom 1 alone folds to true, and is true.
fn is_turned<'a>(alloc: Global, arena: &'a Bump, cond: &Cond<'a>) -> bool {
    let Ok(turned) = substitute(alloc, arena, cond, &[AtomId(0)], &[AtomId(1)]) else {
        return false;
    };
    is_text(folded(alloc, arena, &turned), b"t") && holds_at_first(alloc, &turned) == Some(true)
}

#[test]
fn deep_formulas(rt: HostRuntime) -> Result<(), Fail> {
    let arena = Bump::new(rt.alloc());
    let cond = deep(&arena, 85)?;
    assert!(rt; is_deep(rt.alloc(), &arena, &cond));
    assert!(rt; is_turned(rt.alloc(), &arena, &cond));
    Ok(())
}
