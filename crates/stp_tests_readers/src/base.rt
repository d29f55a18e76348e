//! Lists, texts, rows and tables, and which offence is given.

use std::alloc::Global;
use std::test::Fail;
use stp_base::{AtomId, List, Memory, ObjectId, StateRow, Text};
use stp_refusal::{Code, Offence, ReadFault, end_phase, note};
use stp_tables::{AtomTable, Names};
use stp_text::{is_name, is_variable};

/// Whether what is pushed stands at a list's end.
fn lists_grow(alloc: Global) -> Result<bool, Memory> {
    let mut list = List::new(alloc);
    list.push(3u8)?;
    list.push(1u8)?;
    Ok(list.as_slice() == [3u8, 1].as_slice())
}

/// Whether what is pushed stands at a text's end.
fn texts_grow(alloc: Global) -> Result<bool, Memory> {
    let mut text = Text::new(alloc);
    text.push(b"ab")?;
    text.push(b"")?;
    text.push(b"c")?;
    Ok(text.as_slice() == b"abc".as_slice())
}

/// Whether a row and its copy keep the value that is set.
fn rows_are_copied(alloc: Global) -> Result<bool, Memory> {
    let mut row = StateRow::new(alloc, 3)?;
    let mut other = StateRow::new(alloc, 3)?;
    row.set(AtomId(2), true);
    let is_set = row.get(AtomId(2)) && !row.get(AtomId(1)) && row.len() == 3;
    other.copy_from(&row);
    Ok(is_set && other.get(AtomId(2)) && !other.get(AtomId(0)))
}

#[test]
fn lists_texts_and_rows(rt: HostRuntime) -> Result<(), Fail> {
    assert!(rt; lists_grow(rt.alloc())?);
    assert!(rt; texts_grow(rt.alloc())?);
    assert!(rt; rows_are_copied(rt.alloc())?);
    Ok(())
}

/// Whether names have the numbers of their first sight.
fn names_have_numbers(alloc: Global) -> Result<bool, Memory> {
    let mut names = Names::new(alloc);
    let road = names.number(b"road")?;
    let at = names.number(b"at")?;
    let again = names.number(b"road")?;
    let is_new = names.add(b"at")?;
    let other_is_new = names.add(b"a")?;
    Ok(
        (road, at, again, is_new, other_is_new) == (0, 1, 0, false, true)
            && names.find(b"a") == Some(2)
            && names.find(b"still").is_none()
            && names.len() == 3,
    )
}

/// The numbers of five atoms, of which the third is the first.
fn numbers_of_atoms(table: &mut AtomTable) -> Result<[u32; 5], Memory> {
    let (one, two) = (ObjectId(1), ObjectId(2));
    let first = table.number(5, &[one, two])?;
    let second = table.number(5, &[two, one])?;
    let again = table.number(5, &[one, two])?;
    let third = table.number(6, &[one, two])?;
    let fourth = table.number(6, &[])?;
    Ok([first.0, second.0, again.0, third.0, fourth.0])
}

/// Whether these atoms are found, and no other.
fn are_found(table: &AtomTable) -> bool {
    let (one, two) = (ObjectId(1), ObjectId(2));
    table.find(6, &[one, two]) == Some(AtomId(2))
        && table.find(5, &[one]).is_none()
        && table.find(5, &[]).is_none()
}

/// Whether a table of four atoms has this one at its second place.
fn is_second(table: &AtomTable, wanted: u32, other: &[ObjectId]) -> bool {
    if table.len() != 4 {
        return false;
    }
    let (predicate, args) = table.get(AtomId(1));
    predicate == wanted && args == other
}

/// Whether atoms have the numbers of their first sight.
fn atoms_have_numbers(alloc: Global) -> Result<bool, Memory> {
    let mut table = AtomTable::new(alloc);
    let numbers = numbers_of_atoms(&mut table)?;
    Ok(
        numbers == [0, 1, 0, 2, 3]
            && are_found(&table)
            && is_second(&table, 5, &[ObjectId(2), ObjectId(1)]),
    )
}

#[test]
fn tables_number_by_first_sight(rt: HostRuntime) -> Result<(), Fail> {
    assert!(rt; names_have_numbers(rt.alloc())?);
    assert!(rt; atoms_have_numbers(rt.alloc())?);
    Ok(())
}

#[test]
fn names_and_variables(rt: HostRuntime) {
    for word in [b"hold-any".as_slice(), b"1_"] {
        assert!(rt; is_name(word));
    }
    for word in [b"-x".as_slice(), b"a.b", b""] {
        assert!(rt; !is_name(word));
    }
    assert!(rt; is_variable(b"?x1"));
    for word in [b"?".as_slice(), b"x"] {
        assert!(rt; !is_variable(word));
    }
}

#[test]
fn least_place_then_least_code(rt: HostRuntime) {
    let mut first = None;
    note(&mut first, 7, Code::D17);
    note(&mut first, 7, Code::D16);
    note(&mut first, 9, Code::D01);
    note(&mut first, 7, Code::D20);
    let (at, code) = (7, Code::D16);
    assert!(rt; first == Some(Offence { at, code }));
    assert!(rt; end_phase(first) == Err(ReadFault::Refused { code, at }));
    assert!(rt; end_phase(None).is_ok());
}
