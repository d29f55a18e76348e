//! The tree of a text, or its one refusal.

ghost use Rattle.std.specs.Prelude.{◌≡◌, ◌≢◌, ◌≤◌, true, [], ◌∷◌, length, map, MatchResult, IfOk, IfErr, OnOk};
ghost use Rattle.stp_base.specs.declared.limits.TheConstants.{MAX_FILE_BYTES};
ghost use Rattle.stp_text.specs.Tree.{view, nodes};
ghost use Rattle.stp_text.specs.Bytes.{folded};
ghost use Rattle.stp_text.specs.Offences.{wrong};
ghost use Rattle.stp_text.specs.Reading.{tree_of, only_list};
ghost use Rattle.stp_text.specs.Pieces.{sign_of, signs_left, is_close, ReadsItem, RefusesItem, ReadsItems, RefusesItems};

use crate::fault::TextFault;
use crate::reader::{Piece, Reader};
use crate::sexpr::Sexpr;
use bumpalo::Bump;
use bumpalo::collections::into_bump_slice;
use std::alloc::Global;
use stp_base::List;
use stp_base::limits::MAX_NESTING;

/// A word's text in the arena, with its capital letters folded.
fn fold<'a>(arena: &'a Bump, text: &[u8]) -> Result<&'a [u8], TextFault>
    ensures ok { IfOk result (λ copy. copy.now ≡ folded text.now) }
    ensures err { IfErr result (λ fault. fault ≡ TextFault.Memory) }
{
    let copy = text
        .iter()
        .map(|byte| byte.to_ascii_lowercase())
        .collect(arena)?;
    Ok(into_bump_slice(copy))
}

/// The item that begins with this piece, inside of `depth` lists.
#[cycle(parser)]
fn item<'a>(
    alloc: Global,
    arena: &'a Bump,
    reader: &mut Reader<'_>,
    piece: Piece<'_>,
    depth: u32,
) -> Result<Sexpr<'a>, TextFault>
    requires right { wrong (sign_of piece) ≡ [] }
    requires shallow { depth ≤ 100 }
    requires outside { is_close piece ≡ true → depth ≡ 0 }
    ensures read { MatchResult result (λ t. ReadsItem depth (sign_of piece.entry ∷ signs_left reader.old) (view t) (signs_left reader.new)) (λ fault. RefusesItem depth (sign_of piece.entry ∷ signs_left reader.old) fault) }
    ensures shorter { OnOk result (length reader.new.1 ≤ length reader.old.1) }
{
    match piece {
        Piece::Word { at, text } => Ok(Sexpr::Word {
            at,
            text: fold(arena, text)?,
        }),
        Piece::Open(at) => {
            if depth == MAX_NESTING {
                return Err(TextFault::TooDeep(at));
            }
            let items = items(alloc, arena, reader, at, depth + 1)?;
            Ok(Sexpr::Items { at, items })
        }
        Piece::Close(at) => Err(TextFault::StrayClose(at)),
    }
}

/// The items of the list whose `(` stands at a place and was taken, up to its `)`.
///
/// The list is inside of `depth` lists, itself counted.
#[cycle(parser)]
fn items<'a>(
    alloc: Global,
    arena: &'a Bump,
    reader: &mut Reader<'_>,
    at: u32,
    depth: u32,
) -> Result<&'a [Sexpr<'a>], TextFault>
    requires inside { 1 ≤ depth }
    requires shallow { depth ≤ 100 }
    ensures read { MatchResult result (λ ts. ReadsItems at depth (signs_left reader.old) (map view ts.now) (signs_left reader.new)) (λ fault. RefusesItems at depth (signs_left reader.old) fault) }
    ensures shorter { OnOk result (length reader.new.1 ≤ length reader.old.1) }
{
    let mut found = List::new(alloc);
    while let Some(piece) = reader.piece()? {
        if let Piece::Close(_) = piece {
            return Ok(arena.try_alloc_slice_copy(found.as_slice())?);
        }
        found.push(item(alloc, arena, reader, piece, depth)?)?;
    }
    Err(TextFault::Unclosed(at))
}

/// The one item of a text of this length, which has to be a list.
fn one_list<'a>(items: &[Sexpr<'a>], end: u32) -> Result<Sexpr<'a>, TextFault>
    ensures { MatchResult result (λ t. only_list end (map view items.now) ≡ Ok (view t)) (λ fault. only_list end (map view items.now) ≡ Err fault) }
{
    let [first, rest @ ..] = items else {
        return Err(TextFault::NotOneList(end));
    };
    if let Sexpr::Word { at, .. } = first {
        return Err(TextFault::NotOneList(*at));
    }
    let [second, ..] = rest else {
        return Ok(*first);
    };
    Err(TextFault::NotOneList(second.place()))
}

/// The tree of a text in the arena, or its one refusal.
pub fn tree<'a>(alloc: Global, arena: &'a Bump, bytes: &[u8]) -> Result<Sexpr<'a>, TextFault>
    requires { length bytes.now ≤ MAX_FILE_BYTES }
    ensures read { MatchResult result (λ t. tree_of bytes.now ≡ Ok (view t)) (λ fault. fault ≢ TextFault.Memory → tree_of bytes.now ≡ Err fault) }
    ensures small { IfOk result (λ t. nodes (view t) ≤ length bytes.now) }
{
    let mut found = List::new(alloc);
    let mut reader = Reader::new(bytes);
    while let Some(piece) = reader.piece()? {
        found.push(item(alloc, arena, &mut reader, piece, 0)?)?;
    }
    one_list(found.as_slice(), bytes.len() as u32)
}
