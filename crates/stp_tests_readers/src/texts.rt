//! Texts, their tokens and their trees.

ghost use Rattle.std.specs.Prelude.{◌≤◌, length};

use bumpalo::Bump;
use std::alloc::Global;
use std::test::Fail;
use stp_base::limits::MAX_FILE_BYTES;
use stp_base::{Memory, Text};
use stp_text::{Sexpr, TextFault, TokenKind, tokens, tree};

/// Why a text is refused, if it is.
fn refusal(alloc: Global, bytes: &[u8]) -> Option<TextFault> {
    if bytes.len() > MAX_FILE_BYTES {
        return Some(TextFault::Memory);
    }
    let arena = Bump::new(alloc);
    tree(alloc, &arena, bytes).err()
}

const ROWS: [(&[u8], Option<TextFault>); 19] = [
    (b"(a)", None),
    (b" ;\x00\xff(\n(a;)\n b\r\n)\t", None),
    (
        b"(define (domain x) (:predicates (f)",
        Some(TextFault::Unclosed(19)),
    ),
    (b"", Some(TextFault::NotOneList(0))),
    (b"   ", Some(TextFault::NotOneList(3))),
    (b"; (a)", Some(TextFault::NotOneList(5))),
    (b"(a) b", Some(TextFault::NotOneList(4))),
    (b"a (b)", Some(TextFault::NotOneList(0))),
    (b"(a) (b) c", Some(TextFault::NotOneList(4))),
    (b")", Some(TextFault::StrayClose(0))),
    (b"a b)", Some(TextFault::StrayClose(3))),
    (b"(a))", Some(TextFault::StrayClose(3))),
    (b"(a\x7f)", Some(TextFault::BadByte(2))),
    (b"(a\x0b)", Some(TextFault::BadByte(2))),
    (b"(a\xc3)", Some(TextFault::BadByte(2))),
    (b"((\x01", Some(TextFault::BadByte(2))),
    (b") \x01", Some(TextFault::StrayClose(0))),
    (b"a (b (c", Some(TextFault::Unclosed(5))),
    (b"(a (b) c", Some(TextFault::Unclosed(0))),
];

#[test]
fn refusals_at_places(rt: HostRuntime) {
    for (bytes, wanted) in ROWS.iter() {
        assert!(rt; refusal(rt.alloc(), bytes) == *wanted, "{bytes:?}");
    }
}

/// Texts one after the other, each so many times.
fn repeated(alloc: Global, parts: &[(&[u8], u32)]) -> Result<Text, Memory> {
    let mut text = Text::new(alloc);
    for (part, count) in parts {
        for _ in 0..*count {
            text.push(part)?;
        }
    }
    Ok(text)
}

/// Whether repeated texts are refused so, or read.
fn is_refused(alloc: Global, parts: &[(&[u8], u32)], wanted: Option<TextFault>) -> bool {
    match repeated(alloc, parts) {
        Ok(text) => refusal(alloc, text.as_slice()) == wanted,
        Err(_memory) => false,
    }
}

const LIMITS: [([(&[u8], u32); 4], Option<TextFault>); 5] = [
    ([(b"(", 100), (b")", 100), (b"", 0), (b"", 0)], None),
    (
        [(b"(", 101), (b")", 101), (b"", 0), (b"", 0)],
        Some(TextFault::TooDeep(100)),
    ),
    ([(b"(", 1), (b"w", 100), (b")", 1), (b"", 0)], None),
    (
        [(b"(", 1), (b"w", 101), (b")", 1), (b"", 0)],
        Some(TextFault::WordTooLong(1)),
    ),
    (
        [(b"(", 101), (b"w", 101), (b"\x01", 1), (b"", 0)],
        Some(TextFault::TooDeep(100)),
    ),
];

#[test]
fn limits_are_kept(rt: HostRuntime) {
    for (parts, wanted) in LIMITS.iter() {
        assert!(rt; is_refused(rt.alloc(), parts, *wanted), "{wanted:?}");
    }
}

/// Texts of 1,048,576 bytes.
const LARGEST: [([(&[u8], u32); 4], Option<TextFault>); 3] = [
    (
        [(b"                ", 65_536), (b"", 0), (b"", 0), (b"", 0)],
        Some(TextFault::NotOneList(1_048_576)),
    ),
    (
        [
            (b"(", 1),
            (b"(a)b(a)b(a)b(a)b", 65_535),
            (b"(a)b", 3),
            (b")", 1),
        ],
        None,
    ),
    (
        [
            (b"(;;;;;;;;;;;;;", 1),
            (b";;;;;;;;;;;;;;;;", 65_535),
            (b"\n", 1),
            (b")", 1),
        ],
        None,
    ),
];

#[test]
fn largest_texts(rt: HostRuntime) {
    for (parts, wanted) in LARGEST.iter() {
        assert!(rt; is_refused(rt.alloc(), parts, *wanted), "{wanted:?}");
    }
}

/// Appends a number below 100.
fn push_place(out: &mut Text, number: u32) -> Result<(), Memory> {
    out.push(&[b'0' + (number / 10 % 10) as u8, b'0' + (number % 10) as u8])
}

/// Appends several trees.
#[cycle(push)]
fn push_all(out: &mut Text, items: &[Sexpr<'_>]) -> Result<(), Memory> {
    out.push(b"[")?;
    for item in items {
        push(out, item)?;
    }
    out.push(b"]")
}

/// Appends a tree, each word and list behind its place.
#[cycle(push)]
fn push(out: &mut Text, tree: &Sexpr<'_>) -> Result<(), Memory> {
    match tree {
        Sexpr::Word { at, text } => {
            push_place(out, *at)?;
            out.push(text)
        }
        Sexpr::Items { at, items } => {
            push_place(out, *at)?;
            push_all(out, items)
        }
    }
}

/// The tree of a text, each word and list behind its place.
fn told(alloc: Global, bytes: &[u8]) -> Result<Text, Fail>
    requires { length bytes.now ≤ 1048576 }
{
    let arena = Bump::new(alloc);
    let tree = tree(alloc, &arena, bytes)?;
    let mut out = Text::new(alloc);
    push(&mut out, &tree)?;
    Ok(out)
}

/// Whether the tokens of a text are these.
fn has_tokens(alloc: Global, bytes: &[u8], wanted: &[(TokenKind, u32, u32)]) -> bool
    requires { length bytes.now ≤ 1048576 }
{
    let Ok(found) = tokens(alloc, bytes) else {
        return false;
    };
    let found = found.as_slice();
    if found.len() != wanted.len() {
        return false;
    }
    for (token, row) in found.iter().zip(wanted.iter()) {
        if (token.kind, token.at, token.end) != *row {
            return false;
        }
    }
    true
}

const TOKENS: [(TokenKind, u32, u32); 4] = [
    (TokenKind::RightParen, 0, 1),
    (TokenKind::Word, 2, 4),
    (TokenKind::LeftParen, 7, 8),
    (TokenKind::LeftParen, 8, 9),
];

#[test]
fn trees_and_tokens(rt: HostRuntime) -> Result<(), Fail> {
    let told = told(rt.alloc(), b" (Ab\t(C);)\n)")?;
    assert!(rt; told.as_slice() == b"01[02ab05[06c]]".as_slice());
    assert!(rt; has_tokens(rt.alloc(), b") Ab;c\n((", &TOKENS));
    assert!(rt; tokens(rt.alloc(), b"a \x7f").err() == Some(TextFault::BadByte(2)));
    Ok(())
}
