//! The tokens of a text, with their spans.

ghost use Rattle.std.specs.Prelude.{◌≡◌, ◌≢◌, ◌≤◌, [], ◌∷◌, length, MatchResult};
ghost use Rattle.stp_base.specs.declared.limits.TheConstants.{MAX_FILE_BYTES};
ghost use Rattle.stp_text.specs.Pieces.{sign_of};
ghost use Rattle.stp_text.specs.Reading.{end_of, token_of, tokens_of};

use crate::fault::TextFault;
use crate::reader::{Piece, Reader};
use std::alloc::Global;
use stp_base::List;

/// What a token is.
#[derive(Clone, Copy, Debug, PartialEq, Eq)]
pub enum TokenKind {
    /// `(`
    LeftParen,
    /// `)`
    RightParen,
    /// A word.
    Word,
}

/// A token: the bytes from offset `at` to before offset `end`.
#[derive(Clone, Copy, Debug, PartialEq, Eq)]
pub struct Token {
    pub kind: TokenKind,
    pub at: u32,
    pub end: u32,
}

/// The token of a piece that ends before the offset `end`.
fn token_at(piece: Piece<'_>, end: u32) -> Token
    requires { end_of (sign_of piece) ≡ end }
    ensures { token_of (sign_of piece.entry) ≡ result ∷ [] }
{
    match piece {
        Piece::Open(at) => Token {
            kind: TokenKind::LeftParen,
            at,
            end,
        },
        Piece::Close(at) => Token {
            kind: TokenKind::RightParen,
            at,
            end,
        },
        Piece::Word { at, .. } => Token {
            kind: TokenKind::Word,
            at,
            end,
        },
    }
}

/// The tokens of a text in order, or the first bad byte or overlong word.
pub fn tokens(alloc: Global, bytes: &[u8]) -> Result<List<Token>, TextFault>
    requires { length bytes.now ≤ MAX_FILE_BYTES }
    ensures { MatchResult result (λ found. tokens_of bytes.now ≡ Ok found) (λ fault. fault ≢ TextFault.Memory → tokens_of bytes.now ≡ Err fault) }
{
    let mut found = List::new(alloc);
    let mut reader = Reader::new(bytes);
    while let Some(piece) = reader.piece()? {
        found.push(token_at(piece, reader.place()))?;
    }
    Ok(found)
}
