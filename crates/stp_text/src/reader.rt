//! A reader of a text, which takes one parenthesis or word at a time.

ghost use Rattle.std.specs.Prelude.{◌≡◌, ℕ, ◌+◌, ◌<◌, ◌≤◌, ◌^◌, List, length, drop, MatchResult};
ghost use Rattle.std.specs.List.{slice_get};
ghost use Rattle.stp_text.specs.Bytes.{run};
ghost use Rattle.stp_text.specs.Signs.{signs, AComment};
ghost use Rattle.stp_text.specs.Pieces.{signs_left, TakesPiece, Refuses};

use crate::bytes::{ByteKind, comment_length, kind_of, word_length};
use crate::fault::TextFault;
use std::marker::Model;
use stp_base::limits::MAX_WORD_BYTES;

/// A parenthesis, or a word with its bytes as they are written.
#[derive(Clone, Copy)]
pub enum Piece<'b> {
    /// `(`
    Open(u32),
    /// `)`
    Close(u32),
    /// A word.
    Word { at: u32, text: &'b [u8] },
}

/// The bytes that are left of a text, and how many came before them.
#[derive(Drop)]
pub struct Reader<'b> {
    at: u32,
    rest: &'b [u8],
}

impl<'b> Model for Reader<'b> {
    ghost Value = { ℕ × List ℕ };

    ghost view = { λ r. (r.at, r.rest.now) };

    ghost invariant = { λ r. r.at + length r.rest.now < 2 ^ 32 };
}

impl<'b> Reader<'b> {
    /// A reader of a whole text.
    pub fn new(bytes: &'b [u8]) -> Reader<'b>
        requires { length bytes.now < 2 ^ 32 }
        ensures { result ≡ (0, bytes.now) }
    {
        Reader { at: 0, rest: bytes }
    }

    /// The next byte.
    fn peek(&self) -> Option<u8>
        ensures { result ≡ slice_get self.now.1 0 }
    {
        self.rest.first().copied()
    }

    /// How many bytes were passed.
    pub fn place(&self) -> u32
        ensures { result ≡ self.now.0 }
    {
        self.at
    }

    /// Goes past some bytes.
    fn skip(&mut self, count: usize)
        requires { count ≤ length self.old.1 }
        ensures { self.new ≡ (self.old.0 + count, drop count self.old.1) }
    {
        self.rest = &self.rest[count..];
        self.at += count as u32;
    }

    /// Goes past the rest of a comment.
    fn skip_comment(&mut self)
        ensures same { signs_left self.new ≡ signs AComment self.old.0 self.old.1 }
        ensures shorter { length self.new.1 ≤ length self.old.1 }
    {
        self.skip(comment_length(self.rest));
    }

    /// Takes the longest front of bytes that may stand in a word.
    fn run(&mut self) -> &'b [u8]
        ensures text { result.now ≡ run self.old.1 }
        ensures moved { self.new ≡ (self.old.0 + length result.now, drop (length result.now) self.old.1) }
    {
        let text = &self.rest[..word_length(self.rest)];
        self.skip(text.len());
        text
    }

    /// Takes the next parenthesis or word, and says what is wrong with it by itself.
    pub fn piece(&mut self) -> Result<Option<Piece<'b>>, TextFault>
        ensures { MatchResult result (λ piece. TakesPiece self.old self.new piece) (λ fault. Refuses fault self.old) }
    {
        while let Some(byte) = self.peek() {
            let at = self.place();
            match kind_of(byte) {
                ByteKind::White => self.skip(1),
                ByteKind::Semicolon => {
                    self.skip(1);
                    self.skip_comment();
                }
                ByteKind::Open => {
                    self.skip(1);
                    return Ok(Some(Piece::Open(at)));
                }
                ByteKind::Close => {
                    self.skip(1);
                    return Ok(Some(Piece::Close(at)));
                }
                ByteKind::Word => {
                    let text = self.run();
                    if text.len() > MAX_WORD_BYTES {
                        return Err(TextFault::WordTooLong(at));
                    }
                    return Ok(Some(Piece::Word { at, text }));
                }
                ByteKind::Other => return Err(TextFault::BadByte(at)),
            }
        }
        Ok(None)
    }
}
