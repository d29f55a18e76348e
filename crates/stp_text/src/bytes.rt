//! What the bytes of a text are.

ghost use Rattle.std.specs.Prelude.{◌≡◌};
ghost use Rattle.std.specs.List.{prefix_len};
ghost use Rattle.stp_text.specs.Bytes.{is_white, kind, is_word_byte, is_comment_byte};

/// What a byte outside comments is.
#[derive(Clone, Copy)]
pub enum ByteKind {
    /// Space, tab, carriage return or line feed.
    White,
    /// The `;` that begins a comment.
    Semicolon,
    /// `(`
    Open,
    /// `)`
    Close,
    /// A byte of a word.
    Word,
    /// Any other byte.
    Other,
}

/// Whether a byte is a space, a tab, a carriage return or a line feed.
pub fn is_white(byte: u8) -> bool
    ensures { result ≡ is_white byte }
{
    matches!(byte, b' ' | b'\t' | b'\r' | b'\n')
}

/// What a byte outside comments is.
#[tactic(auto, unfolding(crate::specs::Bytes::kind))]
pub fn kind_of(byte: u8) -> ByteKind
    ensures { result ≡ kind byte }
{
    match byte {
        _ if is_white(byte) => ByteKind::White,
        b';' => ByteKind::Semicolon,
        b'(' => ByteKind::Open,
        b')' => ByteKind::Close,
        33..=126 => ByteKind::Word,
        _ => ByteKind::Other,
    }
}

/// How many bytes at the front may stand in a word.
pub fn word_length(bytes: &[u8]) -> usize
    ensures { result ≡ prefix_len is_word_byte bytes.now }
{
    bytes
        .iter()
        .take_while(|byte| matches!(kind_of(**byte), ByteKind::Word))
        .count()
}

/// How many bytes there are before the first line feed.
pub fn comment_length(bytes: &[u8]) -> usize
    ensures { result ≡ prefix_len is_comment_byte bytes.now }
{
    bytes.iter().take_while(|byte| **byte != b'\n').count()
}
