//! The words with which declarations begin.

ghost use Rattle.std.specs.Prelude.{◌≡◌, option_map};
ghost use Rattle.stp_text.specs.Tree.{view};
ghost use Rattle.stp_domain_tables.specs.Heads.{head_of, is_reserved};
ghost use Rattle.stp_domain_tables.specs.HeadViews.{head_in};

use stp_text::Sexpr;

/// The place of a declaration, its name with its place, and the items of its list of parameters.
#[derive(Clone, Copy)]
pub struct Head<'a> {
    pub at: u32,
    pub name_at: u32,
    pub name: &'a [u8],
    pub parameters: &'a [Sexpr<'a>],
}

/// The head of a list that begins with a word.
pub fn head_of<'a>(tree: &Sexpr<'a>) -> Option<Head<'a>>
    ensures { option_map head_in result ≡ head_of (view tree.now) }
{
    let Sexpr::Items { at, items } = tree else {
        return None;
    };
    let [first, rest @ ..] = *items else {
        return None;
    };
    match first {
        Sexpr::Word { at: name_at, text } => Some(Head {
            at: *at,
            name_at: *name_at,
            name: text,
            parameters: rest,
        }),
        Sexpr::Items { .. } => None,
    }
}

/// Whether a word has another meaning where a predicate or a function stands.
pub fn is_reserved(name: &[u8]) -> bool
    ensures { result ≡ is_reserved name.now }
{
    name == b"and".as_slice()
        || name == b"or".as_slice()
        || name == b"not".as_slice()
        || name == b"imply".as_slice()
        || name == b"forall".as_slice()
        || name == b"exists".as_slice()
        || name == b"when".as_slice()
        || name == b"preference".as_slice()
}
