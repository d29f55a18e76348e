//! Trees of words in an arena.

ghost use Rattle.std.specs.Prelude.{◌≡◌, option_map};
ghost use Rattle.stp_text.specs.Tree.{view, views};
ghost use Rattle.stp_text.specs.Items.{place, word_of, items_of, keyed, first_of, only, has_list};

/// A word or a list, with the offset of its first byte. Texts are folded to lower case.
#[derive(Clone, Copy)]
pub enum Sexpr<'a> {
    /// A word.
    Word { at: u32, text: &'a [u8] },
    /// A list of words and lists.
    Items { at: u32, items: &'a [Sexpr<'a>] },
}

impl<'a> Sexpr<'a> {
    /// The offset of the first byte.
    pub fn place(&self) -> u32
        ensures { result ≡ place (view self.now) }
    {
        match self {
            Sexpr::Word { at, .. } => *at,
            Sexpr::Items { at, .. } => *at,
        }
    }

    /// The text of a word.
    pub fn word(&self) -> Option<&'a [u8]>
        ensures { word_of (view self.now) ≡ option_map (λ r. r.now) result }
    {
        match self {
            Sexpr::Word { text, .. } => Some(*text),
            Sexpr::Items { .. } => None,
        }
    }

    /// The items of a list.
    pub fn items(&self) -> Option<&'a [Sexpr<'a>]>
        ensures { items_of (view self.now) ≡ option_map (λ r. views r.now) result }
    {
        match self {
            Sexpr::Word { .. } => None,
            Sexpr::Items { items, .. } => Some(*items),
        }
    }

    /// The first word of a list, and the items after it.
    pub fn keyed(&self) -> Option<(&'a [u8], &'a [Sexpr<'a>])>
        ensures { keyed (view self.now) ≡ option_map (λ r. (r.0.now, views r.1.now)) result }
    {
        let items = self.items()?;
        let (first, rest) = first_of(items)?;
        let word = first.word()?;
        Some((word, rest))
    }
}

/// The first item, and those after it.
pub fn first_of<'a>(items: &'a [Sexpr<'a>]) -> Option<(&'a Sexpr<'a>, &'a [Sexpr<'a>])>
    ensures { first_of (views items.now) ≡ option_map (λ r. (view r.0.now, views r.1.now)) result }
{
    let [first, rest @ ..] = items else {
        return None;
    };
    Some((first, rest))
}

/// The item of a list of exactly one.
pub fn only<'a>(items: &'a [Sexpr<'a>]) -> Option<&'a Sexpr<'a>>
    ensures { only (views items.now) ≡ option_map (λ r. view r.now) result }
{
    let (first, rest) = first_of(items)?;
    if first_of(rest).is_some() {
        return None;
    }
    Some(first)
}

/// Whether one of these items is a list.
pub fn has_list(items: &[Sexpr<'_>]) -> bool
    ensures { result ≡ has_list (views items.now) }
{
    for item in items {
        match item {
            Sexpr::Word { .. } => {}
            Sexpr::Items { .. } => return true,
        }
    }
    false
}
