//! The forms of whole files.

ghost use Rattle.std.specs.Prelude.{◌≡◌, option_map};
ghost use Rattle.stp_text.specs.Tree.{view, views};
ghost use Rattle.stp_domain_parts.specs.Forms.{name_behind, definition};

use stp_text::{Sexpr, first_of, is_name, only};

/// The name in `(KIND NAME)`.
fn name_behind<'a>(kind: &[u8], tree: &Sexpr<'a>) -> Option<&'a [u8]>
    ensures { name_behind kind.now (view tree.now) ≡ option_map (λ r. r.now) result }
{
    let (word, items) = tree.keyed()?;
    let item = only(items)?;
    let name = item.word()?;
    if word != kind || !is_name(name) {
        return None;
    }
    Some(name)
}

/// The name and the sections of `(define (KIND NAME) SECTION*)`.
pub fn definition<'a>(kind: &[u8], tree: &Sexpr<'a>) -> Option<(&'a [u8], &'a [Sexpr<'a>])>
    ensures { definition kind.now (view tree.now) ≡ option_map (λ r. (r.0.now, views r.1.now)) result }
{
    let (word, items) = tree.keyed()?;
    let (title, sections) = first_of(items)?;
    let name = name_behind(kind, title)?;
    if word != b"define".as_slice() {
        return None;
    }
    Some((name, sections))
}
