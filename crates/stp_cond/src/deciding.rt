//! What is known of a formula where some of its atoms are known.

ghost use Rattle.std.specs.Prelude.{◌≡◌, true, length};
ghost use Rattle.stp_cond.specs.Decided.{DecidedHoldsInAll, KnownAtomsDecide, both, decided, either, opposite};
ghost use Rattle.stp_cond.specs.Folded.{known_of};
ghost use Rattle.stp_cond.specs.Truth.{is_below};

use crate::cond::Cond;
use crate::known::Three;

/// The opposite of what is known.
fn turned(one: Three) -> Three
    ensures { result ≡ opposite one }
{
    match one {
        Three::Yes => Three::No,
        Three::No => Three::Yes,
        Three::Unknown => Three::Unknown,
    }
}

/// What is known of two facts together.
fn and(one: Three, other: Three) -> Three
    ensures { result ≡ both one other }
{
    match (one, other) {
        (Three::Yes, _) => other,
        (Three::No, _) | (_, Three::No) => Three::No,
        _ => Three::Unknown,
    }
}

/// What is known of one or the other of two facts.
fn or(one: Three, other: Three) -> Three
    ensures { result ≡ either one other }
{
    match (one, other) {
        (Three::No, _) => other,
        (Three::Yes, _) | (_, Three::Yes) => Three::Yes,
        _ => Three::Unknown,
    }
}

/// The value of a formula where some of its atoms are known, by Kleene's tables: yes and no hold in every
/// state that agrees with what is known. Each of its atoms has an answer.
pub fn decide(cond: &Cond<'_>, partial: &[Three]) -> Three
    requires { is_below (length partial.now) cond.now ≡ true }
    ensures { result ≡ decided (known_of partial.now) cond.now }
{
    match cond {
        Cond::True => Three::Yes,
        Cond::False => Three::No,
        Cond::Atom(atom) => partial[atom.0 as usize],
        Cond::Not(part) => turned(decide(part, partial)),
        Cond::And(parts) => {
            let mut so_far = Three::Yes;
            for part in *parts {
                so_far = and(so_far, decide(part, partial));
                if matches!(so_far, Three::No) {
                    return Three::No;
                }
            }
            so_far
        }
        Cond::Or(parts) => {
            let mut so_far = Three::No;
            for part in *parts {
                so_far = or(so_far, decide(part, partial));
                if matches!(so_far, Three::Yes) {
                    return Three::Yes;
                }
            }
            so_far
        }
    }
}

/// What is decided of a formula holds in each state that agrees with what is known, and a formula of which all
/// atoms are known is decided.
pub fn deciding_tells_the_truth()
    ensures holds { DecidedHoldsInAll }
    ensures complete { KnownAtomsDecide }
{}
