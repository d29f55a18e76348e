//! The text of the domain.

ghost use Rattle.std.specs.Prelude.{◌≡◌, ◌++◌, IfOk, OnOk};
ghost use Rattle.stp_demo.specs.Domain.{declarations_text, drive_text, photo_text, domain_text};

use std::alloc::Global;
use stp_base::{Memory, Text};

/// Appends the domain's name, and what it declares.
fn push_declarations(out: &mut Text) -> Result<(), Memory>
    ensures { OnOk result (out.new ≡ out.old ++ declarations_text) }
{
    out.push(
        b"(define (domain rover)
 (:requirements :typing :durative-actions)
 (:types rover place - object)
 (:predicates (at ?r - rover ?p - place) (road ?a ?b - place)
   (still ?r - rover) (seen ?p - place))
 (:functions (fast ?a ?b - place) (slow ?a ?b - place))
",
    )
}

/// Appends the action of driving.
fn push_drive(out: &mut Text) -> Result<(), Memory>
    ensures { OnOk result (out.new ≡ out.old ++ drive_text) }
{
    out.push(
        b" (:durative-action drive
  :parameters (?r - rover ?a ?b - place)
  :uncontrollable-duration (and (>= ?duration (fast ?a ?b))
    (<= ?duration (slow ?a ?b)))
  :condition (and (at start (at ?r ?a)) (at start (still ?r))
    (over all (road ?a ?b)))
  :effect (and (at start (not (at ?r ?a))) (at start (not (still ?r)))
    (at end (at ?r ?b)) (at end (still ?r))))
",
    )
}

/// Appends the action of taking a photo, and the domain's end.
fn push_photo(out: &mut Text) -> Result<(), Memory>
    ensures { OnOk result (out.new ≡ out.old ++ photo_text) }
{
    out.push(
        b" (:durative-action photo
  :parameters (?r - rover ?p - place)
  :duration (= ?duration 2)
  :condition (and (over all (at ?r ?p)) (over all (still ?r)))
  :effect (at end (seen ?p))))
",
    )
}

/// The text of the domain: rovers drive for a time that nobody chooses, and take photos where they stand still.
pub fn demo_domain(alloc: Global) -> Result<Text, Memory>
    ensures { IfOk result (λ t. t ≡ domain_text) }
{
    let mut text = Text::new(alloc);
    push_declarations(&mut text)?;
    push_drive(&mut text)?;
    push_photo(&mut text)?;
    Ok(text)
}
