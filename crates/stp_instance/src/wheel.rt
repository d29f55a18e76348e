//! Variables that turn through the objects that they may stand for.

ghost use Rattle.std.specs.Prelude.{◌≡◌, true, ◌∷◌, [], ◌++◌, map, if◌then◌else◌, OnOk};
ghost use Rattle.std.specs.List.{list_all};
ghost use Rattle.stp_instance.specs.Bindings.{numbers_of};
ghost use Rattle.stp_instance.specs.Turning.{has_choice, left, shown};

use stp_base::{Memory, ObjectId};

/// A variable: the objects that it may stand for, and those of them that are left, the one that it stands for now
/// first.
#[derive(Clone, Copy)]
pub(crate) struct Wheel<'a> {
    pub(crate) choices: &'a [ObjectId],
    pub(crate) rest: &'a [ObjectId],
}

/// The object that a variable stands for.
fn object_of(wheel: Wheel<'_>) -> ObjectId
    ensures { result.0 ≡ shown wheel.entry }
{
    match wheel.rest {
        [object, ..] => *object,
        [] => ObjectId(0),
    }
}

/// Puts the objects that these variables stand for at the end of a binding.
pub(crate) fn put(wheels: &[Wheel<'_>], binding: &mut Vec<ObjectId>) -> Result<(), Memory>
    ensures { OnOk result (numbers_of binding.new.items ≡ numbers_of binding.old.items ++ map shown wheels.now) }
{
    for wheel in wheels {
        binding.push(object_of(*wheel))?;
    }
    Ok(())
}

/// Turns to the next binding, by the last variable that has another object left; those behind it begin anew. Whether
/// there is one.
pub(crate) fn turn(wheels: &mut [Wheel<'_>]) -> bool
    requires { list_all has_choice wheels.old ≡ true }
    ensures left { left wheels.old ≡ map shown wheels.old ∷ (if result then left wheels.new else []) }
    ensures choices { list_all has_choice wheels.new ≡ true }
{
    let mut at = wheels.len();
    while at > 0 {
        at -= 1;
        let wheel = wheels[at];
        if let [_, rest @ ..] = wheel.rest {
            if !rest.is_empty() {
                wheels[at].rest = rest;
                return true;
            }
        }
        wheels[at].rest = wheel.choices;
    }
    false
}
