//! The bindings of the variables of a quantifier, one after the other.

ghost use Rattle.std.specs.Prelude.{◌≡◌, IfOk};
ghost use Rattle.stp_instance.specs.Bindings.{numbers_of};
ghost use Rattle.stp_instance.specs.Expanded.{bindings_of};
ghost use Rattle.stp_instance.specs.Typing.{objects_in};
ghost use Rattle.stp_instance.specs.Turning.{Takes};

use crate::members::Members;
use crate::wheel::{Wheel, put, turn};
use bumpalo::Bump;
use std::alloc::Global;
use std::marker::Model;
use stp_base::{Memory, ObjectId};

/// The bindings of variables that are left, in dictionary order, the first variable slowest.
#[derive(Drop)]
pub struct Odometer<'a> {
    wheels: Vec<Wheel<'a>>,
    over: bool,
}

impl<'a> Model for Odometer<'a> {
    ghost use Rattle.std.specs.Prelude.{◌≡◌, ℕ, true, false, List, [], if◌then◌else◌};
    ghost use Rattle.std.specs.List.{list_all};

    ghost Value = { List (List ℕ) };

    ghost use Rattle.stp_instance.specs.Turning.{has_choice, left};

    ghost view = { λ o. if o.over then [] else left o.wheels.items };

    ghost invariant = { λ o. o.over ≡ false → list_all has_choice o.wheels.items ≡ true };
}

impl<'a> Odometer<'a> {
    /// All bindings of variables of these types.
    pub fn new(
        alloc: Global,
        arena: &'a Bump,
        members: &mut Members<'a>,
        kinds: &[u32],
    ) -> Result<Odometer<'a>, Memory>
        ensures bindings { IfOk result (λ r. r ≡ bindings_of (objects_in members.old) kinds.now) }
        ensures same { members.new ≡ members.old }
    {
        let mut wheels = Vec::with_capacity(alloc, kinds.len())?;
        let mut over = false;
        for kind in kinds {
            let choices = members.of(arena, *kind)?;
            over = over || choices.is_empty();
            wheels.push(Wheel {
                choices,
                rest: choices,
            })?;
        }
        Ok(Odometer { wheels, over })
    }

    /// Puts the first binding that is left at the end of a binding, and goes on to the next. Whether there is one.
    pub fn next(&mut self, binding: &mut Vec<ObjectId>) -> Result<bool, Memory>
        ensures { IfOk result
            (λ r. Takes r self.old self.new (numbers_of binding.old.items) (numbers_of binding.new.items)) }
    {
        if self.over {
            return Ok(false);
        }
        put(&self.wheels, binding)?;
        self.over = !turn(&mut self.wheels);
        Ok(true)
    }
}
