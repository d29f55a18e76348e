//! The objects of each type.

ghost use Rattle.std.specs.Prelude.{◌≡◌, ◌<◌, ◌^◌, length, map, IfOk};
ghost use Rattle.stp_schema.specs.Rows.{parents_of, thing_of};
ghost use Rattle.stp_instance.specs.Bindings.{numbers_of};
ghost use Rattle.stp_instance.specs.Expanded.{objects_below};
ghost use Rattle.stp_instance.specs.Typing.{objects_in};

use bumpalo::Bump;
use bumpalo::collections::into_bump_slice;
use std::alloc::Global;
use std::marker::Model;
use stp_base::{Memory, ObjectId};
use stp_schema::{Declared, ObjectRow};

/// The objects of each type, those of the types below it counted. They are looked for when they are asked for first.
#[derive(Drop)]
pub struct Members<'a> {
    declared: &'a Declared<'a>,
    objects: &'a [ObjectRow<'a>],
    kept: Vec<Option<&'a [ObjectId]>>,
}

impl<'a> Model for Members<'a> {
    ghost use Rattle.std.specs.Prelude.{◌≡◌, ℕ, ◌<◌, ◌^◌, length, map, IfSome, None, slice_index_or};
    ghost use Rattle.stp_schema.specs.Rows.{parents_of, thing_of};
    ghost use Rattle.stp_instance.specs.Bindings.{numbers_of};
    ghost use Rattle.stp_instance.specs.Expanded.{objects_below};
    ghost use Rattle.stp_instance.specs.Typing.{Typing};

    ghost Value = { Typing };

    ghost view = { λ m. record { parents = parents_of m.declared.now.types.now; objects = map thing_of m.objects.now } };

    ghost invariant = { λ m. (length m.objects.now < 2 ^ 32) × ((kind : ℕ) → IfSome (slice_index_or m.kept.items kind None) (λ o. numbers_of o.now ≡ objects_below (parents_of m.declared.now.types.now) (map thing_of m.objects.now) kind)) };
}

/// The objects of a type, in order.
fn objects_of_type<'a>(
    arena: &'a Bump,
    declared: &Declared<'_>,
    objects: &[ObjectRow<'_>],
    kind: u32,
) -> Result<&'a [ObjectId], Memory>
    requires { length objects.now < 2 ^ 32 }
    ensures { IfOk result
        (λ r. numbers_of r.now ≡ objects_below (parents_of declared.now.types.now) (map thing_of objects.now) kind) }
{
    let mut found = Vec::new(arena);
    for (number, object) in objects.iter().enumerate() {
        if declared.is_below(object.kind, kind) {
            found.push(ObjectId(number as u32))?;
        }
    }
    Ok(into_bump_slice(found))
}

impl<'a> Members<'a> {
    /// The objects of each type, where nothing is looked for yet.
    pub fn new(
        alloc: Global,
        declared: &'a Declared<'a>,
        objects: &'a [ObjectRow<'a>],
    ) -> Result<Members<'a>, Memory>
        requires { length objects.now < 2 ^ 32 }
        ensures { IfOk result
            (λ r. r ≡ record { parents = parents_of declared.now.types.now; objects = map thing_of objects.now }) }
    {
        let kept = vec![in alloc; None; declared.types.len()]?;
        Ok(Members {
            declared,
            objects,
            kept,
        })
    }

    /// The objects of a type, in order. All objects are looked at where the type is asked for first, and not again.
    pub fn of(&mut self, arena: &'a Bump, kind: u32) -> Result<&'a [ObjectId], Memory>
        ensures objects { IfOk result (λ r. numbers_of r.now ≡ objects_in self.old kind) }
        ensures same { self.new ≡ self.old }
    {
        if let Some(Some(objects)) = self.kept.get(kind as usize) {
            return Ok(*objects);
        }
        let objects = objects_of_type(arena, self.declared, self.objects, kind)?;
        if let Some(place) = self.kept.get_mut(kind as usize) {
            *place = Some(objects);
        }
        Ok(objects)
    }
}
