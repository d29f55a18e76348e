//! Objects of which several may have one name. The first of them has it.

ghost use Rattle.std.specs.Prelude.{◌≡◌, map, IfOk, OnOk};
ghost use Rattle.stp_schema.specs.Rows.{thing_of, object_names_of};
ghost use Rattle.stp_domain.specs.Firsts.{with_first, firsts_in};
ghost use Rattle.stp_domain.specs.FirstViews.{firsts_of};

use bumpalo::Bump;
use std::alloc::Global;
use stp_base::{List, Memory};
use stp_schema::{ObjectRow, Objects};
use stp_tables::Names;

/// The objects whose names are new when they come, and the place of each among all objects.
#[derive(Drop)]
pub struct Firsts<'a> {
    pub objects: Objects<'a>,
    pub places: List<u32>,
}

/// Keeps the object at a place, unless there is one of its name.
fn add_first<'a>(
    names: &mut Names,
    rows: &mut List<ObjectRow<'a>>,
    places: &mut List<u32>,
    place: u32,
    object: &ObjectRow<'a>,
) -> Result<(), Memory>
    ensures firsts { OnOk result (firsts_of names.new rows.new places.new ≡ with_first (firsts_of names.old rows.old places.old) place (thing_of object.now)) }
    ensures named { OnOk result (names.old ≡ object_names_of rows.old → names.new ≡ object_names_of rows.new) }
{
    if names.add(object.name)? {
        rows.push(*object)?;
        places.push(place)?;
    }
    Ok(())
}

/// Of objects with equal names the first, at its place.
pub fn first_objects<'a>(
    alloc: Global,
    arena: &'a Bump,
    objects: &[ObjectRow<'a>],
) -> Result<Firsts<'a>, Memory>
    ensures things { IfOk result (λ r. map thing_of r.objects.rows.now ≡ (firsts_in (map thing_of objects.now)).things) }
    ensures places { IfOk result (λ r. r.places ≡ (firsts_in (map thing_of objects.now)).places) }
{
    let mut names = Names::new(alloc);
    let mut found = List::new(alloc);
    let mut places = List::new(alloc);
    let mut place = 0u32;
    for object in objects {
        add_first(&mut names, &mut found, &mut places, place, object)?;
        let Some(next) = place.checked_add(1) else {
            return Err(Memory);
        };
        place = next;
    }
    let rows = arena.try_alloc_slice_copy(found.as_slice())?;
    let objects = Objects { rows, names };
    Ok(Firsts { objects, places })
}
