//! The given values of functions.

ghost use Rattle.std.specs.Prelude.{◌≡◌, List as Sequence, map, option_map, IfOk};
ghost use Rattle.stp_frac.specs.Fractions.{value_of};
ghost use Rattle.stp_schema.specs.Views.{PlainGiven, given_of};
ghost use Rattle.stp_instance.specs.Bindings.{numbers_of};
ghost use Rattle.stp_instance.specs.Values.{given_in};
ghost use Rattle.stp_instance.specs.ValueTables.{IsTable};

use std::alloc::Global;
use std::marker::Model;
use stp_base::{List, Memory, ObjectId};
use stp_frac::Frac;
use stp_schema::Given;
use stp_tables::AtomTable;

/// The given values of functions, with a table for looking them up.
#[derive(Drop)]
pub struct Values<'a> {
    given: &'a [Given<'a>],
    places: AtomTable,
    amounts: List<Frac>,
}

impl<'a> Model for Values<'a> {
    ghost Value = { Sequence PlainGiven };

    ghost view = { λ v. map given_of v.given.now };

    ghost invariant = { λ v. IsTable (map given_of v.given.now) v.places (map value_of v.amounts) };
}

impl<'a> Values<'a> {
    /// The table of these values. Where a function has two at the same objects, the first counts.
    pub fn new(alloc: Global, given: &'a [Given<'a>]) -> Result<Values<'a>, Memory>
        ensures { IfOk result (λ r. r ≡ map given_of given.now) }
    {
        let mut places = AtomTable::new(alloc);
        let mut amounts = List::new(alloc);
        for one in given {
            if places.find(one.function, one.args).is_none() {
                places.number(one.function, one.args)?;
                amounts.push(one.value)?;
            }
        }
        Ok(Values {
            given,
            places,
            amounts,
        })
    }

    /// The value of a function at some objects, if it has one.
    pub fn find(&self, function: u32, args: &[ObjectId]) -> Option<Frac>
        ensures { option_map value_of result ≡ given_in self.now function (numbers_of args.now) }
    {
        let place = self.places.find(function, args)?;
        self.amounts.as_slice().get(place.0 as usize).copied()
    }
}
