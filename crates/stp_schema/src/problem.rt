//! Problems.

ghost use Rattle.std.specs.Prelude.{◌≡◌, ◌<◌, length, option_map, IfSome};
ghost use Rattle.stp_tables.specs.Names.{number_of};
ghost use Rattle.stp_schema.specs.Rows.{object_names_of};
ghost use Rattle.stp_schema.specs.Timed.{AreTimedFacts, timed_facts_of};

use crate::domain::Domain;
use crate::lifted::Lifted;
use crate::rows::ObjectRow;
use crate::timed::TimedFact;
use stp_base::ObjectId;
use stp_frac::Frac;
use stp_tables::Names;

/// An atom that is true at first.
#[derive(Clone, Copy)]
pub struct Fact<'a> {
    pub predicate: u32,
    pub args: &'a [ObjectId],
}

/// A function's value at some objects.
#[derive(Clone, Copy)]
pub struct Given<'a> {
    pub function: u32,
    pub args: &'a [ObjectId],
    pub value: Frac,
}

/// A problem. Its objects begin with the constants of its domain. Of the events of the environment those at fixed times
/// come first, by time; the others stand in the order of the text.
#[derive(Drop)]
pub struct Problem<'a> {
    pub domain: Domain<'a>,
    pub objects: &'a [ObjectRow<'a>],
    pub initial: &'a [Fact<'a>],
    pub values: &'a [Given<'a>],
    pub timed: &'a [TimedFact<'a>],
    pub goal: &'a Lifted<'a>,
    pub object_names: Names,
    pub ghost same_objects: { object_names ≡ object_names_of objects.now },
    pub ghost few_timed: { AreTimedFacts (timed_facts_of timed.now) },
}

impl<'a> Problem<'a> {
    /// The object of a name.
    pub fn find_object(&self, name: &[u8]) -> Option<ObjectId>
        ensures number { option_map (λ o. o.0) result ≡ number_of (object_names_of self.now.objects.now) name.now }
        ensures within { IfSome result (λ o. o.0 < length self.now.objects.now) }
    {
        let _ = &self.objects;
        let number = self.object_names.find(name)?;
        Some(ObjectId(number))
    }
}
