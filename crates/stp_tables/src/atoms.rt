//! Tables of ground atoms.

ghost use Rattle.std.specs.Prelude.{◌≡◌, ◌<◌, ◌≤◌, [], List, length, map, slice_get, option_map, IfOk, IfSome, OnOk, OnErr, Some};
ghost use Rattle.stp_tables.specs.Atoms.{Atom, atom_of, atom_with, number_of, with_atom, AreNumberedOnce};
ghost use Rattle.stp_tables.specs.declared.atoms.TheConstants.{MOST_ATOMS};

use indexmap::IndexSet;
use smallvec::SmallVec;
use std::alloc::Global;
use std::marker::Model;
use stp_base::limits::MAX_PARAMETERS;
use stp_base::{AtomId, Memory, ObjectId};

/// How many atoms a table can have, so that each number is a `u32`.
pub const MOST_ATOMS: usize = 4_000_000_000;

/// A ground atom of a table. Its arguments stand in it, as far as a predicate can have parameters.
#[derive(PartialEq, Eq, Hash, Drop)]
pub(crate) struct GroundAtom {
    predicate: u32,
    args: SmallVec<ObjectId, { MAX_PARAMETERS }>,
}

/// The first place of an atom among these.
fn place_among(keys: &[GroundAtom], predicate: u32, args: &[ObjectId]) -> Option<usize>
    ensures { result ≡ number_of (map atom_of keys.now) (atom_with predicate args.now) }
{
    keys.iter().position(|key| predicate == key.predicate && args == key.args.as_slice())
}

/// Ground atoms in the order in which they came, each once. The number of an atom is its place, from 0.
#[derive(Drop)]
pub struct AtomTable {
    set: IndexSet<GroundAtom>,
}

impl Model for AtomTable {
    ghost Value = { List Atom };

    ghost view = { λ t. map atom_of t.set.keys };

    ghost invariant = { λ t. (length t.set.keys ≤ MOST_ATOMS) × AreNumberedOnce (map atom_of t.set.keys) };
}

impl AtomTable {
    /// No atoms, which take no memory.
    pub fn new(alloc: Global) -> AtomTable
        ensures { result ≡ [] }
    {
        AtomTable {
            set: IndexSet::new(alloc),
        }
    }

    /// How many atoms there are.
    pub fn len(&self) -> u32
        ensures count { result ≡ length self.now }
        ensures few { length self.now ≤ MOST_ATOMS }
        ensures once { AreNumberedOnce self.now }
    {
        self.set.len() as u32
    }

    /// The place of an atom, if it has one. One with more arguments than a predicate can have parameters is looked for
    /// among all atoms, so that no look-up takes memory.
    fn place(&self, predicate: u32, args: &[ObjectId]) -> Option<usize>
        ensures number { result ≡ number_of self.now (atom_with predicate args.now) }
        ensures within { IfSome result (λ n. (n < length self.now) × (length self.now ≤ MOST_ATOMS)) }
    {
        if args.len() > MAX_PARAMETERS {
            return place_among(self.set.as_slice(), predicate, args);
        }
        let Ok(args) = SmallVec::from_slice(*self.set.allocator(), args) else {
            unreachable!()
        };
        self.set.get_index_of(&GroundAtom { predicate, args })
    }

    /// The number of an atom, if it has one.
    pub fn find(&self, predicate: u32, args: &[ObjectId]) -> Option<AtomId>
        ensures number { option_map (λ n. n.0) result ≡ number_of self.now (atom_with predicate args.now) }
        ensures within { IfSome result (λ n. n.0 < length self.now) }
        ensures atom { IfSome result (λ n. slice_get self.now n.0 ≡ Some (atom_with predicate args.now)) }
    {
        let number = self.place(predicate, args)?;
        Some(AtomId(number as u32))
    }

    /// The number of an atom, which is put at the end where it has none. Where there are 4,000,000,000 atoms,
    /// there is no memory for one more.
    pub fn number(&mut self, predicate: u32, args: &[ObjectId]) -> Result<AtomId, Memory>
        ensures atoms { OnOk result (self.new ≡ with_atom self.old (atom_with predicate args.now)) }
        ensures number { IfOk result (λ n. number_of self.new (atom_with predicate args.now) ≡ Some n.0) }
        ensures atom { IfOk result (λ n. slice_get self.new n.0 ≡ Some (atom_with predicate args.now)) }
        ensures within { IfOk result (λ n. n.0 < length self.new) }
        ensures err { OnErr result (self.new ≡ self.old) }
    {
        if self.set.len() >= MOST_ATOMS {
            return Err(Memory);
        }
        let args = SmallVec::from_slice(*self.set.allocator(), args)?;
        let (number, _) = self.set.insert_full(GroundAtom { predicate, args })?;
        Ok(AtomId(number as u32))
    }

    /// The predicate and the arguments of a numbered atom.
    pub fn get(&self, atom: AtomId) -> (u32, &[ObjectId])
        requires { atom.0 < length self.now }
        ensures atom { slice_get self.now atom.0 ≡ Some (atom_with result.0 result.1.now) }
        ensures number { number_of self.now (atom_with result.0 result.1.now) ≡ Some atom.0 }
    {
        let Some(key) = self.set.get_index(atom.0 as usize) else {
            unreachable!()
        };
        (key.predicate, key.args.as_slice())
    }
}
