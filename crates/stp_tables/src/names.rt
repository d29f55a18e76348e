//! Names with their numbers.

ghost use Rattle.std.specs.Prelude.{◌≡◌, ◌<◌, ◌≤◌, [], List, ℕ, length, slice_get, IfOk, IfSome, OnOk, OnErr, Some};
ghost use Rattle.stp_tables.specs.Names.{lists_of, number_of, is_new_in, with_name, AreNamedOnce};
ghost use Rattle.stp_tables.specs.declared.names.TheConstants.{MOST_NAMES};

use indexmap::IndexSet;
use std::alloc::Global;
use std::marker::Model;
use stp_base::Memory;

/// How many names a table can have, so that each number is a `u32`.
pub const MOST_NAMES: usize = 4_000_000_000;

/// Names in the order in which they came, each once. The number of a name is its place, from 0.
#[derive(Drop)]
pub struct Names {
    set: IndexSet<Vec<u8>>,
}

impl Model for Names {
    ghost Value = { List (List ℕ) };

    ghost view = { λ n. lists_of n.set.keys };

    ghost invariant = { λ n. (length n.set.keys ≤ MOST_NAMES) × AreNamedOnce (lists_of n.set.keys) };
}

impl Names {
    /// No names, which take no memory.
    pub fn new(alloc: Global) -> Names
        ensures { result ≡ [] }
    {
        Names {
            set: IndexSet::new(alloc),
        }
    }

    /// How many names there are.
    pub fn len(&self) -> u32
        ensures count { result ≡ length self.now }
        ensures few { length self.now ≤ MOST_NAMES }
        ensures once { AreNamedOnce self.now }
    {
        self.set.len() as u32
    }

    /// The place of a name, if it has one.
    fn place(&self, name: &[u8]) -> Option<usize>
        ensures number { result ≡ number_of self.now name.now }
        ensures within { IfSome result (λ number. (number < length self.now) × (length self.now ≤ MOST_NAMES)) }
    {
        self.set.get_index_of(name)
    }

    /// The number of a name, if it has one.
    pub fn find(&self, name: &[u8]) -> Option<u32>
        ensures number { result ≡ number_of self.now name.now }
        ensures within { IfSome result (λ number. number < length self.now) }
        ensures name { IfSome result (λ number. slice_get self.now number ≡ Some name.now) }
    {
        let number = self.place(name)?;
        Some(number as u32)
    }

    /// Puts a name at the end, or leaves the names as they are where it is among them. Tells whether it is new.
    /// Where there are 4,000,000,000 names, there is no memory for one more.
    pub fn add(&mut self, name: &[u8]) -> Result<bool, Memory>
        ensures names { OnOk result (self.new ≡ with_name self.old name.now) }
        ensures added { IfOk result (λ is_new. is_new ≡ is_new_in self.old name.now) }
        ensures err { OnErr result (self.new ≡ self.old) }
    {
        if self.set.len() >= MOST_NAMES {
            return Err(Memory);
        }
        let key = Vec::from_slice(*self.set.allocator(), name)?;
        let is_new = self.set.insert(key)?;
        Ok(is_new)
    }

    /// The number of a name, which is put at the end where it has none. Where there are 4,000,000,000 names,
    /// there is no memory for one more.
    pub fn number(&mut self, name: &[u8]) -> Result<u32, Memory>
        ensures names { OnOk result (self.new ≡ with_name self.old name.now) }
        ensures number { IfOk result (λ number. number_of self.new name.now ≡ Some number) }
        ensures name { IfOk result (λ number. slice_get self.new number ≡ Some name.now) }
        ensures within { IfOk result (λ number. number < length self.new) }
        ensures err { OnErr result (self.new ≡ self.old) }
    {
        if self.set.len() >= MOST_NAMES {
            return Err(Memory);
        }
        let key = Vec::from_slice(*self.set.allocator(), name)?;
        let (number, _) = self.set.insert_full(key)?;
        Ok(number as u32)
    }
}
