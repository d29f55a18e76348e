//! Rows of truth values, one for each atom.

ghost use Rattle.std.specs.Prelude.{◌≡◌, ◌<◌, ◌^◌, Bool, false, List, length, replicate, slice_index_or, slice_set, IfOk};

use crate::ids::AtomId;
use crate::memory::Memory;
use std::alloc::Global;
use std::marker::Model;

/// A truth value for each atom, by its number.
#[derive(Drop)]
pub struct StateRow {
    bits: Vec<bool>,
}

impl Model for StateRow {
    ghost Value = { List Bool };

    ghost view = { λ r. r.bits.items };

    ghost invariant = { λ r. length r.bits.items < 2 ^ 32 };
}

impl StateRow {
    /// A row of that many false atoms.
    pub fn new(alloc: Global, atoms: u32) -> Result<StateRow, Memory>
        ensures { IfOk result (λ r. r ≡ replicate atoms false) }
    {
        let bits = vec![in alloc; false; atoms as usize]?;
        Ok(StateRow { bits })
    }

    /// The same row once more.
    pub fn copy(&self, alloc: Global) -> Result<StateRow, Memory>
        ensures { IfOk result (λ r. r ≡ self.now) }
    {
        let mut copy = StateRow::new(alloc, self.len())?;
        copy.copy_from(self);
        Ok(copy)
    }

    /// How many atoms the row has.
    pub fn len(&self) -> u32
        ensures { result ≡ length self.now }
    {
        self.bits.len() as u32
    }

    /// Whether an atom is true.
    pub fn get(&self, atom: AtomId) -> bool
        requires { atom.0 < length self.now }
        ensures { result ≡ slice_index_or self.now atom.0 false }
    {
        self.bits[atom.0 as usize]
    }

    /// Makes an atom true or false.
    pub fn set(&mut self, atom: AtomId, value: bool)
        requires { atom.0 < length self.old }
        ensures { self.new ≡ slice_set self.old atom.0 value }
    {
        self.bits[atom.0 as usize] = value;
    }

    /// Takes over the values of another row.
    pub fn copy_from(&mut self, other: &StateRow)
        requires { length self.old ≡ length other.now }
        ensures { self.new ≡ other.now }
    {
        self.bits
            .as_mut_slice()
            .copy_from_slice(other.bits.as_slice());
    }
}
