//! Variables in scope.

ghost use Rattle.std.specs.Prelude.{◌≡◌, ◌≤◌, ◌-◌, ◌++◌, ◌∷◌, [], length, take, OnOk, OnErr};
ghost use Rattle.stp_condition.specs.Scope.{variable_in};

use std::alloc::Global;
use std::marker::Model;
use stp_base::Memory;
use stp_tables::Names;

/// How many variables can be in scope, so that each number is a `u32`.
const MOST_VARIABLES: usize = 4_000_000_000;

/// A variable: its name with the number of that word, its type, and the number of the variable that it hides.
#[derive(Clone, Copy)]
struct Variable<'a> {
    name: &'a [u8],
    word: u32,
    kind: u32,
    hidden: Option<u32>,
}

/// The variables in scope, the outermost first. An inner variable hides an outer one of the same name.
#[derive(Drop)]
pub struct Scope<'a> {
    variables: Vec<Variable<'a>>,
    /// Each name that a variable has or had.
    words: Names,
    /// For each word the number of the innermost variable of that name.
    latest: Vec<Option<u32>>,
}

impl<'a> Model for Scope<'a> {
    ghost use Rattle.std.specs.Prelude.{List};
    ghost use Rattle.stp_condition.specs.Scope.{Var};

    ghost Value = { List Var };

    ghost use Rattle.stp_condition.specs.Hiding.{scope_of, IsScope};

    ghost view = { λ s. scope_of s.variables.items };

    ghost invariant = { λ s. IsScope s.variables.items s.words s.latest.items };
}

impl<'a> Scope<'a> {
    /// No variables, which take no memory.
    pub fn new(alloc: Global) -> Scope<'a>
        ensures { result ≡ [] }
    {
        Scope {
            variables: Vec::new(alloc),
            words: Names::new(alloc),
            latest: Vec::new(alloc),
        }
    }

    /// How many variables there are.
    pub fn len(&self) -> u32
        ensures { result ≡ length self.now }
    {
        self.variables.len() as u32
    }

    /// The number and the type of the innermost variable of a name. The time does not grow with the scope.
    pub fn find(&self, name: &[u8]) -> Option<(u32, u32)>
        ensures { result ≡ variable_in name.now self.now }
    {
        let word = self.words.find(name)?;
        let number = (*self.latest.get(word as usize)?)?;
        let variable = self.variables.get(number as usize)?;
        Some((number, variable.kind))
    }

    /// Puts a variable innermost. Where there are 4,000,000,000 variables, there is no memory for one more.
    pub fn push(&mut self, name: &'a [u8], kind: u32) -> Result<(), Memory>
        ensures ok { OnOk result (self.new ≡ self.old ++ record { name = name.entry.now; kind = kind } ∷ []) }
        ensures err { OnErr result (self.new ≡ self.old) }
    {
        let number = self.variables.len();
        if number >= MOST_VARIABLES {
            return Err(Memory);
        }
        if self.latest.len() == self.words.len() as usize {
            self.latest.push(None)?;
        }
        let word = self.words.number(name)?;
        let hidden = self.latest[word as usize];
        self.variables.push(Variable {
            name,
            word,
            kind,
            hidden,
        })?;
        self.latest[word as usize] = Some(number as u32);
        Ok(())
    }

    /// Takes the innermost variable away, so that the one that it hid is seen again.
    fn pop(&mut self)
        ensures { self.new ≡ take (length self.old - 1) self.old }
    {
        if let Some(variable) = self.variables.pop() {
            self.latest[variable.word as usize] = variable.hidden;
        }
    }

    /// Takes the innermost variables away until so many are left.
    pub fn truncate(&mut self, len: u32)
        ensures { self.new ≡ take len self.old }
    {
        while self.len() > len {
            self.pop();
        }
    }
}
