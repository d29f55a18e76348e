//! Tables as trees to be searched.

ghost use Rattle.std.proofs.Common.{rules};
ghost use Rattle.std.specs.Prelude.{◌≡◌, ◌≤◌, ℕ, Bool, true, false, List, [], ◌∷◌, ◌++◌, length, map, replicate, Option, Some, IfOk};
ghost use Rattle.stp_tests_tree.specs.Tables.{walk, IsNode, IsValid, state_of};
ghost use Rattle.stp_tests_tree.specs.Laws.{table_tree, table_rests};

use crate::table::{Row, is_seen, longer, row_at, walk_on};
use std::alloc::Global;
use stp_base::Memory;
use stp_tree::{Child, Space};

/// A table, whether equal rows are met once, and how many moves are kept.
#[derive(Clone, Copy)]
pub struct Table<'a> {
    pub alloc: Global,
    pub rows: &'a [Row],
    pub merges: bool,
    pub limit: usize,
}

/// A node: the moves that lead to it.
#[derive(Drop)]
pub struct Path {
    pub moves: Vec<bool>,
}

/// The numbers of the rows that were met.
#[derive(Drop)]
pub struct Seen {
    pub numbers: Vec<u32>,
}

/// Where the latest node is.
#[derive(Drop)]
pub struct Place {
    pub at: Option<u32>,
}

impl Space for Table<'_> {
    type Move = bool;

    type Node = Path;

    type Rests = Seen;

    type Work = Place;

    ghost nodes = { λ t s. IsNode t.rows.now s };

    ghost valid = { λ t s. IsValid t.rows.now s };

    ghost skips = { λ t s. ⊥ };

    ghost within = { λ t s. length s ≤ t.limit };

    ghost limit = { λ t. t.limit };

    ghost moves = { λ t. false ∷ true ∷ [] };

    ghost path = { λ n. n.moves.items };

    ghost state = { λ t s. state_of t.merges (walk t.rows.now (Some 0) s) };

    ghost met = { λ r. map (λ number. replicate number true) r.numbers.items };

    ghost fits = { λ t w. Unit {0} };

    ghost tells = { λ t w s. w.at ≡ walk t.rows.now (Some 0) s };

    fn work(&self) -> Result<Place, Memory> {
        Ok(Place { at: Some(0) })
    }

    fn no_rests(&self) -> Seen {
        Seen {
            numbers: Vec::new(self.alloc),
        }
    }

    fn all_moves(&self) -> &[bool] {
        &[false, true]
    }

    fn root(&self, work: &mut Place) -> Result<Path, Memory> {
        work.at = Some(0);
        Ok(Path {
            moves: Vec::new(self.alloc),
        })
    }

    fn child(&self, work: &mut Place, node: &Path, next: bool) -> Result<Child<Path>, Memory> {
        let Some(number) = walk_on(self.rows, &node.moves, next) else {
            return Ok(Child::No);
        };
        if node.moves.len() >= self.limit {
            return Ok(Child::Past);
        }
        let moves = longer(self.alloc, &node.moves, next)?;
        work.at = Some(number);
        Ok(Child::Node(Path { moves }))
    }

    fn is_valid(&self, work: &Place, _node: &Path) -> bool {
        match work.at {
            None => false,
            Some(number) => row_at(self.rows, number).valid,
        }
    }

    fn is_new(&self, work: &Place, rests: &mut Seen, _node: &Path) -> Result<bool, Memory> {
        let Some(number) = work.at else {
            return Ok(true);
        };
        if !self.merges {
            return Ok(true);
        }
        if is_seen(&rests.numbers, number) {
            return Ok(false);
        }
        rests.numbers.push(number)?;
        Ok(true)
    }

    fn estimate(&self, work: &Place, _node: &Path) -> Result<u32, Memory> {
        match work.at {
            None => Ok(0),
            Some(number) => Ok(row_at(self.rows, number).estimate),
        }
    }

    ghost tree = { λ t. table_tree t.rows.now };

    ghost rests = { λ t. table_rests t.rows.now t.merges };

    ghost root_within = { λ t. Prim.search rules };

    ghost short_within = { λ t s short. short };
}
