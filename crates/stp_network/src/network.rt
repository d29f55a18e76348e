//! Temporal networks.

ghost use Rattle.std.specs.Prelude.{◌≡◌, ℕ, ◌+◌, ◌-◌, ◌<◌, ◌≤◌, ◌++◌, ◌∷◌, [], pos, ◌-ℤ◌, ◌≤ℤ◌, length, take, true, false, All, IsTrue, ◌↔◌, IfOk, OnOk, OnErr, if◌then◌else◌};
ghost use Rattle.stp_network.specs.Network.{IsSatisfiable, IsOverPoints, IsEarliest};

use crate::edge::Edge;
use crate::lowest::lowest_row;
use crate::rows::Rows;
use std::alloc::Global;
use std::marker::Model;
use stp_base::limits::{MAX_BOUND, MAX_CONSTRAINTS, MAX_POINTS};
use stp_base::{List, Memory, PointId};

/// How many points and constraints a network has, to come back to.
#[derive(Clone, Copy, Debug, PartialEq, Eq)]
pub struct Mark {
    pub points: u32,
    pub edges: u32,
}

/// Points in time, the first of them the origin, and bounds on their distances.
///
/// It keeps times that meet all its constraints. A new constraint that they meet is taken at once;
/// otherwise times are moved forward from it until they do, or until they would have to move the
/// constraint's own second point, which shows that none do.
#[derive(Drop)]
pub struct Network {
    rows: Rows,
    edges: Vec<Edge>,
    most_points: usize,
    most_edges: usize,
}

impl Model for Network {
    ghost use Rattle.std.specs.Prelude.{vec_capacity};
    ghost use Rattle.stp_network.specs.Held.{plain_network, IsHeld};
    ghost use Rattle.stp_network.specs.Network.{PlainNetwork};

    ghost Value = { PlainNetwork };

    ghost view = { λ n. plain_network n.rows n.edges.items n.most_points n.most_edges };

    ghost invariant = { λ n. IsHeld n.rows n.edges.items n.most_points n.most_edges (vec_capacity n.edges) };
}

impl Network {
    /// The network of the origin alone, which takes no memory.
    pub fn new(alloc: Global) -> Network
        ensures { result ≡ record { points = 1; constraints = []; spare_points = 0; spare_edges = 0 } }
    {
        Network {
            rows: Rows::new(alloc),
            edges: Vec::new(alloc),
            most_points: 0,
            most_edges: 0,
        }
    }

    /// Takes memory for so many more points and constraints.
    pub fn reserve(&mut self, points: u32, edges: u32) -> Result<(), Memory>
        ensures points { self.new.points ≡ self.old.points }
        ensures constraints { self.new.constraints ≡ self.old.constraints }
        ensures spare_points { OnOk result (points ≤ self.new.spare_points) }
        ensures spare_edges { OnOk result (edges ≤ self.new.spare_edges) }
        ensures err { OnErr result (self.new ≡ self.old) }
    {
        let most_edges = self.most_edges.max(self.edges.len() + edges as usize);
        let most_points = self.most_points.max(self.rows.points() + points as usize);
        self.edges.reserve(most_edges - self.edges.len())?;
        self.rows.prepare(most_points)?;
        self.most_points = most_points;
        self.most_edges = most_edges;
        Ok(())
    }

    /// Puts a point behind all others, with no constraint. It takes no memory.
    pub fn add_point(&mut self) -> PointId
        requires spare { 0 < self.old.spare_points }
        requires few { self.old.points < MAX_POINTS }
        ensures number { result.0 ≡ self.old.points }
        ensures after { self.new ≡ record self.old { points = self.old.points + 1; spare_points = self.old.spare_points - 1 } }
    {
        let number = self.rows.times.len() as u32;
        let origin = self.rows.times[0];
        self.rows.put_point(origin);
        PointId(number)
    }

    /// Adds the constraint that one point is at most a bound after another, or less than that where
    /// it is strict, if some fractional times meet it beside all constraints before; otherwise all
    /// stays. It takes no memory.
    pub fn add(&mut self, from: PointId, to: PointId, bound: i128, strict: bool) -> bool
        requires spare { 0 < self.old.spare_edges }
        requires from { from.0 < self.old.points }
        requires to { to.0 < self.old.points }
        requires low { (pos 0 -ℤ MAX_BOUND) ≤ℤ bound }
        requires high { bound ≤ℤ MAX_BOUND }
        requires few { length self.old.constraints < MAX_CONSTRAINTS }
        ensures exact { IsTrue result ↔ IsSatisfiable (self.old.constraints ++ record { from = from.0; to = to.0; bound = bound; strict = strict } ∷ []) }
        ensures added { result ≡ true → self.new ≡ record self.old { constraints = self.old.constraints ++ record { from = from.0; to = to.0; bound = bound; strict = strict } ∷ []; spare_edges = self.old.spare_edges - 1 } }
        ensures kept { result ≡ false → self.new ≡ self.old }
    {
        let edge = Edge {
            from: from.0,
            to: to.0,
            bound: bound as i64,
            strict,
            next: self.rows.heads[to.0 as usize],
        };
        self.rows.admit(&mut self.edges, edge)
    }

    /// Where the network is now. It takes no memory.
    pub fn mark(&self) -> Mark
        ensures points { result.points ≡ self.now.points }
        ensures edges { result.edges ≡ length self.now.constraints }
        ensures some { 0 < result.points }
        ensures within { All (IsOverPoints result.points) self.now.constraints }
    {
        Mark {
            points: self.rows.points() as u32,
            edges: self.edges.len() as u32,
        }
    }

    /// Goes back to the first so many points and constraints. It takes no memory.
    pub fn back_to(&mut self, mark: Mark)
        requires some { 0 < mark.points }
        requires points { mark.points ≤ self.old.points }
        requires edges { mark.edges ≤ length self.old.constraints }
        requires within { All (IsOverPoints mark.points) (take mark.edges self.old.constraints) }
        ensures points { self.new.points ≡ mark.points }
        ensures constraints { self.new.constraints ≡ take mark.edges self.old.constraints }
        ensures spare_points { self.new.spare_points ≡ self.old.spare_points + (self.old.points - mark.points) }
        ensures spare_edges { self.new.spare_edges ≡ self.old.spare_edges + (length self.old.constraints - mark.edges) }
    {
        self.rows.withdraw(&mut self.edges, mark.edges as usize);
        self.rows.cut(mark.points as usize);
    }

    /// The least times that meet all constraints, on the grid that has one moment in a unit more
    /// than there are points.
    pub fn earliest(&self, alloc: Global) -> Result<List<u128>, Memory>
        ensures { IfOk result (IsEarliest (self.now.points + 1) self.now.points self.now.constraints) }
    {
        let points = self.rows.points();
        let row = lowest_row(alloc, &self.edges, points, points as u128 + 1)?;
        Ok(List::from_vec(row))
    }
}
