//! What a network keeps of each point.

ghost use Rattle.std.specs.Prelude.{◌≡◌, ◌+◌, ◌-◌, ◌≤◌, ◌<◌, ◌^◌, ◌++◌, ◌∷◌, [], ℕ, true, false, is_ok, length, slice_index, slice_set, take, max, All, OnOk, IsTrue, ◌↔◌, vec_capacity, if◌then◌else◌};
ghost use Rattle.stp_network.specs.Edges.{IsMetBy, IsSmall};
ghost use Rattle.stp_network.specs.Lowest.{IsBelowAll, SolvesEdges};
ghost use Rattle.stp_network.specs.Raising.{HasNoPotential, IsPotential};
ghost use Rattle.stp_network.specs.Rows.{AreEven, HasRoom, AreKept, rooted};

use crate::edge::Edge;
use crate::limits::{KEPT_GRID, LATEST_KEPT};
use crate::lowest::raise_to_lowest;
use crate::propagation::Propagation;
use std::alloc::Global;
use stp_base::Memory;
use stp_base::limits::MAX_CONSTRAINTS;

/// Rows with an entry for each point.
#[derive(Drop)]
pub(crate) struct Rows {
    /// Times that meet all edges, the origin's among them.
    pub(crate) times: Vec<u128>,
    /// The number of the last edge to the point, counted from 1, or 0.
    pub(crate) heads: Vec<u32>,
    /// Room for times on their way.
    pub(crate) work: Vec<u128>,
    /// Room for marks.
    pub(crate) marks: Vec<bool>,
}

/// Whether no time is later than those that are kept.
fn are_low(times: &[u128]) -> bool
    ensures { IsTrue result ↔ All (λ t. t ≤ LATEST_KEPT) times.now }
{
    times.iter().all(|time| *time <= LATEST_KEPT)
}

impl Rows {
    /// Rows without points, which take no memory.
    pub(crate) fn new(alloc: Global) -> Rows
        ensures times { result.times.items ≡ [] }
        ensures heads { result.heads.items ≡ [] }
        ensures even { AreEven result }
    {
        Rows {
            times: Vec::new(alloc),
            heads: Vec::new(alloc),
            work: Vec::new(alloc),
            marks: Vec::new(alloc),
        }
    }

    /// How many points there are, the origin always counted.
    pub(crate) fn points(&self) -> usize
        ensures { result ≡ max 1 (length self.now.times.items) }
    {
        self.times.len().max(1)
    }

    /// Takes memory for so many points.
    fn take_room(&mut self, points: usize) -> Result<(), Memory>
        requires even { AreEven self.old }
        requires points { length self.old.times.items ≤ points }
        ensures room { OnOk result (HasRoom points self.new) }
        ensures kept { (n : ℕ) → HasRoom n self.old → HasRoom n self.new }
        ensures times { self.new.times.items ≡ self.old.times.items }
        ensures heads { self.new.heads.items ≡ self.old.heads.items }
        ensures even { AreEven self.new }
    {
        let more = points - self.times.len();
        self.times.reserve(more)?;
        self.heads.reserve(more)?;
        self.work.reserve(more)?;
        self.marks.reserve(more)?;
        Ok(())
    }

    /// Puts a point at the end, at a time.
    pub(crate) fn put_point(&mut self, time: u128)
        requires even { AreEven self.old }
        requires room { HasRoom (length self.old.times.items + 1) self.old }
        ensures times { self.new.times.items ≡ self.old.times.items ++ time ∷ [] }
        ensures heads { self.new.heads.items ≡ self.old.heads.items ++ 0 ∷ [] }
        ensures even { AreEven self.new }
        ensures room { (n : ℕ) → HasRoom n self.old → HasRoom n self.new }
    {
        self.times.push_reserved(time);
        self.heads.push_reserved(0);
        self.work.push_reserved(0);
        self.marks.push_reserved(false);
    }

    /// Takes memory for so many points, and puts the origin there where no point is.
    pub(crate) fn prepare(&mut self, points: usize) -> Result<(), Memory>
        requires even { AreEven self.old }
        requires points { length self.old.times.items ≤ points }
        requires some { 0 < points }
        ensures room { OnOk result (HasRoom points self.new) }
        ensures kept { (n : ℕ) → HasRoom n self.old → HasRoom n self.new }
        ensures times { self.new.times.items ≡ (if is_ok result then rooted self.old.times.items else self.old.times.items) }
        ensures heads { self.new.heads.items ≡ (if is_ok result then rooted self.old.heads.items else self.old.heads.items) }
        ensures even { AreEven self.new }
    {
        self.take_room(points)?;
        if self.times.is_empty() {
            self.put_point(0);
            return Ok(());
        }
        Ok(())
    }

    /// Moves the kept times so far that they meet a new edge too, or finds that none do.
    fn judge(&mut self, edges: &[Edge], fresh: &Edge) -> bool
        requires even { AreEven self.old }
        requires kept { AreKept LATEST_KEPT self.old edges.now }
        requires from { fresh.now.from < length self.old.times.items }
        requires to { fresh.now.to < length self.old.times.items }
        requires small { IsSmall fresh.now }
        requires unmet { ¬ IsMetBy (slice_index self.old.times.items) fresh.now }
        ensures none { result ≡ false → HasNoPotential (length self.old.times.items) edges.now fresh.now }
        ensures same { result ≡ false → self.new.times.items ≡ self.old.times.items }
        ensures potential { result ≡ true → IsPotential (length self.old.times.items) edges.now (slice_index self.new.times.items) }
        ensures met { result ≡ true → IsMetBy (slice_index self.new.times.items) fresh.now }
        ensures low { result ≡ true → (p : ℕ) → slice_index self.new.times.items p ≤ 2 ^ 126 }
        ensures count { length self.new.times.items ≡ length self.old.times.items }
        ensures heads { self.new.heads.items ≡ self.old.heads.items }
        ensures even { AreEven self.new }
        ensures room { (n : ℕ) → HasRoom n self.old → HasRoom n self.new }
    {
        self.work.copy_from_slice(&self.times);
        self.marks.fill(false);
        let propagation = Propagation {
            edges,
            heads: &self.heads,
            times: &self.times,
            fresh,
        };
        if !propagation.run(&mut self.work, &mut self.marks) {
            return false;
        }
        std::mem::swap(&mut self.times, &mut self.work);
        true
    }

    /// Puts an edge at the end, where it is the last to its second point.
    fn put(&mut self, edges: &mut Vec<Edge>, edge: Edge)
        requires to { edge.to < length self.old.heads.items }
        requires room { length edges.old.items < vec_capacity edges.old }
        requires count { length edges.old.items < MAX_CONSTRAINTS }
        ensures edges { edges.new.items ≡ edges.old.items ++ edge ∷ [] }
        ensures capacity { vec_capacity edges.new ≡ vec_capacity edges.old }
        ensures heads { self.new.heads.items ≡ slice_set self.old.heads.items edge.to (length edges.old.items + 1) }
        ensures times { self.new.times.items ≡ self.old.times.items }
        ensures even { AreEven self.old → AreEven self.new }
        ensures room { (n : ℕ) → HasRoom n self.old → HasRoom n self.new }
    {
        edges.push_reserved(edge);
        self.heads[edge.to as usize] = edges.len() as u32;
    }

    /// Takes the least times.
    fn take_lowest(&mut self, edges: &[Edge])
        requires even { AreEven self.old }
        requires kept { AreKept (2 ^ 126) self.old edges.now }
        ensures solves { SolvesEdges KEPT_GRID edges.now (slice_index self.new.times.items) }
        ensures below { IsBelowAll KEPT_GRID edges.now self.new.times.items }
        ensures count { length self.new.times.items ≡ length self.old.times.items }
        ensures heads { self.new.heads.items ≡ self.old.heads.items }
        ensures even { AreEven self.new }
        ensures room { (n : ℕ) → HasRoom n self.old → HasRoom n self.new }
    {
        self.work.fill(0);
        raise_to_lowest(edges, KEPT_GRID, &mut self.work);
        std::mem::swap(&mut self.times, &mut self.work);
    }

    /// Takes the least times where one is too late to be kept.
    fn lower(&mut self, edges: &[Edge])
        requires even { AreEven self.old }
        requires kept { AreKept (2 ^ 126) self.old edges.now }
        requires some { 0 < length self.old.times.items }
        ensures kept { AreKept LATEST_KEPT self.new edges.now }
        ensures count { length self.new.times.items ≡ length self.old.times.items }
        ensures even { AreEven self.new }
        ensures room { (n : ℕ) → HasRoom n self.old → HasRoom n self.new }
    {
        if are_low(&self.times) {
            return;
        }
        self.take_lowest(edges);
    }

    /// Puts an edge at the end if there are times that meet it beside all others.
    pub(crate) fn admit(&mut self, edges: &mut Vec<Edge>, edge: Edge) -> bool
        requires even { AreEven self.old }
        requires kept { AreKept LATEST_KEPT self.old edges.old.items }
        requires from { edge.from < length self.old.times.items }
        requires to { edge.to < length self.old.times.items }
        requires small { IsSmall edge }
        requires next { edge.next ≡ slice_index self.old.heads.items edge.to }
        requires room { length edges.old.items < vec_capacity edges.old }
        requires count { length edges.old.items < MAX_CONSTRAINTS }
        ensures none { result ≡ false → HasNoPotential (length self.old.times.items) edges.old.items edge }
        ensures edges { edges.new.items ≡ (if result then edges.old.items ++ edge ∷ [] else edges.old.items) }
        ensures capacity { vec_capacity edges.new ≡ vec_capacity edges.old }
        ensures kept { AreKept LATEST_KEPT self.new edges.new.items }
        ensures points { length self.new.times.items ≡ length self.old.times.items }
        ensures even { AreEven self.new }
        ensures room { (n : ℕ) → HasRoom n self.old → HasRoom n self.new }
    {
        if edge.is_met(&self.times) {
            self.put(edges, edge);
            return true;
        }
        if !self.judge(edges, &edge) {
            return false;
        }
        self.put(edges, edge);
        self.lower(edges);
        true
    }

    /// Takes the last edge back.
    fn take_back(&mut self, edges: &mut Vec<Edge>)
        requires even { AreEven self.old }
        requires kept { AreKept LATEST_KEPT self.old edges.old.items }
        requires some { 0 < length edges.old.items }
        ensures edges { edges.new.items ≡ take (length edges.old.items - 1) edges.old.items }
        ensures capacity { vec_capacity edges.new ≡ vec_capacity edges.old }
        ensures kept { AreKept LATEST_KEPT self.new edges.new.items }
        ensures times { self.new.times.items ≡ self.old.times.items }
        ensures even { AreEven self.new }
        ensures room { (n : ℕ) → HasRoom n self.old → HasRoom n self.new }
    {
        if let Some(edge) = edges.pop() {
            self.heads[edge.to as usize] = edge.next;
        }
    }

    /// Takes the edges after the first so many back.
    pub(crate) fn withdraw(&mut self, edges: &mut Vec<Edge>, count: usize)
        requires even { AreEven self.old }
        requires kept { AreKept LATEST_KEPT self.old edges.old.items }
        requires count { count ≤ length edges.old.items }
        ensures edges { edges.new.items ≡ take count edges.old.items }
        ensures capacity { vec_capacity edges.new ≡ vec_capacity edges.old }
        ensures kept { AreKept LATEST_KEPT self.new edges.new.items }
        ensures times { self.new.times.items ≡ self.old.times.items }
        ensures even { AreEven self.new }
        ensures room { (n : ℕ) → HasRoom n self.old → HasRoom n self.new }
    {
        while edges.len() > count {
            self.take_back(edges);
        }
    }

    /// Keeps the first so many points.
    pub(crate) fn cut(&mut self, points: usize)
        requires even { AreEven self.old }
        ensures times { self.new.times.items ≡ take points self.old.times.items }
        ensures heads { self.new.heads.items ≡ take points self.old.heads.items }
        ensures even { AreEven self.new }
        ensures room { (n : ℕ) → HasRoom n self.old → HasRoom n self.new }
    {
        self.times.truncate(points);
        self.heads.truncate(points);
        self.work.truncate(points);
        self.marks.truncate(points);
    }
}
