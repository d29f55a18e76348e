//! Moving times forward from a new constraint that the kept times do not meet.

ghost use Rattle.std.specs.Prelude.{◌≡◌, ◌≢◌, ◌+◌, ◌≤◌, ◌<◌, ◌^◌, ℕ, true, false, length, slice_index, slice_index_or, slice_set, sum};
ghost use Rattle.stp_network.specs.Edges.{IsMetBy, lag_of, lead_of};
ghost use Rattle.stp_network.specs.Propagation.{IsSet, IsUnderway, IsHopeless, rise_of};
ghost use Rattle.stp_network.specs.Raising.{IsForced, IsPotential, IsPrecedence, NoneFalls, StayMarked, AreMetAt, IsFirst};

use crate::edge::Edge;
use crate::limits::KEPT_GRID;

/// What came of looking at one point or at several.
#[derive(Clone, Copy)]
pub(crate) enum Step {
    /// The new constraint's second point would have to move: no times meet all constraints.
    Cycle,
    /// All was met already.
    Met,
    /// Some point was moved.
    Raised,
}

/// The kept times, the constraints that they meet, and a new one that they do not.
#[derive(Clone, Copy)]
pub(crate) struct Propagation<'a> {
    pub(crate) edges: &'a [Edge],
    pub(crate) heads: &'a [u32],
    pub(crate) times: &'a [u128],
    pub(crate) fresh: &'a Edge,
}

impl Propagation<'_> {
    /// Moves a point so far that it comes a lag after another one, less a lead.
    fn raise(
        &self,
        work: &mut [u128],
        marks: &mut [bool],
        point: usize,
        other: usize,
        lag: u128,
        lead: u128,
    ) -> Step
        requires set { IsSet self.now }
        requires way { IsUnderway self.now work.old marks.old }
        requires forced { IsForced self.now.edges.now self.now.times.now self.now.fresh.now work.old point }
        requires point { point < length self.now.times.now }
        requires other { other < length self.now.times.now }
        requires asks { IsPrecedence self.now.edges.now self.now.times.now point other lag lead }
        requires lag { lag ≤ 2 ^ 72 }
        requires lead { lead ≤ 2 ^ 72 }
        ensures cycle { result ≡ Step.Cycle → IsHopeless self.now }
        ensures way { IsUnderway self.now work.new marks.new }
        ensures up { NoneFalls work.old work.new }
        ensures same { slice_index work.new point ≡ slice_index work.old point }
        ensures met { result ≢ Step.Cycle → slice_index work.new point + lag ≤ slice_index work.new other + lead }
        ensures marks { StayMarked marks.old marks.new }
        ensures still { result ≡ Step.Met → marks.new ≡ marks.old }
        ensures sum { sum work.old + rise_of result ≤ sum work.new }
    {
        let asked = work[point] + lag;
        if asked <= work[other] + lead {
            return Step::Met;
        }
        if other == self.fresh.to as usize {
            return Step::Cycle;
        }
        work[other] = asked - lead;
        marks[other] = true;
        Step::Raised
    }

    /// Looks at the edges to a marked point, which stays marked.
    fn follow_edges(&self, work: &mut [u128], marks: &mut [bool], point: usize) -> Step
        requires set { IsSet self.now }
        requires way { IsUnderway self.now work.old marks.old }
        requires marked { slice_index_or marks.old point false ≡ true }
        requires point { point < length self.now.times.now }
        ensures cycle { result ≡ Step.Cycle → IsHopeless self.now }
        ensures way { IsUnderway self.now work.new marks.new }
        ensures up { NoneFalls work.old work.new }
        ensures same { slice_index work.new point ≡ slice_index work.old point }
        ensures met { result ≢ Step.Cycle → AreMetAt self.now.edges.now point work.new }
        ensures marks { StayMarked marks.old marks.new }
        ensures still { result ≡ Step.Met → marks.new ≡ marks.old }
        ensures sum { sum work.old + rise_of result ≤ sum work.new }
    {
        let mut step = Step::Met;
        let mut link = self.heads[point];
        while link != 0 {
            let edge = &self.edges[link as usize - 1];
            let lag = edge.lag_on(KEPT_GRID);
            let lead = edge.lead_on(KEPT_GRID);
            match self.raise(work, marks, point, edge.from as usize, lag, lead) {
                Step::Cycle => return Step::Cycle,
                Step::Met => {}
                Step::Raised => step = Step::Raised,
            }
            link = edge.next;
        }
        step
    }

    /// Sees that no point is before the marked origin, which stays marked.
    fn follow_origin(&self, work: &mut [u128], marks: &mut [bool]) -> Step
        requires set { IsSet self.now }
        requires way { IsUnderway self.now work.old marks.old }
        requires marked { slice_index_or marks.old 0 false ≡ true }
        ensures cycle { result ≡ Step.Cycle → IsHopeless self.now }
        ensures way { IsUnderway self.now work.new marks.new }
        ensures up { NoneFalls work.old work.new }
        ensures same { slice_index work.new 0 ≡ slice_index work.old 0 }
        ensures met { result ≢ Step.Cycle → IsFirst (length self.now.times.now) work.new }
        ensures marks { StayMarked marks.old marks.new }
        ensures still { result ≡ Step.Met → marks.new ≡ marks.old }
        ensures sum { sum work.old + rise_of result ≤ sum work.new }
    {
        let mut step = Step::Met;
        for point in 0..self.times.len() {
            match self.raise(work, marks, 0, point, 0, 0) {
                Step::Cycle => return Step::Cycle,
                Step::Met => {}
                Step::Raised => step = Step::Raised,
            }
        }
        step
    }

    /// Looks at all that a marked point asks of others; it stays marked.
    fn follow(&self, work: &mut [u128], marks: &mut [bool], point: usize) -> Step
        requires set { IsSet self.now }
        requires way { IsUnderway self.now work.old marks.old }
        requires marked { slice_index_or marks.old point false ≡ true }
        requires point { point < length self.now.times.now }
        ensures cycle { result ≡ Step.Cycle → IsHopeless self.now }
        ensures way { IsUnderway self.now work.new marks.new }
        ensures up { NoneFalls work.old work.new }
        ensures met { result ≢ Step.Cycle → AreMetAt self.now.edges.now point work.new }
        ensures origin { result ≢ Step.Cycle → point ≡ 0 → IsFirst (length self.now.times.now) work.new }
        ensures still { result ≡ Step.Met → marks.new ≡ marks.old }
        ensures sum { sum work.old + rise_of result ≤ sum work.new }
    {
        let step = self.follow_edges(work, marks, point);
        if point != 0 {
            return step;
        }
        match step {
            Step::Cycle => Step::Cycle,
            Step::Met => self.follow_origin(work, marks),
            Step::Raised => match self.follow_origin(work, marks) {
                Step::Cycle => Step::Cycle,
                Step::Met | Step::Raised => Step::Raised,
            },
        }
    }

    /// Looks at all that a marked point asks of others, and takes its mark away.
    fn settle(&self, work: &mut [u128], marks: &mut [bool], point: usize) -> Step
        requires set { IsSet self.now }
        requires way { IsUnderway self.now work.old marks.old }
        requires marked { slice_index_or marks.old point false ≡ true }
        requires point { point < length self.now.times.now }
        ensures cycle { result ≡ Step.Cycle → IsHopeless self.now }
        ensures way { IsUnderway self.now work.new marks.new }
        ensures up { NoneFalls work.old work.new }
        ensures still { result ≡ Step.Met → marks.new ≡ slice_set marks.old point false }
        ensures sum { sum work.old + rise_of result ≤ sum work.new }
    {
        let step = self.follow(work, marks, point);
        if let Step::Cycle = step {
            return Step::Cycle;
        }
        marks[point] = false;
        step
    }

    /// Settles each point that is marked. Where nothing moved, no mark is left.
    fn round(&self, work: &mut [u128], marks: &mut [bool]) -> Step
        requires set { IsSet self.now }
        requires way { IsUnderway self.now work.old marks.old }
        ensures cycle { result ≡ Step.Cycle → IsHopeless self.now }
        ensures way { IsUnderway self.now work.new marks.new }
        ensures up { NoneFalls work.old work.new }
        ensures still { result ≡ Step.Met → (p : ℕ) → slice_index_or marks.new p false ≡ false }
        ensures sum { sum work.old + rise_of result ≤ sum work.new }
    {
        let mut step = Step::Met;
        for point in 0..self.times.len() {
            if marks[point] {
                match self.settle(work, marks, point) {
                    Step::Cycle => return Step::Cycle,
                    Step::Met => {}
                    Step::Raised => step = Step::Raised,
                }
            }
        }
        step
    }

    /// Moves the new constraint's first point so far that it is met, and marks it.
    fn begin(&self, work: &mut [u128], marks: &mut [bool]) -> bool
        requires set { IsSet self.now }
        requires copied { work.old ≡ self.now.times.now }
        requires flags { length marks.old ≡ length self.now.times.now }
        requires clean { (p : ℕ) → slice_index_or marks.old p false ≡ false }
        requires unmet { ¬ IsMetBy (slice_index self.now.times.now) self.now.fresh.now }
        ensures none { result ≡ false → IsHopeless self.now }
        ensures way { result ≡ true → IsUnderway self.now work.new marks.new }
        ensures met { result ≡ true → IsMetBy (slice_index work.new) self.now.fresh.now }
    {
        let from = self.fresh.from as usize;
        let to = self.fresh.to as usize;
        if from == to {
            return false;
        }
        let asked = self.times[to] + self.fresh.lag_on(KEPT_GRID);
        work[from] = asked - self.fresh.lead_on(KEPT_GRID);
        marks[from] = true;
        true
    }

    /// Moves times forward until the new constraint is met beside all others, or some cycle shows
    /// that no times meet them all.
    pub(crate) fn run(&self, work: &mut [u128], marks: &mut [bool]) -> bool
        requires set { IsSet self.now }
        requires copied { work.old ≡ self.now.times.now }
        requires flags { length marks.old ≡ length self.now.times.now }
        requires clean { (p : ℕ) → slice_index_or marks.old p false ≡ false }
        requires unmet { ¬ IsMetBy (slice_index self.now.times.now) self.now.fresh.now }
        ensures none { result ≡ false → IsHopeless self.now }
        ensures potential { result ≡ true → IsPotential (length self.now.times.now) self.now.edges.now (slice_index work.new) }
        ensures met { result ≡ true → IsMetBy (slice_index work.new) self.now.fresh.now }
        ensures low { result ≡ true → (p : ℕ) → slice_index work.new p ≤ 2 ^ 126 }
    {
        if !self.begin(work, marks) {
            return false;
        }
        loop {
            match self.round(work, marks) {
                Step::Cycle => return false,
                Step::Met => return true,
                Step::Raised => {}
            }
        }
    }
}
