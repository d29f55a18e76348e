//! Where texts are written to.

ghost use Rattle.std.specs.Prelude.{◌≡◌, ◌++◌, ◌<◌, ◌≤◌, ℕ, List, length, take, Option, option_map, IfOk, OnErr};
ghost use Rattle.stp_io.specs.Store.{HasRisen};

use crate::store::Failed;

/// Where texts are written to.
pub trait Sink {
    /// The bytes written so far, where the sink tells them.
    ghost written: { Self → Option (List ℕ) };

    /// How many calls have failed.
    ghost faults: { Self → ℕ };

    /// Appends the first bytes of a piece, and tells how many, at least one; where it fails it takes none.
    fn write(&mut self, piece: &[u8]) -> Result<usize, Failed>
        requires { 0 < length piece.now }
        ensures some { IfOk result (λ n. 1 ≤ n) }
        ensures within { IfOk result (λ n. n ≤ length piece.now) }
        ensures appended { IfOk result (λ n. written self.new ≡ option_map (λ w. w ++ take n piece.now) (written self.old)) }
        ensures counted { OnErr result (HasRisen (faults self.old) (faults self.new)) }
        ensures kept { OnErr result (written self.new ≡ written self.old) }
        ensures counts { faults self.old ≤ faults self.new };
}
