//! Where files are read from.

ghost use Rattle.std.specs.Prelude.{◌≡◌, ◌<◌, ◌≤◌, ℕ, Bool, true, false, List, length, Option, IfOk, IfSome, OnErr};
ghost use Rattle.stp_io.specs.Store.{HasRisen, IsRead};

use thiserror::Error;

/// A call of the outside failed, and was counted.
#[derive(Clone, Copy, Debug, PartialEq, Eq, Error)]
#[error("a call of the outside failed")]
pub struct Failed;

/// Where files are read from by name.
pub trait Store {
    /// Where the store tells its files: for a name the bytes of its file, or nothing where there is no such file.
    ghost files: { Self → Option (List ℕ → Option (List ℕ)) };

    /// Whether every later read of a name succeeds.
    ghost steady: { Self → List ℕ → Bool };

    /// How many calls have failed.
    ghost faults: { Self → ℕ };

    /// Reads the next bytes of a file from an offset into a buffer, and tells how many; 0 at the file's end.
    fn read_at(&mut self, name: &str, offset: u64, buf: &mut [u8]) -> Result<usize, Failed>
        requires { 0 < length buf.old }
        ensures within { IfOk result (λ n. n ≤ length buf.new) }
        ensures read { IfOk result (λ n. IfSome (files self.old) (λ f. IsRead (f name.now) offset n buf.new)) }
        ensures counted { OnErr result (HasRisen (faults self.old) (faults self.new)) }
        ensures unsteady { OnErr result (steady self.old name.now ≡ false) }
        ensures files { files self.new ≡ files self.old }
        ensures steady { (n : List ℕ) → steady self.old n ≡ true → steady self.new n ≡ true }
        ensures counts { faults self.old ≤ faults self.new };
}
