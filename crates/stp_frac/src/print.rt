//! Printing fractions.

ghost use Rattle.std.specs.Prelude.{◌≡◌, ◌++◌, OnOk, OnErr};
ghost use Rattle.stp_frac.specs.Fractions.{value_of};
ghost use Rattle.stp_frac.specs.Reading.{text_of};

use crate::frac::Frac;
use crate::tail::Tail;
use stp_base::{Memory, Text};

impl Frac {
    /// Appends the value as `n` where it is whole and as `n/d` otherwise, with `-` in front below 0.
    #[tactic(auto, unfolding(crate::specs::Reading::text_of))]
    pub fn print(self, into: &mut Text) -> Result<(), Memory>
        ensures ok { OnOk result (into.new ≡ into.old ++ text_of (value_of self)) }
        ensures err { OnErr result (into.new ≡ into.old) }
    {
        let mut tail = Tail::new();
        if self.bottom != 1 {
            tail.put_number(self.bottom);
            tail.put(b'/');
        }
        tail.put_number(self.top);
        if self.negative {
            tail.put(b'-');
        }
        into.push(tail.as_slice())
    }
}
