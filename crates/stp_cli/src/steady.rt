//! The top call where nothing outside fails.

ghost use Rattle.std.specs.Prelude.{◌≡◌, map, string_bytes};
ghost use Rattle.stp_cli.specs.Calls.{steady_call, silent_call};
ghost use Rattle.stp_cli.specs.Outcome.{IsOutcome};

use crate::status::Status;
use crate::top::run;
use std::alloc::Global;
use stp_io::{SteadySink, SteadyStore};

/// The top call over files that can always be read and a sink that takes all: no fault of the outside is left.
pub fn run_steadily(
    alloc: Global,
    words: &[String],
    store: &mut SteadyStore,
    sink: &mut SteadySink,
) -> Status
    ensures outcome { IsOutcome (steady_call store.old) silent_call (map string_bytes words.now) result }
    ensures never { result ≡ Status.OutsideFault → ⊥ }
{
    run(alloc, words, store, sink)
}
