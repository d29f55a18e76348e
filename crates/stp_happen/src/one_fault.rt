//! The law that a run has one first fault at most. Nothing here runs.

ghost use Rattle.stp_happen.specs.OneFault.{FirstFaultIsOne};

/// A run has one first fault at most.
pub fn first_fault_is_one()
    ensures { FirstFaultIsOne }
{}
