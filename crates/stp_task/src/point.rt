//! Kinds of events.

/// What an event of an action is: that of a simple action, the start or the finish of a durative one, or the opening
/// or the closing of the time in which an uncertain one may finish.
#[derive(Clone, Copy, Debug, PartialEq, Eq)]
pub enum PointKind {
    Moment,
    Start,
    Finish,
    Opening,
    Closing,
}
