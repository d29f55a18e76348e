//! Windows of a box: when each event may come, which points may meet, what is certain of an atom at a moment,
//! and which steps and events of the environment are unsettled then.
#![tactic(auto)]

pub mod certain;
pub mod ends;
pub mod laws;
pub mod meetings;
pub mod places;
pub mod points;
pub mod sweeping;
pub mod windows;
pub mod writing;

pub use certain::certain_value;
pub use ends::unsettled;
pub use meetings::meeting;
pub use places::{Places, meeting_places};
pub use points::{Meeting, PointOf, is_there, may_meet};
pub use sweeping::{MetWindows, meeting_windows};
pub use windows::{Lasting, Window, lasting_of, windows_of};
