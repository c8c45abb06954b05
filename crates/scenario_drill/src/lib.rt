//! The text of a drill: a scenario that is made of a number.
#![tactic(auto)]

mod drawing;
mod drill_events;
mod drill_set_up;
mod drill_text;
mod laws;
mod writing;

pub use drill_text::drill;
pub use laws::law_drills_read;
