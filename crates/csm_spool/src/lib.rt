//! A batch of messages that arrive at a party, driven over a spool so that each happens once.
#![tactic(auto)]

mod beginning;
mod catching;
mod driving;
mod foreseeing;
mod laws;
mod outcome;
mod planning;
mod stepping;

pub use beginning::begin;
pub use catching::Caught;
pub use driving::drive;
pub use foreseeing::Foreseen;
pub use laws::{law_catching_up, law_one_course, law_settled_only_behind, law_steps};
pub use outcome::Driven;
pub use stepping::Stepped;
