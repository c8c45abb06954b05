//! The course of a scenario: which lines stand for which events, which of them is forged, what becomes of each, and what is
//! written of it. No party and no disk is held here.
#![tactic(auto)]

mod act;
mod arriving;
mod declaring;
mod forging;
mod keys;
mod lawful;
mod laws;
mod live;
mod meaning;
mod noting;
mod progress;
mod ranges;
mod summing;
mod tally;
mod writing;

pub use act::LineAct;
pub use declaring::{NewParty, is_head, load_at, new_party};
pub use forging::is_honest;
pub use keys::{count_in, count_records};
pub use lawful::law_lawful;
pub use laws::{law_counted, law_played_honest, law_scenario_starts, law_starts};
pub use live::law_live_key;
pub use meaning::act_at;
pub use noting::{note, note_if};
pub use progress::{EventOutcome, OutcomeCounts, Progress, Stop, advance_quiet, outcome_of, start};
pub use summing::summary;
pub use tally::Tally;
pub use writing::compose_event;
