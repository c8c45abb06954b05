//! A spool: a batch and the plans of its first entries, on a disk of their own.
#![tactic(auto)]

mod beginning;
mod cause;
mod committing;
mod contents;
mod entry_plan;
mod loading;
mod outbox;
mod parsing;
mod progress;
mod spool;
mod writing;

pub use cause::{SpoolCause, Unbegun};
pub use committing::Committed;
pub use entry_plan::EntryPlan;
pub use progress::{Contents, Progress};
pub use spool::Spool;
pub use writing::is_short;
