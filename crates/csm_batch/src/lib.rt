//! Batches: lines of bytes that arrive at a party, each with its moment.
#![tactic(auto)]

mod batch;
mod entry;
mod fault;
mod laws;
mod reading;
mod writing;

pub use batch::Batch;
pub use entry::Entry;
pub use fault::BatchFault;
pub use laws::{law_bad_in_front, law_has_reading, law_one_reading, law_reads_back};
pub use writing::{push_number, write_line};
