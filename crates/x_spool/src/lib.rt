//! A batch of a party on a shelf: its disk and the spool's are fetched, the batch is driven, and both are put back, whatever
//! comes. And what a spool tells by itself, and the messages of a stream as the lines of a batch.
#![tactic(auto)]

mod closing;
mod driving;
mod inbox;
mod laws;
mod looking;
mod opening;
mod outcome;
mod spooling;

pub use inbox::{InboxFault, inbox_lines};
pub use laws::{law_one_due, law_one_inbox, law_one_outbox};
pub use looking::outbox;
pub use outcome::{OutboxOutcome, SpoolOutcome};
pub use spooling::spool;
