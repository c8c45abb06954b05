use csm_grammar::{Arrival, ReadRefusal};

/// What a feed answers when it is asked for the next message.
#[derive(Drop)]
pub enum Next {
    /// The next message.
    Message(Arrival),
    /// Nothing is held, or a message that doesn't end yet.
    NotYet,
    /// What is held begins no message. The place counts from the first byte that was pushed.
    Refused(ReadRefusal),
    /// No memory was left, and nothing changed.
    NoMemory,
}
