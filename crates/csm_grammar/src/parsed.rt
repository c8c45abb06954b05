use crate::message::Message;

/// The code that closes a message: an authentication code or an error detection code.
#[derive(Clone, Copy, PartialEq, Eq)]
pub enum Shut {
    Mac(u32),
    Edc(u32),
}

/// A message that was read, and where its spelling ends.
#[derive(Drop)]
pub struct Parsed {
    pub message: Message,
    pub shut: Shut,
    /// The length of the authenticated text, which ends before the tag MAC or EDC.
    pub auth_len: usize,
    /// The length of the spelling.
    pub len: usize,
}
