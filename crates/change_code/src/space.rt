// The room of an area.
use crate::format::Format;

/// The room that is left in the area of a file, in bytes, with the closed gate, and the format of what is kept there.
#[derive(Clone, Copy, PartialEq, Eq)]
pub struct Space {
    pub format: Format,
    pub room: u64,
}
