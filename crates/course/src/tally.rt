// The events of a scenario, and what its parties hold at its end.
/// How many events there were and how many had each outcome, how many texts were written, and how many
/// key records of all parties have each status at the end.
#[derive(Clone, Copy)]
pub struct Tally {
    pub events: u32,
    pub done: u32,
    pub refused: u32,
    pub stopped: u32,
    /// Events whose text or party isn't there.
    pub none: u32,
    pub texts: u32,
    pub live: u32,
    pub held: u32,
    pub closing: u32,
    pub ended: u32,
}
