// What became of a batch, and of a look at its outbox.
use x_base::{Ident, Text};

/// What became of a batch.
#[derive(Drop)]
pub enum SpoolOutcome {
    /// Each entry has its plan, the party is behind the last, and this is the outbox.
    Done { text: Text },
    /// The spool's image holds a batch with other bytes. Nothing changed.
    OtherBatch,
    /// The last plan, that of this entry, counted from 1, isn't carried out, and the party would do otherwise with the entry.
    /// Nothing changed.
    OutOfStep(u32),
    /// The party's image stands for a party, whose own identity is the second, and not the first, under which it was
    /// called. The spool isn't opened, and nothing changed.
    OtherParty(Ident, Ident),
    /// No party stands on the party's disk.
    Blank,
    /// The party's image, or else the spool's, isn't blank and stands for nothing; the place is that of its first damage.
    Damaged(u64),
    /// The shelf or a disk failed. What was done stays.
    Fault,
    /// No memory was left. What was done stays.
    NoMemory,
}

/// What the spool of a batch tells.
#[derive(Drop)]
pub enum OutboxOutcome {
    /// The outbox of the plans that stand, and how many entries have none.
    Done { text: Text, missing: u32 },
    /// No spool stands on the disk.
    Blank,
    /// The image isn't blank and stands for no spool; the place is that of its first damage.
    Damaged(u64),
    /// The shelf or the disk failed.
    Fault,
    /// No memory was left.
    NoMemory,
}
