// Why a spool isn't begun.
use key_journal::Cause;
use thiserror::Error;
use x_disk::Disk;

/// Why a spool wasn't begun.
#[derive(Clone, Copy, Debug, Error)]
pub enum SpoolCause {
    /// Its journal can't be made or read.
    #[error("{0}")]
    Journal(Cause),
    /// The image holds a batch with other bytes.
    #[error("another batch")]
    OtherBatch,
}

/// A disk on which no spool was begun, and why.
#[derive(Drop)]
pub struct Unbegun<E: Disk> {
    pub disk: E,
    pub cause: SpoolCause,
}
