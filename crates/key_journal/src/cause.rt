// Why a journal can't be made, opened or read.
use thiserror::Error;
use x_disk::{Disk, DiskErr};

/// Why a journal wasn't made or opened.
#[derive(Clone, Copy, Debug, Error)]
pub enum Cause {
    /// The image is blank: no journal stands on it.
    #[error("blank")]
    Blank,
    /// The image isn't blank, so no journal is made on it.
    #[error("not empty")]
    NotEmpty,
    /// The image stands for nothing; the place is that of its first damage.
    #[error("damaged at {0}")]
    Damaged(u64),
    /// The disk failed.
    #[error("disk fault")]
    Fault,
    /// No memory was left.
    #[error("no memory")]
    NoMemory,
}

impl From<DiskErr> for Cause {
    ghost use Rattle.std.specs.Prelude.{◌≡◌};
    ghost use Rattle.key_journal.specs.Causes.{cause_of};

    ghost from_gives = { λ d c. c ≡ cause_of d };

    fn from(cause: DiskErr) -> Self {
        match cause {
            DiskErr::Fault => Cause::Fault,
            DiskErr::NoMemory => Cause::NoMemory,
        }
    }
}

/// A disk on which no journal was made or opened, and why.
#[derive(Drop)]
pub struct Unmade<D: Disk> {
    pub disk: D,
    pub cause: Cause,
}
