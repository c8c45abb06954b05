use thiserror::Error;
use x_base::NoMemory;

/// Why a text was not read as a batch.
#[derive(Clone, Copy, Debug, Error)]
pub enum BatchFault {
    /// This line, counted from 1, is the first outside the grammar.
    #[error("bad line {0}")]
    BadLine(u32),
    /// No memory was left.
    #[error("no memory")]
    NoMemory,
}

impl From<NoMemory> for BatchFault {
    ghost use Rattle.std.specs.Prelude.{◌≡◌};
    ghost use Rattle.csm_batch.specs.declared.fault.BatchFault.{BatchFault};

    ghost from_gives = { λ _ fault. fault ≡ BatchFault.NoMemory };

    fn from(_: NoMemory) -> BatchFault {
        BatchFault::NoMemory
    }
}
