use std::alloc::AllocError;
use thiserror::Error;
use x_base::NoMemory;

/// Why bytes weren't decoded.
#[derive(Clone, Copy, Debug, Error)]
pub enum CodeFault {
    /// The bytes are a code in neither format.
    #[error("no code")]
    Bad,
    /// No memory was left.
    #[error("no memory")]
    NoMemory,
}

impl From<NoMemory> for CodeFault {
    ghost use Rattle.std.specs.Prelude.{◌≡◌};
    ghost use Rattle.change_code.specs.declared.fault.CodeFault.{CodeFault};

    ghost from_gives = { λ _ fault. fault ≡ CodeFault.NoMemory };

    fn from(_: NoMemory) -> CodeFault {
        CodeFault::NoMemory
    }
}

impl From<AllocError> for CodeFault {
    ghost use Rattle.std.specs.Prelude.{◌≡◌};
    ghost use Rattle.change_code.specs.declared.fault.CodeFault.{CodeFault};

    ghost from_gives = { λ _ fault. fault ≡ CodeFault.NoMemory };

    fn from(_: AllocError) -> CodeFault {
        CodeFault::NoMemory
    }
}

/// Why there is no body of a compaction.
#[derive(Clone, Copy, Debug, Error)]
pub enum WholeFault {
    /// The change has more than 65,535 edits, or its code more than 4,194,304 bytes.
    #[error("too large")]
    TooLarge,
    /// No memory was left.
    #[error("no memory")]
    NoMemory,
}

impl From<NoMemory> for WholeFault {
    ghost use Rattle.std.specs.Prelude.{◌≡◌};
    ghost use Rattle.change_code.specs.declared.fault.WholeFault.{WholeFault};

    ghost from_gives = { λ _ fault. fault ≡ WholeFault.NoMemory };

    fn from(_: NoMemory) -> WholeFault {
        WholeFault::NoMemory
    }
}
