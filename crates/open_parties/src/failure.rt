// Why a play ends early.
use x_base::NoMemory;

/// Why a party's event doesn't end.
#[derive(Clone, Copy)]
pub enum Failure {
    /// A disk or the shelf failed.
    Fault,
    NoMemory,
    /// An image that stands for no party was found, and the place is that of its first damage; or, at
    /// place 0, a party that is neither of the two of which a stop leaves one.
    Damaged(u64),
}

impl From<NoMemory> for Failure {
    ghost use Rattle.std.specs.Prelude.{◌≡◌};
    ghost use Rattle.open_parties.specs.declared.failure.Failure.{Failure};

    ghost from_gives = { λ _ failure. failure ≡ Failure.NoMemory };

    fn from(_: NoMemory) -> Failure {
        Failure::NoMemory
    }
}

/// Why a play ends before its scenario does.
#[derive(Clone, Copy)]
pub enum Ending {
    /// A code was made by nobody who holds its key, at the event of this number.
    Forged(u32),
    /// The sink failed.
    Write,
    Failed(Failure),
}

impl From<Failure> for Ending {
    ghost use Rattle.std.specs.Prelude.{◌≡◌};
    ghost use Rattle.open_parties.specs.declared.failure.Ending.{Ending};

    ghost from_gives = { λ failure ending. ending ≡ Ending.Failed failure };

    fn from(failure: Failure) -> Ending {
        Ending::Failed(failure)
    }
}

impl From<NoMemory> for Ending {
    ghost use Rattle.std.specs.Prelude.{◌≡◌};
    ghost use Rattle.open_parties.specs.declared.failure.Ending.{Ending};
    ghost use Rattle.open_parties.specs.declared.failure.Failure.{Failure};

    ghost from_gives = { λ _ ending. ending ≡ Ending.Failed Failure.NoMemory };

    fn from(_: NoMemory) -> Ending {
        Ending::Failed(Failure::NoMemory)
    }
}
