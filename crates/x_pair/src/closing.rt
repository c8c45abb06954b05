// A failure of the shelf, and what is told in the end.
ghost use Rattle.std.specs.Prelude.{◌≡◌};
ghost use Rattle.disk_pair.specs.Pairs.{told_after};
ghost use Rattle.x_pair.specs.Steps.{failure_of};

use x_disk::DiskErr;
use x_party::Outcome;

/// A failure of the shelf as an outcome.
pub(crate) fn failure(cause: DiskErr) -> Outcome
    ensures { result ≡ failure_of cause }
{
    match cause {
        DiskErr::Fault => Outcome::Fault,
        DiskErr::NoMemory => Outcome::NoMemory,
    }
}

/// The outcome, or the failure of the put back in its place.
pub(crate) fn closed(outcome: Outcome, put: Result<(), DiskErr>) -> Outcome
    ensures { result ≡ told_after failure_of outcome put }
{
    match put {
        Ok(()) => outcome,
        Err(cause) => failure(cause),
    }
}
