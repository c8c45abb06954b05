// A failure of the shelf, and what is told in the end.
ghost use Rattle.std.specs.Prelude.{◌≡◌};
ghost use Rattle.disk_pair.specs.Pairs.{told_after};
ghost use Rattle.x_pay.specs.Steps.{failure_of};

use crate::outcome::PayOutcome;
use x_disk::DiskErr;

/// A failure of the shelf as an outcome.
pub(crate) fn failure(cause: DiskErr) -> PayOutcome
    ensures { result ≡ failure_of cause }
{
    match cause {
        DiskErr::Fault => PayOutcome::Fault,
        DiskErr::NoMemory => PayOutcome::NoMemory,
    }
}

/// The outcome, or the failure of the put back in its place.
pub(crate) fn closed(outcome: PayOutcome, put: Result<(), DiskErr>) -> PayOutcome
    ensures { result ≡ told_after failure_of outcome put }
{
    match put {
        Ok(()) => outcome,
        Err(cause) => failure(cause),
    }
}
