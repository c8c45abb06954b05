// A failure of the shelf, and what is told in the end.
ghost use Rattle.std.specs.Prelude.{◌≡◌};
ghost use Rattle.disk_pair.specs.Pairs.{told_after};
ghost use Rattle.x_spool.specs.Steps.{failure_of};

use crate::outcome::SpoolOutcome;
use x_disk::DiskErr;

/// A failure of the shelf as an outcome.
pub(crate) fn failure(cause: DiskErr) -> SpoolOutcome
    ensures { result ≡ failure_of cause }
{
    match cause {
        DiskErr::Fault => SpoolOutcome::Fault,
        DiskErr::NoMemory => SpoolOutcome::NoMemory,
    }
}

/// The outcome, or the failure of the put back in its place.
pub(crate) fn closed(outcome: SpoolOutcome, put: Result<(), DiskErr>) -> SpoolOutcome
    ensures { result ≡ told_after failure_of outcome put }
{
    match put {
        Ok(()) => outcome,
        Err(cause) => failure(cause),
    }
}
