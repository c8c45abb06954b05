// What a play answers.
ghost use Rattle.std.specs.Prelude.{◌≡◌};
ghost use Rattle.replay.specs.Finishing.{end_of, answer_of, set_up_answer};

use crate::making::SetUpEnd;
use crate::result::PlayResult;
use course::Tally;
use open_parties::{Ending, Failure};
use x_base::Verdict;

/// How a play ended, where a disk may not have been put back: an end that came before stays.
pub(crate) fn end_of(
    outcome: Result<Tally, Ending>,
    back: Result<(), Failure>,
) -> Result<Tally, Ending>
    ensures { result ≡ end_of outcome back }
{
    match outcome {
        Ok(_) | Err(Ending::Forged(_)) => match back {
            Ok(()) => outcome,
            Err(why) => Err(Ending::Failed(why)),
        },
        Err(Ending::Write | Ending::Failed(_)) => outcome,
    }
}

/// The answer to a play that ended so.
pub(crate) fn answer_of(outcome: Result<Tally, Ending>) -> PlayResult
    ensures { result ≡ answer_of outcome }
{
    match outcome {
        Ok(tally) => PlayResult::Done(tally),
        Err(Ending::Forged(number)) => PlayResult::Forged(number),
        Err(Ending::Write) => PlayResult::WriteFault,
        Err(Ending::Failed(Failure::Fault)) => PlayResult::DiskFault,
        Err(Ending::Failed(Failure::NoMemory)) => PlayResult::NoMemory,
        Err(Ending::Failed(Failure::Damaged(place))) => PlayResult::Damaged(place),
    }
}

/// The answer where the parties can't be set up.
pub(crate) fn set_up_answer(end: SetUpEnd) -> PlayResult
    ensures { result ≡ set_up_answer end }
{
    match end {
        SetUpEnd::NotEmpty => PlayResult::Refused(Verdict::NotEmpty),
        SetUpEnd::Failed(Failure::Fault) => PlayResult::DiskFault,
        SetUpEnd::Failed(Failure::NoMemory) => PlayResult::NoMemory,
        SetUpEnd::Failed(Failure::Damaged(place)) => PlayResult::Damaged(place),
    }
}
