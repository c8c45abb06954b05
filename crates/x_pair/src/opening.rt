// What is told where a pair isn't opened.
ghost use Rattle.std.specs.Prelude.{◌≡◌};
ghost use Rattle.x_pair.specs.Steps.{outcome_of_cause, outcome_of_pair};

use key_journal::Cause;
use mirror_store::PairCause;
use x_base::Verdict;
use x_party::Outcome;

fn refused(verdict: Verdict) -> Outcome
    ensures { result ≡ Outcome.Refused verdict None }
{
    Outcome::Refused {
        verdict,
        reply: None,
    }
}

fn outcome_of_cause(cause: Cause) -> Outcome
    ensures { result ≡ outcome_of_cause cause }
{
    match cause {
        Cause::Blank => refused(Verdict::Blank),
        Cause::NotEmpty => refused(Verdict::NotEmpty),
        Cause::Damaged(place) => Outcome::Damaged(place),
        Cause::Fault => Outcome::Fault,
        Cause::NoMemory => Outcome::NoMemory,
    }
}

/// The outcome where two disks aren't made or opened as a pair, or failed.
pub(crate) fn outcome_of(cause: PairCause) -> Outcome
    ensures { result ≡ outcome_of_pair cause }
{
    match cause {
        PairCause::First(cause) => outcome_of_cause(cause),
        PairCause::Second(cause) => outcome_of_cause(cause),
        PairCause::OtherParty(one, other) => Outcome::OtherParty(one, other),
        PairCause::TooLarge => refused(Verdict::JournalFull),
    }
}
