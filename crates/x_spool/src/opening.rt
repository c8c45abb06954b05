// What is told where the party isn't opened.
ghost use Rattle.std.specs.Prelude.{◌≡◌};
ghost use Rattle.x_spool.specs.Steps.{outcome_of, outcome_of_why};

use crate::outcome::SpoolOutcome;
use key_journal::Cause;
use node_core::WhyNotOpened;
use x_base::Ident;

/// The outcome where a disk isn't opened, or failed. No opening tells that a disk isn't empty, but of a file that changes by
/// itself.
pub(crate) fn outcome_of(cause: Cause) -> SpoolOutcome
    ensures { result ≡ outcome_of cause }
{
    match cause {
        Cause::Blank => SpoolOutcome::Blank,
        Cause::NotEmpty => SpoolOutcome::Damaged(0),
        Cause::Damaged(place) => SpoolOutcome::Damaged(place),
        Cause::Fault => SpoolOutcome::Fault,
        Cause::NoMemory => SpoolOutcome::NoMemory,
    }
}

/// The outcome where the party of the name isn't opened.
pub(crate) fn no_party(party: &Ident, why: WhyNotOpened) -> SpoolOutcome
    ensures { result ≡ outcome_of_why party.now why }
{
    match why {
        WhyNotOpened::OtherParty(found) => SpoolOutcome::OtherParty(*party, found),
        WhyNotOpened::Unmade(cause) => outcome_of(cause),
    }
}
