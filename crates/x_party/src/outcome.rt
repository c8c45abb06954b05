// What became of a party on a shelf.
ghost use Rattle.std.specs.Prelude.{◌≡◌};
ghost use Rattle.x_party.specs.Steps.{outcome_with};

use x_base::{Ident, Text, Verdict};
use x_disk::DiskErr;

/// What became of what was asked of a party.
#[derive(Drop)]
pub enum Outcome {
    /// It is done, and this is written.
    Done {
        reply: Option<Text>,
    },
    /// It is refused, nothing changed, and this is written. `Blank` where no party stands on the disk, `NotEmpty`
    /// where none can be created on it.
    Refused {
        verdict: Verdict,
        reply: Option<Text>,
    },
    /// The image stands for a party, whose own identity is the second, and not the first, under which it was called. It
    /// isn't asked, and nothing changed.
    OtherParty(Ident, Ident),
    /// The image isn't blank and stands for no party; the place is that of its first damage.
    Damaged(u64),
    /// The shelf or the disk failed.
    Fault,
    /// No memory was left.
    NoMemory,
}

impl From<DiskErr> for Outcome {
    ghost use Rattle.std.specs.Prelude.{◌≡◌};
    ghost use Rattle.key_journal.specs.Causes.{cause_of};
    ghost use Rattle.x_party.specs.Steps.{outcome_of};

    ghost from_gives = { λ error outcome. outcome ≡ outcome_of (cause_of error) };

    fn from(error: DiskErr) -> Self {
        match error {
            DiskErr::Fault => Outcome::Fault,
            DiskErr::NoMemory => Outcome::NoMemory,
        }
    }
}

impl Outcome {
    /// Done where the verdict accepts, and otherwise refused.
    pub(crate) fn with(verdict: Verdict, reply: Option<Text>) -> Outcome
        ensures { result ≡ outcome_with verdict reply }
    {
        if verdict == Verdict::Accept {
            return Outcome::Done { reply };
        }
        Outcome::Refused { verdict, reply }
    }
}
