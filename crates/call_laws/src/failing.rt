// What a call that failed leaves, told by a call that does nothing.
ghost use Rattle.std.specs.Prelude.{◌≡◌, List, ℕ};
ghost use Rattle.x_disk.specs.Disk.{Tells};
ghost use Rattle.x_party.specs.Images.{DiskStandsFor};
ghost use Rattle.x_party.specs.declared.outcome.Outcome.{Outcome as TheOutcome};
ghost use Rattle.member.specs.Member.{Member};
ghost use Rattle.world_laws.specs.Events.{Action};
ghost use Rattle.call_laws.specs.Calls.{event_at};
ghost use Rattle.call_laws.specs.Sessions.{IsMade};
ghost use Rattle.call_laws.specs.Failing.{IsFailure, IsLeft};

use crate::calls::law_calls;
use x_disk::Shelf;

/// Where a member is called with a command, a message that arrived, a compaction or a migration, and the call ends with a fault or
/// with no memory, its disk stands for it as it was, or as the event leaves it, whatever the network and whatever crash comes then.
pub fn law_failed<H: Shelf>()
    ensures { (name : List ℕ) (x : Member) (action : Action) (moment : ℕ) (o : TheOutcome) (old new : H) → x.party.own ≡ name → IsFailure o → IsMade name action moment o (H.entry old name) (H.entry new name)
        → Tells (H.entry old name) → DiskStandsFor (H.entry old name) x.party x.space → IsLeft x (event_at x moment action) (H.entry new name) }
{
    law_calls::<H>();
}
