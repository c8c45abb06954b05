// The turns of a party over two disks are events, told by a call that does nothing.
ghost use Rattle.std.specs.Prelude.{◌≡◌, false, List, Option, Result, ℕ};
ghost use Rattle.x_disk.specs.Disk.{IsDurable};
ghost use Rattle.key_journal.specs.Journal.{is_blank};
ghost use Rattle.party_state.specs.declared.command.Input.{Input as TheInput};
ghost use Rattle.member.specs.Member.{Member};
ghost use Rattle.node_core.specs.Turns.{member_of};
ghost use Rattle.disk_pair.specs.declared.disks.Disks.{Disks as TheDisks};
ghost use Rattle.mirror_store.specs.Pairs.{Twin, IsTwin};
ghost use Rattle.mirror_store.specs.Answers.{opened_disks};
ghost use Rattle.mirror_store.specs.Opening.{AreRead, IsPairOpened};
ghost use Rattle.mirror_store.specs.Turns.{IsPairTurn, pair_plan_at};
ghost use Rattle.mirror_store.specs.declared.mirror.PairTurn.{PairTurn as TheTurn};
ghost use Rattle.mirror_store.specs.declared.pair.PairUnmade.{PairUnmade as TheUnmade};
ghost use Rattle.mirror_laws.specs.Runs.{PairEvent, Which, losses};
ghost use Rattle.mirror_laws.specs.Turns.{IsMirrorTurn, IsMirrorCut, AreLeftNow, IsLeftAs, IsLeftAgain};

use change_code::law_can_compact;
use key_store::law_one_finding;
use member::law_refusal;
use mirror_store::law_recovers;
use world_laws::law_inputs;
use x_disk::Disk;
use x_party::law_one_space;

/// A turn of a party over two disks is the event of its input at the party: whole, where it is done or refused; cut off with the
/// old state, where the party after it would be too large for one frame. What a crash at any moment of it leaves of the two disks,
/// also where one of them is lost then, is opened as the party after the event that is cut off, and after the loss. Where a disk
/// is lost, or none, between two turns, the party is opened that stood, after the loss. An opening over a first disk that isn't blank
/// may be cut off and begun again.
pub fn law_mirror_turns<D: Disk>()
    ensures turn { (old : Twin D) (bytes : List ℕ) (i : TheInput) (moment : ℕ) (turn : TheTurn D) → IsPairTurn D.told old (pair_plan_at (member_of old.first) i moment) turn
        → IsMirrorTurn old bytes i moment turn }
    ensures cut { (old : Twin D) (bytes : List ℕ) (i : TheInput) (moment : ℕ) (turn : TheTurn D) → IsPairTurn D.told old (pair_plan_at (member_of old.first) i moment) turn
        → IsMirrorCut D.told old bytes i moment turn }
    ensures between { (old : Twin D) (lost : Option Which) (first second : List ℕ) → IsTwin D.told old → AreLeftNow D.told old lost first second
        → IsLeftAs D.told (member_of old.first) (losses old.first.party.own lost) first second }
    ensures again { (x : Member) (events : List PairEvent) (first second : List ℕ) (disks : TheDisks D) (result : Result (Twin D) (TheUnmade D)) → IsLeftAs D.told x events first second → is_blank first ≡ false
        → IsDurable (D.told disks.first) → IsDurable (D.told disks.second) → AreRead (D.told disks.first) (D.told disks.second) first second → IsPairOpened D.told disks result
        → IsLeftAgain D.told x events disks (opened_disks result) }
{
    law_inputs();
    law_refusal();
    law_recovers();
    law_one_finding();
    law_one_space();
    law_can_compact();
}
