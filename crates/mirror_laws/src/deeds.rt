// Which events a session over one disk or two each is, told by a call that does nothing.
ghost use Rattle.std.specs.Prelude.{List, Option, ℕ};
ghost use Rattle.world_laws.specs.World.{World};
ghost use Rattle.world_laws.specs.Starts.{IsStart};
ghost use Rattle.mirror_laws.specs.Sessions.{PairDeed, HaveOwnDisks, AllStandOnOwn, AreDeedsDone};
ghost use Rattle.mirror_laws.specs.Deeds.{EndsOnAllImages};

use crate::laws::law_mirror;
use change_code::law_can_compact;
use key_store::law_one_finding;
use member::law_refusal;
use mirror_store::law_recovers;
use world_laws::law_inputs;
use x_disk::Shelf;
use x_party::law_one_space;

/// What parties do day by day, each of which keeps one disk or two, is a run in which disks are lost: commands (but loading) and
/// arriving messages, each called over its own party's disks, of a party with one disk also compactions and migrations; parties
/// with two disks that are shown over them; one disk of a party, its only one or one of its two, that is tended: compacted,
/// migrated or wiped; batches, each taken at a party with one disk, beside a spool that is no party's disk; whatever writes no
/// party's disk; power failures between these calls and inside them (inside a batch each call of a disk fails from some moment on,
/// and the power failure comes behind it); and losses of one of a party's two disks between them; from disks that stand for a
/// start.
///
/// The run has these events, in their places, and no others. A call of a command or a message that answered is its event, done
/// whole, and so is a compaction or a migration that is called at a party with one disk; a call over two disks that was held back
/// may be none. Such a call that ended with a fault or with no memory, or in which the power failed, is its event cut off, or none:
/// over one disk with the old party or the new one; over two with the new state, and behind it, or behind a show, may come once
/// more the loss of its first disk, where that could be left blank before. Where a first disk is tended, a compaction or a
/// migration is an event where it was done, none where it was refused, and cut off with the new state, or none, where it failed or
/// the power did; a wiping is none, nor is what is done with a second disk. A loss is one.
///
/// A batch is arrivals at its party, each done whole, in the order of its entries: one for each entry of which a message is heard,
/// from the entry behind the plans that the spool's image held on, or from the last one that has such a plan, if that changes
/// something. A batch that is done goes on to its last entry. One that ended with a fault or with no memory goes on by the first of
/// these entries, or by none. Each image that a crash may leave of the spool then holds the plans that it held and those of these
/// entries (all; or all but a last one that changes nothing; or one more, which changes something). Or no entry was planned: each
/// such image could be left before, or is blank, or holds the batch without plans. What the spool held and holds is said if its
/// disk tells. A batch that was refused is no event, and its spool isn't written. An entry whose plan changes nothing may be such a
/// last one that isn't kept; then the next batch plans it again, and it is an arrival once more.
///
/// After the session, of whichever images of a party's disks a crash may leave then, the one stands for the member of the network,
/// with its space, or of the two that member's party is to be opened, with its space, which isn't said where the first image is
/// blank and the party is too large to be written over it. The network has written, in their order, what calls handed out, and the
/// replies of the entries that batches carried out, also where no outbox was handed out. The outbox of a batch that is done has
/// before these the replies of the other plans that the spool's image held, which this batch doesn't write. And the laws of runs
/// hold of it.
pub fn law_mirror_deeds<H: Shelf>()
    ensures { (start : World) (mirror : List ℕ → Option (List ℕ)) (deeds : List PairDeed) (shelves ends : ℕ → H) → IsStart start → HaveOwnDisks mirror start → AllStandOnOwn mirror (H.entry (shelves 0)) start
        → AreDeedsDone start mirror deeds 0 (λ k. H.entry (shelves k)) (λ k. H.entry (ends k)) → EndsOnAllImages start mirror deeds (λ k. H.entry (shelves k)) }
{
    law_mirror();
    law_inputs();
    law_refusal();
    law_recovers();
    law_one_finding();
    law_one_space();
    law_can_compact();
}
