// Which events a session is, told by a call that does nothing.
ghost use Rattle.std.specs.Prelude.{List, ℕ, length};
ghost use Rattle.world_laws.specs.World.{World};
ghost use Rattle.world_laws.specs.Starts.{IsStart};
ghost use Rattle.call_laws.specs.Sessions.{Deed, StandsOn, AreDone};
ghost use Rattle.call_laws.specs.Deeds.{EndsAsDone};

use key_store::law_one_finding;
use x_disk::Shelf;
use x_party::law_one_space;

/// What a bank does day by day is a run: commands (but loading), arriving bytes, compactions and migrations, each called over its
/// own party's disk, with power failures between calls and inside them, from disks that stand for a start. The run has an event
/// for each call that answered, done whole, and in its place; for each call that ended with a fault or with no memory, or in
/// which the power failed, its event cut off, with the old party or the new one, or none; and no others. After it the disks stand
/// for the network, what was handed out, joined, is what it has written, and the laws of runs hold of it.
pub fn law_deeds<H: Shelf>()
    ensures { (start : World) (deeds : List Deed) (shelves ends : ℕ → H) → IsStart start → StandsOn (H.entry (shelves 0)) start
        → AreDone start deeds 0 (λ k. H.entry (shelves k)) (λ k. H.entry (ends k)) → EndsAsDone start deeds (H.entry (shelves (length deeds))) }
{
    law_one_space();
    law_one_finding();
}
