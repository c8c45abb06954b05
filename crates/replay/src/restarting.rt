// The disk on which an event was begun is powered off, and its party is opened again and put back in its place.
ghost use Rattle.std.specs.Prelude.{◌≡◌, ◌⊎◌, ◌<◌, ℕ, Option, Err, IfOk, IfErr};
ghost use Rattle.x_base.specs.Edge.{Rose};
ghost use Rattle.party_state.specs.declared.command.Input.{Input as TheInput};
ghost use Rattle.key_store.specs.Store.{Stored};
ghost use Rattle.open_parties.specs.Around.{ShelfStays};
ghost use Rattle.open_parties.specs.Closing.{AnyFaulty};
ghost use Rattle.open_parties.specs.Crash.{IsHeldAgain, disk_begun};
ghost use Rattle.replay.specs.Events.{Begins, IsStopLeft, IsStoppedIn};
ghost use Rattle.open_parties.specs.OpenParties.{IsEmptyAt};

use course::Stop;
use open_parties::{
    Expected, FailedPartyDisk, Failure, OpenParties, PartyDisk, put_back_and_fetch, restart,
};
use std::alloc::Global;
use x_base::Ident;
use x_disk::Shelf;

/// The party that was taken out is opened again on the disk on which its event was begun, once the power went; whether
/// the party after the event stands. Over a disk that tells nothing another one may be found, which is damage.
pub(crate) fn reopen<H: Shelf>(
    parties: &mut OpenParties<H::Disk>,
    place: usize,
    own: &Ident,
    shelf: &mut H,
    alloc: Global,
    begun: Result<H::Disk, FailedPartyDisk<H::Disk>>,
    expected: &Expected,
    stop: Stop,
) -> Result<bool, Failure>
    requires empty { IsEmptyAt parties.old place }
    requires slot { H.has_slot shelf.old own.now }
    requires shown { IfErr begun (λ failed_disk. failed_disk.why ≡ Failure.Fault → 0 < (H.Disk.told failed_disk.disk).faults) }
    ensures stopped { IfOk result (λ next. (node : Stored H.Disk) (i : Option TheInput) (moment : ℕ) → Begins H.Disk.told node i moment stop.n expected.now begun
        → IsStoppedIn H.Disk.told parties.old parties.new place node i moment stop (H.faults shelf.old) (H.faults shelf.new) next) }
    ensures left { IfErr result (λ why. (node : Stored H.Disk) (i : Option TheInput) (moment : ℕ) → Begins H.Disk.told node i moment stop.n expected.now begun
        → IsStopLeft H.Disk.told (H.entry shelf.new own.now) parties.old parties.new place node i moment why) }
    ensures fault { result ≡ Err Failure.Fault → Rose (H.faults shelf.old) (H.faults shelf.new) ⊎ AnyFaulty H.Disk.told parties.new }
    ensures crash { IsHeldAgain H.Disk.told (H.entry shelf.new own.now) (H.Disk.told (disk_begun begun)) (H.Disk.told (disk_begun begun)).may_leave parties.old parties.new place }
    ensures shelf { ShelfStays own.now (H.entry shelf.old) (H.entry shelf.new) (H.has_slot shelf.old) (H.has_slot shelf.new) (H.faults shelf.old) (H.faults shelf.new) }
{
    let disk = match begun {
        Ok(disk) => disk,
        Err(FailedPartyDisk { disk, why }) => {
            parties.put_in(place, PartyDisk::Closed(disk));
            return Err(why);
        }
    };
    let disk = put_back_and_fetch(shelf, own, disk)?;
    match restart(disk, alloc, stop.choice) {
        Ok(node) => {
            let is_after = expected.is_after(&node);
            let is_expected = expected.holds(&node, is_after);
            parties.put_in(place, PartyDisk::Open(node));
            if !is_expected {
                return Err(Failure::Damaged(0));
            }
            Ok(is_after)
        }
        Err(FailedPartyDisk { disk, why }) => {
            parties.put_in(place, PartyDisk::Closed(disk));
            Err(why)
        }
    }
}
