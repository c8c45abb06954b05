// Every disk is put back.
ghost use Rattle.std.specs.Prelude.{◌≡◌, ◌<◌, ◌≤◌, ℕ, Err};
ghost use Rattle.x_base.specs.Edge.{Rose};
ghost use Rattle.x_disk.specs.Shelf.{IsAlike};
ghost use Rattle.open_parties.specs.Around.{IsPut};
ghost use Rattle.open_parties.specs.Closing.{IsBack, AllBack, OtherDisksStay, AllSlots, AreApart, IsFaulty, AnyFaulty};
ghost use Rattle.open_parties.specs.OpenParties.{owners};

use crate::failure::Failure;
use crate::open_parties::OpenParties;
use crate::open_party::{OpenParty, PartyDisk};
use x_base::Ident;
use x_disk::{DiskErr, Shelf};

/// Puts a disk back.
pub fn put_disk<H: Shelf>(shelf: &mut H, own: &Ident, disk: H::Disk) -> Result<(), Failure>
    requires { H.has_slot shelf.old own.now }
    ensures back { IsAlike (H.Disk.told disk) (H.entry shelf.new own.now) }
    ensures seen { 0 < (H.Disk.told disk).faults → Rose (H.faults shelf.old) (H.faults shelf.new) }
    ensures put { IsPut own.now (H.entry shelf.old) (H.entry shelf.new) (H.has_slot shelf.old) (H.has_slot shelf.new) (H.faults shelf.old) (H.faults shelf.new) result }
{
    match shelf.put_back(own, disk) {
        Ok(()) => Ok(()),
        Err(DiskErr::Fault) => Err(Failure::Fault),
        Err(DiskErr::NoMemory) => Err(Failure::NoMemory),
    }
}

/// Puts back what is held of a party.
pub(crate) fn put_party<H: Shelf>(
    shelf: &mut H,
    open_party: OpenParty<H::Disk>,
) -> Result<(), Failure>
    requires { H.has_slot shelf.old open_party.own }
    ensures back { IsBack H.Disk.told (H.entry shelf.old) (H.entry shelf.new) open_party.own open_party.held }
    ensures seen { IsFaulty H.Disk.told open_party.held → Rose (H.faults shelf.old) (H.faults shelf.new) }
    ensures put { IsPut open_party.own (H.entry shelf.old) (H.entry shelf.new) (H.has_slot shelf.old) (H.has_slot shelf.new) (H.faults shelf.old) (H.faults shelf.new) result }
{
    let OpenParty { own, held } = open_party;
    match held {
        PartyDisk::Open(node) => {
            node.view();
            put_disk(shelf, &own, node.into_disk())
        }
        PartyDisk::Closed(disk) => put_disk(shelf, &own, disk),
        PartyDisk::Away => Ok(()),
    }
}

/// Puts back what is held of every party, whatever comes. The last error is answered.
pub fn put_back_all<H: Shelf>(shelf: &mut H, parties: OpenParties<H::Disk>) -> Result<(), Failure>
    requires slots { AllSlots (H.has_slot shelf.old) (owners parties) }
    requires apart { AreApart parties }
    ensures back { AllBack H.Disk.told (H.entry shelf.old) (H.entry shelf.new) parties }
    ensures others { OtherDisksStay (H.entry shelf.old) (H.entry shelf.new) parties }
    ensures seen { AnyFaulty H.Disk.told parties → Rose (H.faults shelf.old) (H.faults shelf.new) }
    ensures fault { result ≡ Err Failure.Fault → Rose (H.faults shelf.old) (H.faults shelf.new) }
    ensures undamaged { (place : ℕ) → result ≡ Err (Failure.Damaged place) → ⊥ }
    ensures later { H.faults shelf.old ≤ H.faults shelf.new }
{
    let mut left = parties.into_parties();
    let mut outcome = Ok(());
    'closing: while let Some(open_party) = left.pop() {
        match put_party(shelf, open_party) {
            Ok(()) => {}
            Err(why) => outcome = Err(why),
        }
    }
    outcome
}
