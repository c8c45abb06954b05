// The parties of a scenario are set up on the disks of a shelf, and held open.
ghost use Rattle.std.specs.Prelude.{◌≡◌, ◌≤◌, ◌<◌, ◌⊎◌, ℕ, List, Contains, Err, IfOk, IfErr, IfSome, OnOk};
ghost use Rattle.x_base.specs.Edge.{Rose};
ghost use Rattle.x_disk.specs.Disk.{Tells};
ghost use Rattle.x_disk.specs.Shelf.{IsAlike, SlotsStay};
ghost use Rattle.scenario.specs.Behind.{EachBehind};
ghost use Rattle.scenario.specs.Rules.{may_follow};
ghost use Rattle.open_parties.specs.Around.{ShelfStays};
ghost use Rattle.open_parties.specs.Closing.{AllBack, AllSlots, AreApart, OtherDisksStay};
ghost use Rattle.open_parties.specs.OpenParties.{NoneOf, owners};
ghost use Rattle.course.specs.Starts.{loads_of};
ghost use Rattle.course.specs.Parties.{new_party, parties_in, new_member, full_member};
ghost use Rattle.replay.specs.SettingUp.{AllTell, IsSetUp, BeginsOnly, IsFailedSetUp, IsOrFails, AddsNext, FailsSetUpNext, SetsUpOnly, AreSetUp, IsSetUpEnd};

use crate::making::{FailedSetUp, SetUpEnd, make};
use course::{NewParty, new_party};
use node_core::Node;
use open_parties::{Failure, OpenParties, PartyDisk, failure_of, put_back_all, put_disk};
use scenario::{Line, Scenario};
use std::alloc::Global;
use x_base::Ident;
use x_disk::Shelf;

/// Puts a disk back on which no party is set up. An error of that comes in place of the end.
fn put_failed_set_up<H: Shelf>(
    shelf: &mut H,
    own: &Ident,
    failed_set_up: FailedSetUp<H::Disk>,
) -> SetUpEnd
    requires slot { H.has_slot shelf.old own.now }
    requires faulty { failed_set_up.why ≡ SetUpEnd.Failed Failure.Fault → 0 < (H.Disk.told failed_set_up.disk).faults }
    ensures back { IsAlike (H.Disk.told failed_set_up.disk) (H.entry shelf.new own.now) }
    ensures end { IsOrFails failed_set_up.why result }
    ensures fault { result ≡ SetUpEnd.Failed Failure.Fault → Rose (H.faults shelf.old) (H.faults shelf.new) }
    ensures shelf { ShelfStays own.now (H.entry shelf.old) (H.entry shelf.new) (H.has_slot shelf.old) (H.has_slot shelf.new) (H.faults shelf.old) (H.faults shelf.new) }
{
    let FailedSetUp { disk, why } = failed_set_up;
    match put_disk(shelf, own, disk) {
        Ok(()) => why,
        Err(failure) => SetUpEnd::Failed(failure),
    }
}

/// Makes a party on its disk. Where that fails, the disk is put back.
fn make_at<H: Shelf>(
    shelf: &mut H,
    alloc: Global,
    lines: &[Line],
    party: &NewParty,
) -> Result<Node<H::Disk>, SetUpEnd>
    requires rules { EachBehind may_follow lines.now }
    ensures made { IfOk result (λ node. IsSetUp H.Disk.told (H.entry shelf.old party.now.own) (full_member lines.now party.now) node) }
    ensures any_moment { IfOk result (λ node. BeginsOnly (H.entry shelf.old party.now.own) (H.Disk.told node.disk) (new_member party.now) (loads_of party.now.own lines.now)) }
    ensures left { IfErr result (λ why. BeginsOnly (H.entry shelf.old party.now.own) (H.entry shelf.new party.now.own) (new_member party.now) (loads_of party.now.own lines.now)) }
    ensures failed_set_up { IfErr result (λ why. Tells (H.entry shelf.old party.now.own) → IsFailedSetUp (H.entry shelf.old party.now.own) (H.entry shelf.new party.now.own) (new_member party.now) (loads_of party.now.own lines.now) why) }
    ensures fault { result ≡ Err (SetUpEnd.Failed Failure.Fault) → Rose (H.faults shelf.old) (H.faults shelf.new) }
    ensures slot { OnOk result (H.has_slot shelf.new party.now.own) }
    ensures shelf { ShelfStays party.now.own (H.entry shelf.old) (H.entry shelf.new) (H.has_slot shelf.old) (H.has_slot shelf.new) (H.faults shelf.old) (H.faults shelf.new) }
{
    let disk = match shelf.fetch(&party.own) {
        Ok(disk) => disk,
        Err(error) => return Err(SetUpEnd::Failed(failure_of(error))),
    };
    match make(disk, alloc, lines, party) {
        Ok(node) => Ok(node),
        Err(failed_set_up) => Err(put_failed_set_up(shelf, &party.own, failed_set_up)),
    }
}

/// The party that a line declares is added behind the others.
fn add_next<H: Shelf>(
    shelf: &mut H,
    alloc: Global,
    lines: &[Line],
    line: &Line,
    parties: &mut OpenParties<H::Disk>,
) -> Result<(), SetUpEnd>
    requires rules { EachBehind may_follow lines.now }
    requires apart { IfSome (new_party line.now) (λ p. NoneOf parties.old p.own) }
    ensures all_open { OnOk result (AddsNext H.Disk.told lines.now (new_party line.now) (H.entry shelf.old) (H.entry shelf.new) (H.has_slot shelf.new) parties.old parties.new) }
    ensures failed_set_up { IfErr result (λ why. FailsSetUpNext lines.now (new_party line.now) (H.entry shelf.old) (H.entry shelf.new) why) }
    ensures same { IfErr result (λ why. parties.new ≡ parties.old) }
    ensures fault { result ≡ Err (SetUpEnd.Failed Failure.Fault) → Rose (H.faults shelf.old) (H.faults shelf.new) }
    ensures slots { SlotsStay (H.has_slot shelf.old) (H.has_slot shelf.new) }
    ensures later { H.faults shelf.old ≤ H.faults shelf.new }
{
    let Some(party) = new_party(line) else {
        return Ok(());
    };
    let place = parties.len();
    match parties.add(party.own) {
        Ok(()) => {}
        Err(_) => return Err(SetUpEnd::Failed(Failure::NoMemory)),
    }
    match make_at(shelf, alloc, lines, &party) {
        Ok(node) => {
            parties.put_in(place, PartyDisk::Open(node));
            Ok(())
        }
        Err(why) => {
            parties.drop_last();
            Err(why)
        }
    }
}

/// Puts the disks of the parties that are set up back. An error of that comes in place of the end.
fn end_all<H: Shelf>(shelf: &mut H, parties: OpenParties<H::Disk>, why: SetUpEnd) -> SetUpEnd
    requires slots { AllSlots (H.has_slot shelf.old) (owners parties) }
    requires apart { AreApart parties }
    ensures back { AllBack H.Disk.told (H.entry shelf.old) (H.entry shelf.new) parties }
    ensures others { OtherDisksStay (H.entry shelf.old) (H.entry shelf.new) parties }
    ensures end { IsOrFails why result }
    ensures fault { result ≡ SetUpEnd.Failed Failure.Fault → (why ≡ SetUpEnd.Failed Failure.Fault) ⊎ Rose (H.faults shelf.old) (H.faults shelf.new) }
    ensures later { H.faults shelf.old ≤ H.faults shelf.new }
{
    match put_back_all(shelf, parties) {
        Ok(()) => why,
        Err(failure) => SetUpEnd::Failed(failure),
    }
}

/// Sets the parties of a scenario up on their disks, with the links that its lines load. Where that fails, all disks are
/// put back.
pub(crate) fn set_up<H: Shelf>(
    shelf: &mut H,
    alloc: Global,
    scenario: &Scenario,
) -> Result<OpenParties<H::Disk>, SetUpEnd>
    ensures set_up { IfOk result (λ parties. AreSetUp H.Disk.told scenario.now scenario.now (H.entry shelf.old) (H.entry shelf.new) (H.has_slot shelf.new) parties) }
    ensures any_moment { IfErr result (λ why. AllTell (H.entry shelf.old) (parties_in scenario.now) → (own : List ℕ) → SetsUpOnly scenario.now own (H.entry shelf.old own) (H.entry shelf.new own)) }
    ensures ended { IfErr result (λ why. AllTell (H.entry shelf.old) (parties_in scenario.now) → IsSetUpEnd scenario.now (H.entry shelf.old) (H.entry shelf.new) why) }
    ensures others { (own : List ℕ) → (Contains (parties_in scenario.now) own → ⊥) → IsAlike (H.entry shelf.old own) (H.entry shelf.new own) }
    ensures fault { result ≡ Err (SetUpEnd.Failed Failure.Fault) → Rose (H.faults shelf.old) (H.faults shelf.new) }
    ensures later { H.faults shelf.old ≤ H.faults shelf.new }
{
    let lines = scenario.lines();
    let mut parties = OpenParties::new(alloc);
    for line in lines {
        match add_next(shelf, alloc, lines, line, &mut parties) {
            Ok(()) => {}
            Err(why) => return Err(end_all(shelf, parties, why)),
        }
    }
    Ok(parties)
}
