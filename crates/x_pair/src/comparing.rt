// The two disks of a party are compared.
ghost use Rattle.std.specs.Prelude.{◌≡◌, ◌≢◌};
ghost use Rattle.x_pair.specs.Comparisons.{GivesDueLikeness, LeavesCompared, TellsLikeness};
ghost use Rattle.x_pair.specs.Looking.{HasCompared, IsBesideBlank, IsBesideParty, IsFound, IsLikenessOf, IsTold, failed_as, found_disk, found_with, like_of};

use crate::found::Found;
use crate::likeness::{Compared, Likeness};
use disk_pair::{Disks, fetch_two, put_back_two};
use key_journal::{Cause, Unmade};
use key_store::law_one_finding;
use mirror_store::{Comparison, compare};
use node_core::Node;
use party_state::State;
use std::alloc::Global;
use x_base::Ident;
use x_disk::{Disk, DiskErr, Shelf};

/// What is found on a disk of which no party is opened. No opening tells that a disk isn't empty, but of a file that changes by
/// itself.
fn found_with<D: Disk>(disk: D, cause: Cause) -> Found<D>
    ensures { result ≡ found_with disk cause }
{
    match cause {
        Cause::Blank => Found::Blank(disk),
        Cause::NotEmpty => Found::Damaged(disk, 0),
        Cause::Damaged(place) => Found::Damaged(disk, place),
        Cause::Fault => Found::Fault(disk),
        Cause::NoMemory => Found::NoMemory(disk),
    }
}

/// Opens a disk, and writes nothing.
fn look<D: Disk>(alloc: Global, disk: D) -> Found<D>
    ensures { IsFound D.told disk result }
{
    match Node::open_from(alloc, disk) {
        Ok(node) => Found::Party(node),
        Err(Unmade { disk, cause }) => found_with(disk, cause),
    }
}

/// The disk.
fn disk_of<D: Disk>(found: Found<D>) -> D
    ensures { result ≡ found_disk found }
{
    match found {
        Found::Party(node) => node.into_disk(),
        Found::Blank(disk) => disk,
        Found::Damaged(disk, _) => disk,
        Found::Fault(disk) => disk,
        Found::NoMemory(disk) => disk,
    }
}

fn like(comparison: Comparison) -> Likeness
    ensures { result ≡ like_of comparison }
{
    match comparison {
        Comparison::Same => Likeness::Same,
        Comparison::FirstAhead => Likeness::FirstAhead,
        Comparison::SecondAhead => Likeness::SecondAhead,
        Comparison::Neither => Likeness::Neither,
    }
}

/// What two states of parties are to one another.
fn of_parties(one: &State, two: &State) -> Likeness
    ensures { IsLikenessOf one.now two.now result }
{
    let own = one.own();
    let other = two.own();
    if own != other {
        return Likeness::OtherParty;
    }
    let comparison = compare(one, two);
    like(comparison)
}

/// What is told where the first disk is blank.
fn beside_blank<D: Disk>(two: &Found<D>) -> Compared
    ensures { IsBesideBlank two.now result }
{
    match two {
        Found::Party(_) => Compared::Done(Likeness::FirstBlank),
        Found::Blank(_) => Compared::Done(Likeness::BothBlank),
        Found::Damaged(_, place) => Compared::Done(Likeness::SecondDamaged(*place)),
        Found::Fault(_) => Compared::Fault,
        Found::NoMemory(_) => Compared::NoMemory,
    }
}

/// What is told where it stands for a party.
fn beside_party<D: Disk>(one: &State, two: &Found<D>) -> Compared
    ensures { IsBesideParty one.now two.now result }
{
    match two {
        Found::Party(two) => Compared::Done(of_parties(one, two.view())),
        Found::Blank(_) => Compared::Done(Likeness::SecondBlank),
        Found::Damaged(_, place) => Compared::Done(Likeness::SecondDamaged(*place)),
        Found::Fault(_) => Compared::Fault,
        Found::NoMemory(_) => Compared::NoMemory,
    }
}

/// What is told of two disks.
fn told<D: Disk>(one: &Found<D>, two: &Found<D>) -> Compared
    ensures { IsTold one.now two.now result }
{
    match one {
        Found::Party(one) => beside_party(one.view(), two),
        Found::Blank(_) => beside_blank(two),
        Found::Damaged(_, place) => Compared::Done(Likeness::FirstDamaged(*place)),
        Found::Fault(_) => Compared::Fault,
        Found::NoMemory(_) => Compared::NoMemory,
    }
}

fn compare_over<D: Disk>(alloc: Global, disks: Disks<D>) -> (Disks<D>, Compared)
    ensures { HasCompared D.told disks result.0 result.1 }
{
    let Disks { first, second } = disks;
    let one = look(alloc, first);
    let two = look(alloc, second);
    let compared = told(&one, &two);
    let first = disk_of(one);
    let second = disk_of(two);
    (Disks { first, second }, compared)
}

/// A failure of the shelf.
fn failed(cause: DiskErr) -> Compared
    ensures { result ≡ failed_as cause }
{
    match cause {
        DiskErr::Fault => Compared::Fault,
        DiskErr::NoMemory => Compared::NoMemory,
    }
}

/// Says what the two disks of a party are to one another: each is opened alone, and nothing is written. Both are put back,
/// whatever comes.
pub fn compare_pair<H: Shelf>(
    alloc: Global,
    shelf: &mut H,
    name: &Ident,
    mirror: &Ident,
) -> Compared
    requires { name.now ≢ mirror.now }
    ensures tells { TellsLikeness (H.entry shelf.old name.now) (H.entry shelf.old mirror.now) result }
    ensures due { GivesDueLikeness (H.entry shelf.old name.now) (H.entry shelf.old mirror.now) result }
    ensures shelf { LeavesCompared name.now mirror.now result (H.is_back shelf.new name.now) (H.is_back shelf.new mirror.now) (H.entry shelf.old) (H.entry shelf.new) (H.faults shelf.old) (H.faults shelf.new) }
{
    law_one_finding();
    let disks = match fetch_two(shelf, name, mirror) {
        Ok(disks) => disks,
        Err(cause) => return failed(cause),
    };
    let (disks, compared) = compare_over(alloc, disks);
    match put_back_two(shelf, name, mirror, disks) {
        Ok(()) => compared,
        Err(cause) => failed(cause),
    }
}
