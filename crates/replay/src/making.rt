// A party is made on its disk, with the links that a scenario loads at it.
ghost use Rattle.std.specs.Prelude.{◌≡◌, ◌≤◌, ◌⊎◌, List, [], ◌∷◌, option_to_list, IfOk, IfErr};
ghost use Rattle.key_journal.specs.Opening.{IsFree};
ghost use Rattle.party_tables.specs.Ranges.{IsNextCount};
ghost use Rattle.key_store.specs.Store.{space};
ghost use Rattle.scenario.specs.Behind.{EachBehind};
ghost use Rattle.scenario.specs.Rules.{may_follow};
ghost use Rattle.node_core.specs.Turns.{member_of};
ghost use Rattle.course.specs.Starts.{load_at, loads_of};
ghost use Rattle.course.specs.Parties.{new_member, full_member};
ghost use Rattle.replay.specs.SettingUp.{least_room, HasPlace, CanLoad, HasBegun, IsLoad, IsLoadOrSame, IsLoadedTo, IsPartlyLoaded, IsSetUp, BeginsOnly, IsFailedSetUpDisk, EndsBy};

use change_code::law_short_code;
use course::{NewParty, is_head, load_at};
use key_journal::{Cause, Unmade};
use key_store::{Kept, Store};
use node_core::Node;
use open_parties::{FailedPartyDisk, Failure, failure_by, failure_of};
use party_state::{Change, Edit, LinkRec};
use scenario::Line;
use std::alloc::Global;
use x_base::Ident;
use x_disk::Disk;

/// Why a set-up ends early.
#[derive(Clone, Copy)]
pub(crate) enum SetUpEnd {
    /// A disk isn't blank.
    NotEmpty,
    Failed(Failure),
}

/// A disk on which no party is set up, and why.
#[derive(Drop)]
pub(crate) struct FailedSetUp<D: Disk> {
    pub(crate) disk: D,
    pub(crate) why: SetUpEnd,
}

/// Why no party begins on a disk.
fn set_up_end_of(cause: Cause) -> SetUpEnd
    requires { IsFree cause ⊎ (cause ≡ Cause.NotEmpty) }
    ensures { EndsBy cause result }
{
    match cause {
        Cause::NotEmpty => SetUpEnd::NotEmpty,
        Cause::Fault => SetUpEnd::Failed(Failure::Fault),
        Cause::NoMemory => SetUpEnd::Failed(Failure::NoMemory),
        Cause::Blank | Cause::Damaged(_) => unreachable!(),
    }
}

/// A party begins on a disk, which has to be blank. The disk is synced first, so that a crash leaves what a read gives.
fn begin_party<D: Disk>(
    disk: D,
    alloc: Global,
    party: &NewParty,
) -> Result<Store<D>, FailedSetUp<D>>
    ensures begun { IfOk result (λ store. HasBegun D.told (D.told disk) party.now store) }
    ensures any_moment { IfOk result (λ store. (loads : List LinkRec) → BeginsOnly (D.told disk) (D.told store.disk) (new_member party.now) loads) }
    ensures failed_set_up { IfErr result (λ u. (loads : List LinkRec) → IsFailedSetUpDisk (D.told disk) (D.told u.disk) (new_member party.now) loads u.why) }
{
    party.own.bytes();
    let mut disk = disk;
    match disk.sync() {
        Ok(()) => {}
        Err(error) => {
            return Err(FailedSetUp {
                disk,
                why: SetUpEnd::Failed(failure_of(error)),
            });
        }
    }
    match Store::create(alloc, disk, party.own, party.role, party.generator) {
        Ok(store) => Ok(store),
        Err(Unmade { disk, cause }) => Err(FailedSetUp {
            disk,
            why: set_up_end_of(cause),
        }),
    }
}

/// Loads a link, as a frame of its own.
fn load_link<D: Disk>(
    store: Store<D>,
    alloc: Global,
    link: LinkRec,
) -> Result<Store<D>, FailedPartyDisk<D>>
    requires next { IsNextCount link.next }
    requires place { HasPlace store }
    ensures load { IfOk result (λ s. IsLoad D.told store s link) }
    ensures failed_disk { IfErr result (λ failed_disk. IsPartlyLoaded (D.told store.disk) (D.told failed_disk.disk) (member_of store) (link ∷ []) failed_disk.why) }
{
    store.view();
    link.peer.bytes();
    link.label.bytes();
    let mut change = Change::new(alloc);
    match change.push(Edit::PutLink(link)) {
        Ok(()) => {}
        Err(_) => {
            return Err(FailedPartyDisk {
                disk: store.into_disk(),
                why: Failure::NoMemory,
            });
        }
    }
    law_short_code(store.format(), &change);
    match store.keep(alloc, change) {
        Kept::Done(store) => Ok(store),
        Kept::Full(_) => unreachable!(),
        Kept::NoMemory(store) => Err(FailedPartyDisk {
            disk: store.into_disk(),
            why: Failure::NoMemory,
        }),
        Kept::Broken(broken) => {
            let Unmade { disk, cause } = broken.give_up();
            Err(FailedPartyDisk {
                disk,
                why: failure_by(cause),
            })
        }
    }
}

/// Loads the link that a line loads at a party, if it does.
fn load_line<D: Disk>(
    store: Store<D>,
    alloc: Global,
    own: &Ident,
    line: &Line,
) -> Result<Store<D>, FailedPartyDisk<D>>
    requires { CanLoad store (load_at own.now line.now) }
    ensures load { IfOk result (λ s. IsLoadOrSame D.told store s (load_at own.now line.now)) }
    ensures failed_disk { IfErr result (λ failed_disk. IsPartlyLoaded (D.told store.disk) (D.told failed_disk.disk) (member_of store) (option_to_list (load_at own.now line.now)) failed_disk.why) }
{
    match load_at(own, line) {
        Some(link) => load_link(store, alloc, link),
        None => Ok(store),
    }
}

/// Loads the links that the lines load at a party, in their order.
fn load_links<D: Disk>(
    store: Store<D>,
    alloc: Global,
    own: &Ident,
    lines: &[Line],
) -> Result<Store<D>, FailedPartyDisk<D>>
    requires rules { EachBehind may_follow lines.now }
    requires none { store.party.links ≡ [] }
    requires room { least_room ≤ (space store).room }
    ensures loaded { IfOk result (λ s. IsLoadedTo D.told store s (loads_of own.now lines.now)) }
    ensures failed_disk { IfErr result (λ failed_disk. IsPartlyLoaded (D.told store.disk) (D.told failed_disk.disk) (member_of store) (loads_of own.now lines.now) failed_disk.why) }
{
    store.view();
    let mut loaded = store;
    for line in lines {
        if !is_head(line) {
            return Ok(loaded);
        }
        loaded = load_line(loaded, alloc, own, line)?;
    }
    Ok(loaded)
}

/// A party is made on a disk, with the links that the lines load at it.
pub(crate) fn make<D: Disk>(
    disk: D,
    alloc: Global,
    lines: &[Line],
    party: &NewParty,
) -> Result<Node<D>, FailedSetUp<D>>
    requires rules { EachBehind may_follow lines.now }
    ensures made { IfOk result (λ node. IsSetUp D.told (D.told disk) (full_member lines.now party.now) node) }
    ensures any_moment { IfOk result (λ node. BeginsOnly (D.told disk) (D.told node.disk) (new_member party.now) (loads_of party.now.own lines.now)) }
    ensures failed_set_up { IfErr result (λ u. IsFailedSetUpDisk (D.told disk) (D.told u.disk) (new_member party.now) (loads_of party.now.own lines.now) u.why) }
{
    let store = begin_party(disk, alloc, party)?;
    match load_links(store, alloc, &party.own, lines) {
        Ok(loaded) => Ok(Node::of(loaded)),
        Err(FailedPartyDisk { disk, why }) => Err(FailedSetUp {
            disk,
            why: SetUpEnd::Failed(why),
        }),
    }
}
