// A turn over two disks one of which fails, and the loss of one.
use crate::bank::without_power;
use crate::counts;
use crate::pairs::{Owners, arrived, read_owners, shelf_of, show};
use crate::turn_ends::{Shown, TurnEnd, Which, replied, seen, stopped};
use disk_pair::Disks;
use mirror_store::{Mirror, PairTurn, PairUnmade};
use party_state::Input;
use std::alloc::Global;
use x_base::NoMemory;
use x_disk::{Disk, DiskErr, Fused, MemoryShelf, Shelf, TornDisk};

/// The disks afterwards, and what became of the turn.
fn ended<D: Disk>(turn: PairTurn<D>) -> (Disks<D>, TurnEnd) {
    match turn {
        PairTurn::Done { mirror, reply, .. } => (mirror.into_disks(), replied(reply)),
        PairTurn::Refused { mirror, .. } => (mirror.into_disks(), TurnEnd::Otherwise),
        PairTurn::Broken(PairUnmade { disks, cause }) => (disks, stopped(cause)),
        PairTurn::NoMemory(mirror) => (mirror.into_disks(), TurnEnd::Otherwise),
    }
}

/// Opens the pair, and gives it its turn.
fn turned<D: Disk>(alloc: Global, disks: Disks<D>, input: &Input) -> (Disks<D>, TurnEnd) {
    match Mirror::open_pair(alloc, disks) {
        Ok(mirror) => ended(mirror.turn(alloc, input, 0)),
        Err(PairUnmade { disks, cause }) => (disks, stopped(cause)),
    }
}

/// A row: the disk that fails, the one that is lost then, and the choice of the power-off.
#[derive(Clone, Copy)]
struct Stop {
    fails: Which,
    lost: Which,
    choice: u64,
}

/// The disks, of which one fails after so many calls.
fn fused(disks: Disks<TornDisk>, fails: Which, calls: u64) -> Disks<Fused<TornDisk>> {
    let (first, second) = match fails {
        Which::First => (calls, u64::MAX),
        Which::Second => (u64::MAX, calls),
    };
    Disks {
        first: Fused::new(disks.first, first),
        second: Fused::new(disks.second, second),
    }
}

/// The disk behind the failure of its power, or an empty one, where it is lost.
fn left(
    alloc: Global,
    failing: Fused<TornDisk>,
    is_lost: bool,
    choice: u64,
) -> Result<TornDisk, DiskErr> {
    if is_lost {
        return Ok(TornDisk::new(alloc, 0)?);
    }
    without_power(failing.into_inner(), choice)
}

fn fetch(shelf: &mut MemoryShelf, owners: &Owners) -> Result<Disks<TornDisk>, DiskErr> {
    let first = shelf.fetch(&owners.own)?;
    let second = shelf.fetch(&owners.mirror)?;
    Ok(Disks { first, second })
}

/// Puts the disks back behind the failure of their power, and an empty one in place of the one that is lost.
fn put_back(
    alloc: Global,
    shelf: &mut MemoryShelf,
    owners: &Owners,
    stop: Stop,
    disks: Disks<Fused<TornDisk>>,
) -> Result<(), DiskErr> {
    let is_first = stop.lost == Which::First;
    let first = left(alloc, disks.first, is_first, stop.choice)?;
    let second = left(alloc, disks.second, !is_first, stop.choice)?;
    shelf.put_back(&owners.own, first)?;
    shelf.put_back(&owners.mirror, second)
}

/// What became of the turn on this shelf, where the one disk fails after so many calls. The disks are put back, one of them lost.
fn stopped_turn(
    alloc: Global,
    shelf: &mut MemoryShelf,
    owners: &Owners,
    input: &Input,
    stop: Stop,
    calls: u64,
) -> Result<TurnEnd, DiskErr> {
    let disks = fused(fetch(shelf, owners)?, stop.fails, calls);
    let (disks, end) = turned(alloc, disks, input);
    put_back(alloc, shelf, owners, stop, disks)?;
    Ok(end)
}

/// What became of the turn, and of which party the pair is shown then.
fn stop_at(
    alloc: Global,
    owners: &Owners,
    input: &Input,
    stop: Stop,
    calls: u64,
) -> Result<(TurnEnd, Shown), DiskErr> {
    let mut shelf = shelf_of(alloc, owners)?;
    let end = stopped_turn(alloc, &mut shelf, owners, input, stop, calls)?;
    Ok((end, seen(show(alloc, &mut shelf, owners))))
}

/// How many stops leave the party as it is to be, where the one disk fails after more and more calls, fewer than 60, until the
/// turn is done. Nothing where there is no stop, or where something else comes, as the old party behind a reply.
fn stops_of(
    alloc: Global,
    owners: &Owners,
    input: &Input,
    stop: Stop,
) -> Result<Option<u64>, DiskErr> {
    let mut after: u64 = 0;
    for calls in 0..60 {
        match stop_at(alloc, owners, input, stop, calls)? {
            (TurnEnd::Replied, Shown::New) if calls > 0 => return Ok(Some(after)),
            (TurnEnd::Stopped, Shown::New) => after = after.saturating_add(1),
            (TurnEnd::Stopped, Shown::Old) => {}
            _ => return Ok(None),
        }
    }
    Ok(None)
}

/// How many stops of BANKB's turn with its message leave the party as it is to be.
fn stops(alloc: Global, stop: Stop) -> Result<Option<u64>, DiskErr> {
    let owners = read_owners()?;
    let input = arrived(alloc)?;
    stops_of(alloc, &owners, &input, stop)
}

/// What is told of a turn where one disk fails and one is lost, with this choice of the power-off.
pub(crate) fn told(alloc: Global, disks: &str, choice: u64) -> Result<String, NoMemory> {
    let (fails, lost) = disks.split_once(" ").unwrap_or((disks, ""));
    let (Some(fails), Some(lost)) = (Which::read(fails), Which::read(lost)) else {
        return Ok(String::from_str(alloc, "no disks")?);
    };
    let stop = Stop {
        fails,
        lost,
        choice,
    };
    let stops = stops(alloc, stop).unwrap_or(None);
    counts::told(alloc, stops, choice < 2 || fails == lost)
}
