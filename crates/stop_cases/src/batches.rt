// A batch whose party's disk, or whose spool's, fails.
use crate::bank::{LOADED, disk_of, without_power};
use csm_batch::Batch;
use csm_spool::{Driven, begin, drive};
use key_journal::Unmade;
use node_core::Node;
use spool_store::Unbegun;
use std::alloc::Global;
use x_base::{NoMemory, Text};
use x_disk::{Disk, Fused, TornDisk};

/// BANKA's first key for BANKB, three times. The batch and its outbox were written outside of this repository.
const BATCH: &str =
    "0 43534D284D434C2F4B534D205243562F42414E4B42204F52472F42414E4B412049444B322F4B31204B442F43324135323930373536443934394634204354502F31204D41432F384632373043433629\n\
    0 43534D284D434C2F4B534D205243562F42414E4B42204F52472F42414E4B412049444B322F4B31204B442F43324135323930373536443934394634204354502F31204D41432F384632373043433629\n\
    0 43534D284D434C2F4B534D205243562F42414E4B42204F52472F42414E4B412049444B322F4B31204B442F43324135323930373536443934394634204354502F31204D41432F384632373043433629\n";

const OUTBOX: &str = "E1 DONE\n\
    CSM(MCL/RSM RCV/BANKA ORG/BANKB MAC/BB510339)\n\
    E2 REFUSED 30\n\
    CSM(MCL/ESM RCV/BANKA ORG/BANKB CTP/1 CTR/2 ERF/C MAC/F6A791C9)\n\
    E3 REFUSED 30\n\
    CSM(MCL/ESM RCV/BANKA ORG/BANKB CTP/1 CTR/2 ERF/C MAC/F6A791C9)\n";

/// The two disks, and the outbox where the batch is done.
#[derive(Drop)]
struct Ended<D: Disk> {
    party: D,
    spool: D,
    outbox: Option<Text>,
}

fn end_of<D: Disk>(alloc: Global, driven: Driven<D, D>) -> Ended<D> {
    let (party, spool, outbox) = match driven {
        Driven::Done { node, spool } => {
            let outbox = spool.outbox(alloc).ok();
            (node.into_disk(), spool.into_disk(), outbox)
        }
        Driven::OutOfStep { node, spool, .. } | Driven::NoMemory { node, spool } => {
            (node.into_disk(), spool.into_disk(), None)
        }
        Driven::NodeBroken { broken, spool } => (broken.give_up().disk, spool.into_disk(), None),
        Driven::SpoolBroken { node, broken } => (node.into_disk(), broken.give_up().disk, None),
    };
    Ended {
        party,
        spool,
        outbox,
    }
}

/// Opens the party, begins the spool, and drives the batch.
fn driven<D: Disk>(alloc: Global, party: D, spool: D, batch: &Batch) -> Ended<D> {
    let node = match Node::open_from(alloc, party) {
        Ok(node) => node,
        Err(Unmade { disk, .. }) => {
            return Ended {
                party: disk,
                spool,
                outbox: None,
            };
        }
    };
    match begin(alloc, &node, spool, batch) {
        Ok(spool) => end_of(alloc, drive(alloc, node, spool)),
        Err(Unbegun { disk, .. }) => Ended {
            party: node.into_disk(),
            spool: disk,
            outbox: None,
        },
    }
}

fn is_wanted(outbox: &Option<Text>) -> bool {
    match outbox {
        Some(text) => text.bytes() == OUTBOX.as_bytes(),
        None => false,
    }
}

/// The power of both disks goes; whether the batch is done again and again, with the same outbox.
fn goes_on(
    alloc: Global,
    party: TornDisk,
    spool: TornDisk,
    batch: &Batch,
    choice: u64,
) -> Option<bool> {
    let party = without_power(party, choice).ok()?;
    let spool = without_power(spool, choice).ok()?;
    let first = driven(alloc, party, spool, batch);
    let second = driven(alloc, first.party, first.spool, batch);
    Some(is_wanted(&first.outbox) && is_wanted(&second.outbox))
}

/// Drives the batch over disks that fail after so many calls.
fn stopped(
    alloc: Global,
    batch: &Batch,
    party_calls: u64,
    spool_calls: u64,
) -> Option<Ended<TornDisk>> {
    let party = Fused::new(disk_of(alloc, LOADED)?, party_calls);
    let spool = Fused::new(TornDisk::new(alloc, 0).ok()?, spool_calls);
    let end = driven(alloc, party, spool, batch);
    Some(Ended {
        party: end.party.into_inner(),
        spool: end.spool.into_inner(),
        outbox: end.outbox,
    })
}

/// Whether the batch was done. Nothing where its outbox is another one, or where it doesn't go on to the same one.
fn is_done(alloc: Global, batch: &Batch, end: Ended<TornDisk>, choice: u64) -> Option<bool> {
    let is_done = is_wanted(&end.outbox);
    if end.outbox.is_some() != is_done {
        return None;
    }
    match goes_on(alloc, end.party, end.spool, batch, choice) {
        Some(true) => Some(is_done),
        _ => None,
    }
}

/// Whether there is a stop, and behind each the batch goes on to the same outbox, where the one disk fails after more and more
/// calls, fewer than 100, until the batch is done, and the power of both goes each time with this choice.
fn holds(alloc: Global, batch: &Batch, is_party: bool, choice: u64) -> Option<bool> {
    for calls in 0..100 {
        let end = if is_party {
            stopped(alloc, batch, calls, u64::MAX)?
        } else {
            stopped(alloc, batch, u64::MAX, calls)?
        };
        if is_done(alloc, batch, end, choice)? {
            return Some(calls > 0);
        }
    }
    None
}

/// What is told of a batch.
pub(crate) fn told(alloc: Global, failing: &str, choice: u64) -> Result<String, NoMemory> {
    let Ok(batch) = Batch::read(alloc, BATCH.as_bytes()) else {
        return Ok(String::from_str(alloc, "no batch")?);
    };
    let holding = match failing {
        "party" => holds(alloc, &batch, true, choice),
        "spool" => holds(alloc, &batch, false, choice),
        _ => None,
    };
    let told = match holding {
        Some(true) => "the same outbox",
        _ => "something else",
    };
    Ok(String::from_str(alloc, told)?)
}
