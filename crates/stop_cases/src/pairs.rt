// A bank on two disks, and a message that it takes.
use crate::bank::{LOADED, disk_of};
use csm_feed::{INPUT_LIMIT, hear};
use party_state::Input;
use std::alloc::Global;
use x_base::Ident;
use x_disk::{DiskErr, MemoryShelf, Shelf};
use x_pair::show_pair;
use x_party::Outcome;

/// BANKA's first key, which BANKB takes, and its reply.
const KSM: &str = "CSM(MCL/KSM RCV/BANKB ORG/BANKA IDK2/K1 KD/C2A5290756D949F4 CTP/1 MAC/8F270CC6)";

pub(crate) const REPLY: &str = "CSM(MCL/RSM RCV/BANKA ORG/BANKB MAC/BB510339)";

/// BANKB before it takes the key, and afterwards.
pub(crate) const OLD: &str = "PARTY BANKB BANK\nLINK BANKA K1 IN 1 READY\n";

pub(crate) const NEW: &str =
    "PARTY BANKB BANK\nLINK BANKA K1 IN 2 READY\nKEY BANKA BANKA.BANKA.K1.1 HELD\n";

/// The names of the bank's first disk, which is its own, and of its second.
#[derive(Clone, Copy)]
pub(crate) struct Owners {
    pub(crate) own: Ident,
    pub(crate) mirror: Ident,
}

fn ident(text: &[u8]) -> Result<Ident, DiskErr> {
    match Ident::read(text) {
        Ok(ident) => Ok(ident),
        Err(_) => Err(DiskErr::Fault),
    }
}

/// Those of BANKB.
pub(crate) fn read_owners() -> Result<Owners, DiskErr> {
    Ok(Owners {
        own: ident(b"BANKB")?,
        mirror: ident(b"MIRB")?,
    })
}

/// The message as what arrives.
pub(crate) fn arrived(alloc: Global) -> Result<Input, DiskErr> {
    let text = KSM.as_bytes();
    if text.len() > INPUT_LIMIT {
        return Err(DiskErr::Fault);
    }
    match hear(alloc, text)? {
        Ok(arrival) => Ok(Input::Arrived(arrival)),
        Err(_) => Err(DiskErr::Fault),
    }
}

/// What is shown of the pair, which is made equal then.
pub(crate) fn show(alloc: Global, shelf: &mut MemoryShelf, owners: &Owners) -> Outcome {
    if owners.own == owners.mirror {
        return Outcome::Fault;
    }
    show_pair(alloc, shelf, &owners.own, &owners.mirror)
}

/// A shelf with BANKB on two disks, before it takes the key.
pub(crate) fn shelf_of(alloc: Global, owners: &Owners) -> Result<MemoryShelf, DiskErr> {
    let mut shelf = MemoryShelf::new(alloc);
    let Some(disk) = disk_of(alloc, LOADED) else {
        return Err(DiskErr::NoMemory);
    };
    shelf.put_back(&owners.own, disk)?;
    match show(alloc, &mut shelf, owners) {
        Outcome::Done { .. } => Ok(shelf),
        _ => Err(DiskErr::Fault),
    }
}
