// The loss of a disk between two turns.
use crate::pairs::{Owners, arrived, read_owners, shelf_of, show};
use crate::turn_ends::{Shown, Which, seen};
use party_state::Input;
use std::alloc::Global;
use x_base::{Ident, NoMemory};
use x_disk::{DiskErr, MemoryShelf, Shelf, TornDisk};
use x_pair::turn_pair;
use x_party::Outcome;

/// What is shown of the pair, and of each of its disks alone then.
#[derive(Clone, Copy)]
struct Views {
    pair: Shown,
    first: Shown,
    second: Shown,
}

/// The bank's turn with this input.
fn turned(
    alloc: Global,
    shelf: &mut MemoryShelf,
    owners: &Owners,
    input: &Input,
) -> Result<(), DiskErr> {
    if owners.own == owners.mirror {
        return Err(DiskErr::Fault);
    }
    match turn_pair(alloc, shelf, &owners.own, &owners.mirror, input, 0) {
        Outcome::Done { reply: Some(_) } => Ok(()),
        _ => Err(DiskErr::Fault),
    }
}

/// BANKB takes the key.
fn taken(alloc: Global, shelf: &mut MemoryShelf, owners: &Owners) -> Result<(), DiskErr> {
    let input = arrived(alloc)?;
    turned(alloc, shelf, owners, &input)
}

/// An empty disk stands in place of the one that is lost.
fn lose(alloc: Global, shelf: &mut MemoryShelf, lost: &Ident) -> Result<(), DiskErr> {
    let empty = TornDisk::new(alloc, 0)?;
    shelf.put_back(lost, empty)
}

/// What is shown of one disk alone.
fn alone(alloc: Global, shelf: &mut MemoryShelf, name: &Ident) -> Shown {
    seen(x_party::show(alloc, shelf, name))
}

/// What is shown where this disk is lost behind a turn, or none.
fn look(alloc: Global, lost: Option<Which>) -> Result<Views, DiskErr> {
    let owners = read_owners()?;
    let mut shelf = shelf_of(alloc, &owners)?;
    taken(alloc, &mut shelf, &owners)?;
    match lost {
        Some(Which::First) => lose(alloc, &mut shelf, &owners.own)?,
        Some(Which::Second) => lose(alloc, &mut shelf, &owners.mirror)?,
        None => {}
    }
    Ok(Views {
        pair: seen(show(alloc, &mut shelf, &owners)),
        first: alone(alloc, &mut shelf, &owners.own),
        second: alone(alloc, &mut shelf, &owners.mirror),
    })
}

/// What is told where the disk of that name is lost, or none.
pub(crate) fn told(alloc: Global, lost: &str) -> Result<String, NoMemory> {
    let disk = Which::read(lost);
    if disk.is_none() && lost != "none" {
        return Ok(String::from_str(alloc, "no disk")?);
    }
    let Ok(views) = look(alloc, disk) else {
        return Ok(String::from_str(alloc, "something else")?);
    };
    let pair = views.pair.name();
    let first = views.first.name();
    let second = views.second.name();
    Ok(format!(in alloc; "{pair}, {first}, {second}")?)
}
