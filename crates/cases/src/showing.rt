// What the parties show.
use scenario::{Line, Scenario};
use std::alloc::Global;
use x_base::{Ident, Text};
use x_disk::{Disk, DiskErr, MemoryShelf, Shelf};
use x_party::{Outcome, show};

/// The show lines of a party, where one is set up.
fn lines_of(alloc: Global, name: &Ident, shelf: &mut MemoryShelf) -> Result<Option<Text>, DiskErr> {
    match show(alloc, shelf, name) {
        Outcome::Done { reply, .. } => Ok(reply),
        Outcome::Refused { .. } => Ok(None),
        Outcome::NoMemory => Err(DiskErr::NoMemory),
        Outcome::OtherParty(_, _) | Outcome::Damaged(_) | Outcome::Fault => Err(DiskErr::Fault),
    }
}

/// The show lines of a party, and a line that says that these are all; or that it is refused.
pub(crate) fn shown(alloc: Global, name: &Ident, shelf: &mut MemoryShelf) -> Result<Text, DiskErr> {
    match lines_of(alloc, name, shelf)? {
        Some(lines) => {
            let mut text = lines;
            text.push(b"shown\n")?;
            Ok(text)
        }
        None => {
            let mut text = Text::new(alloc);
            text.push(b"refused 37\n")?;
            Ok(text)
        }
    }
}

/// The power of a party's disk goes.
fn power_goes(name: &Ident, shelf: &mut MemoryShelf, choice: u64) -> Result<(), DiskErr> {
    let mut disk = shelf.fetch(name)?;
    disk.power_off(choice)?;
    shelf.put_back(name, disk)
}

/// The show lines of all parties of a scenario, behind a power-off with this choice.
pub(crate) fn shown_behind(
    alloc: Global,
    scenario: &Scenario,
    shelf: &mut MemoryShelf,
    choice: u64,
) -> Result<Text, DiskErr> {
    let mut text = Text::new(alloc);
    for line in scenario.lines() {
        if let Line::Party { name, .. } = line {
            power_goes(name, shelf, choice)?;
            if let Some(lines) = lines_of(alloc, name, shelf)? {
                text.push(lines.bytes())?;
            }
        }
    }
    Ok(text)
}
