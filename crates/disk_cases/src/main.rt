//! Goes through tables of disks, shelves, journals and facts, and tells of each table how many rows hold, and of
//! a row that doesn't what it gives and what was wanted. A row has orders with a comma between two, and what they give; behind
//! ` / ` stand orders that are followed whatever failed before. It makes a file in the current folder.
#![tactic(auto)]

mod facts;
mod files;
mod hand;
mod journal;
mod orders;

use case_table::{Answers, rows_told};
use hand::Hand;
use journal::Journal;
use orders::{Ordered, follow, number, split};
use std::alloc::Global;
use std::io::{self, Write};
use x_base::NoMemory;
use x_disk::{FusedShelf, MemoryShelf, TornDisk};

/// The tables of a disk on which a journal is.
const JOURNALS: [&str; 4] = [
    "journals laid out",
    "cuts of a journal",
    "bodies of any length",
    "switches",
];

/// The tables of a file in the current folder.
const FILES: [&str; 3] = [
    "files of a folder",
    "new files",
    "files that others may use",
];

/// Answers over the files of the current folder, and over disks in memory.
#[derive(Drop)]
struct Program<'a> {
    rt: &'a HostRuntime,
}

/// What the orders give.
fn said<O: Ordered>(alloc: Global, ordered: &mut O, asked: &str) -> Result<String, NoMemory> {
    let mut said = String::new(alloc);
    for orders in asked.split(" / ") {
        follow(alloc, ordered, orders, &mut said)?;
    }
    Ok(said)
}

/// What orders to a disk with a journal give.
fn said_of_journal(alloc: Global, asked: &str) -> Result<String, NoMemory> {
    let disk = TornDisk::new(alloc, 0)?;
    said(alloc, &mut Journal::new(alloc, disk), asked)
}

/// What orders to the files give.
fn said_of_files(rt: &HostRuntime, asked: &str) -> Result<String, NoMemory> {
    match files::files_of(rt) {
        Some(mut files) => said(rt.alloc(), &mut files, asked),
        None => Err(NoMemory),
    }
}

/// A shelf in memory of which so many calls pass, and so many of its disks.
fn fused(alloc: Global, calls: &str) -> FusedShelf<MemoryShelf> {
    let (shelf_calls, disk_calls) = split(calls);
    FusedShelf::new(
        MemoryShelf::new(alloc),
        number(shelf_calls).unwrap_or(0),
        number(disk_calls).unwrap_or(0),
    )
}

/// What orders to a shelf in memory give. Where numbers stand in front, so many calls of the shelf pass, and so many of its
/// disks, up to ` / `.
fn said_of_shelf(alloc: Global, asked: &str) -> Result<String, NoMemory> {
    let Some((calls, orders)) = asked.split_once(": ") else {
        let mut hand = Hand::new(alloc, MemoryShelf::new(alloc));
        return said(alloc, &mut hand, asked);
    };
    let (orders, behind) = orders.split_once(" / ").unwrap_or((orders, ""));
    let mut said = String::new(alloc);
    let mut hand = Hand::new(alloc, fused(alloc, calls));
    follow(alloc, &mut hand, orders, &mut said)?;
    let mut hand = Hand::new(alloc, hand.shelf.into_inner());
    follow(alloc, &mut hand, behind, &mut said)?;
    Ok(said)
}

impl Answers for Program<'_> {
    fn answer(&mut self, table: &str, asked: &str) -> Result<String, NoMemory> {
        let alloc = self.rt.alloc();
        if JOURNALS.contains(&table) {
            return said_of_journal(alloc, asked);
        }
        if FILES.contains(&table) {
            return said_of_files(self.rt, asked);
        }
        match table {
            "facts" => facts::has(alloc, asked),
            "texts of facts" => facts::text_at(alloc, asked),
            _ => said_of_shelf(alloc, asked),
        }
    }
}

fn main(rt: HostRuntime) -> io::Result<()> {
    let tables = io::read_to_string(rt.alloc(), rt.stdin())?;
    let mut program = Program { rt: &rt };
    let Ok(told) = rows_told(rt.alloc(), &mut program, tables.as_str()) else {
        return Err(io::ErrorKind::OutOfMemory.into());
    };
    rt.stdout().write_all(told.bytes())
}
