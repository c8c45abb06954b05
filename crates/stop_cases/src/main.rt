//! Stops payments, batches and turns over two disks at each call of a disk, and tells of each table how many rows hold, and of a
//! row that doesn't what it gives and what was wanted.
//!
//! Standard input has the tables, an empty line between two: a line with the name, and rows. CHOICE is that of the power-off behind
//! each stop.
//!
//! - `in CHOICE` or `out CHOICE`, a payment that BANKB takes in or pays out: how many stops leave the ledger as it is to be. With
//!   choice 0 none does, with choice 1 those in the write of the gate and in its sync, and with another choice some of these two,
//!   which is told as `at most 2`.
//! - `party CHOICE` or `spool CHOICE`, a batch and the disk that fails: `the same outbox`, where behind each stop the batch goes on
//!   to it.
//! - `FAILS LOST CHOICE`, a turn, the disk that fails and the one that is lost then: how many stops leave the party as it is to be.
//!   Where the other disk is lost, as many as of a payment. Where the failing one is lost, those behind the keeping on the first
//!   disk: none of the first disk's calls, and five of the second's, which is written then.
//! - `none`, `first` or `second`, the disk that is lost between two turns: the party that is shown of the pair, of its first disk
//!   and of its second.
#![tactic(auto)]

mod bank;
mod batches;
mod counts;
mod ledgers;
mod losses;
mod pairs;
mod payments;
mod shelves;
mod stopping;
mod turn_ends;
mod turns;

use case_table::{Answers, rows_told};
use std::alloc::Global;
use std::io::{self, Write};
use x_base::NoMemory;

/// Answers over disks in memory.
#[derive(Drop)]
struct Program {
    alloc: Global,
}

impl Answers for Program {
    fn answer(&mut self, table: &str, asked: &str) -> Result<String, NoMemory> {
        if table == "a lost disk" {
            return losses::told(self.alloc, asked);
        }
        let (what, choice) = asked.rsplit_once(" ").unwrap_or((asked, ""));
        let Ok(choice) = choice.parse::<u64>() else {
            return Ok(String::from_str(self.alloc, "no choice")?);
        };
        match table {
            "payments whose disks fail" => stopping::told(self.alloc, true, what, choice),
            "payments whose ledger's disk fails" => {
                stopping::told(self.alloc, false, what, choice)
            }
            "batches whose disk fails" => batches::told(self.alloc, what, choice),
            "turns whose disks fail" => turns::told(self.alloc, what, choice),
            _ => Ok(String::from_str(self.alloc, "no table")?),
        }
    }
}

fn main(rt: HostRuntime) -> io::Result<()> {
    let alloc = rt.alloc();
    let tables = io::read_to_string(alloc, rt.stdin())?;
    let Ok(told) = rows_told(alloc, &mut Program { alloc }, tables.as_str()) else {
        return Err(io::ErrorKind::OutOfMemory.into());
    };
    rt.stdout().write_all(told.bytes())
}
