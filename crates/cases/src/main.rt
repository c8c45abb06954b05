//! Reads and plays scenarios over disks in memory, fills a journal, and audits transcripts. Standard input has orders, a line
//! each; a line that begins with `#` is written as it is, so that each answer stands behind its name.
//!
//! `read N`, with the N bytes of the scenario behind it, tells how many lines it has or which line is
//! bad; `text SEED EVENTS` writes the text of a drill. `scenario N` plays a scenario over blank disks,
//! `again N` over those that are there; the answer is what was written and a line of what came of it.
//! `faults N` plays it with each call of a disk, of the shelf and of the sink failing in turn; the answer
//! says whether each time a run of so many events stands. `show IDENT` shows a party, `drill SEED EVENTS`
//! plays a drill and tells its counts. `fill` fills a journal.
//!
//! `audit N`, with the N bytes of an input behind it, audits it. `changed K`, `without K` and `twice K` audit the last input
//! with line K of its transcript changed, left out or doubled. The answer is a line.
#![tactic(auto)]

mod auditing;
mod failing;
mod filling;
mod order;
mod parting;
mod playing;
mod reading;
mod showing;
mod stages;
mod transcripts;

use auditing::audit_line;
use failing::faults_line;
use filling::filled_lines;
use order::{Order, Task, order_of};
use parting::parted;
use playing::{answer, drilled};
use reading::{drill_text, read_line};
use showing::shown;
use std::alloc::Global;
use std::io::{self, Read, Write};
use transcripts::with_line;
use x_base::{NoMemory, Text};
use x_disk::{DiskErr, MemoryShelf};

/// So many of the bytes, or all, and what stands behind them.
fn front_of(bytes: &[u8], len: u64) -> (&[u8], &[u8]) {
    let len = usize::try_from(len).unwrap_or(0).min(bytes.len());
    bytes.split_at(len)
}

/// A remark, as it is.
fn remark(alloc: Global, line: &[u8]) -> Result<Text, NoMemory> {
    let mut text = Text::new(alloc);
    text.push(line)?;
    text.push(b"\n")?;
    Ok(text)
}

/// What orders leave to later ones.
#[derive(Drop)]
struct Last<'a> {
    /// The disks over which a scenario was played.
    shelf: MemoryShelf,
    /// The input that was audited.
    input: &'a [u8],
}

/// What comes of the bytes behind an order.
fn done<'a>(
    alloc: Global,
    task: Task,
    bytes: &'a [u8],
    last: &mut Last<'a>,
) -> Result<Text, DiskErr> {
    match task {
        Task::Read => Ok(read_line(alloc, bytes)?),
        Task::Scenario => {
            last.shelf = MemoryShelf::new(alloc);
            Ok(answer(alloc, bytes, &mut last.shelf)?)
        }
        Task::Again => Ok(answer(alloc, bytes, &mut last.shelf)?),
        Task::Faults => faults_line(alloc, bytes),
        Task::Audit => {
            last.input = bytes;
            Ok(audit_line(alloc, bytes)?)
        }
    }
}

/// The answer to the order of a line, and what stands behind it.
fn carried<'a>(
    alloc: Global,
    order: Order,
    line: &[u8],
    rest: &'a [u8],
    last: &mut Last<'a>,
) -> Result<(Text, &'a [u8]), DiskErr> {
    match order {
        Order::Remark => Ok((remark(alloc, line)?, rest)),
        Order::With(task, len) => {
            let (bytes, behind) = front_of(rest, len);
            Ok((done(alloc, task, bytes, last)?, behind))
        }
        Order::Changed(change, number) => {
            let changed = with_line(alloc, last.input, change, number)?;
            Ok((audit_line(alloc, changed.bytes())?, rest))
        }
        Order::Text { seed, events } => Ok((drill_text(alloc, seed, events)?, rest)),
        Order::Show(name) => Ok((shown(alloc, &name, &mut last.shelf)?, rest)),
        Order::Drill { seed, events } => Ok((drilled(alloc, seed, events)?, rest)),
        Order::Fill => Ok((filled_lines(alloc)?, rest)),
    }
}

fn main(rt: HostRuntime) -> io::Result<()> {
    let alloc = rt.alloc();
    let mut input = Vec::new(alloc);
    rt.stdin().read_to_end(&mut input)?;
    let mut out = rt.stdout();
    let mut last = Last {
        shelf: MemoryShelf::new(alloc),
        input: &[],
    };
    let mut rest = input.as_slice();
    // Each order has a byte at least.
    for _ in 0..input.len() {
        let Some((line, behind)) = parted(rest, b'\n') else {
            break;
        };
        let Some(order) = order_of(line) else {
            return Err(io::ErrorKind::InvalidData.into());
        };
        let Ok((text, after)) = carried(alloc, order, line, behind, &mut last) else {
            return Err(io::ErrorKind::OutOfMemory.into());
        };
        out.write_all(text.bytes())?;
        rest = after;
    }
    Ok(())
}
