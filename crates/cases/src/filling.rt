// Fills a party's journal with the largest changes until no more fits, compacts the party, and fills its journal again.
ghost use Rattle.std.specs.Prelude.{◌≡◌, IfOk};
ghost use Rattle.cases.specs.Seeds.{AreSeeds};

use change_code::{Framed, MOST_EDITS};
use key_journal::Cause;
use key_store::{Kept, Store};
use party_state::{Change, Edit, Role};
use std::alloc::{AllocError, Global};
use x_base::{Ident, NoMemory, Text};
use x_disk::{Disk, TornDisk};
use x_gen::Gen;
use x_mac::Pair;

const GENERATOR: Gen = Gen {
    key: Pair {
        left: 0x0123456789ABCDEF,
        right: 0xFEDCBA9876543210,
    },
    v: 1,
};

/// A change that sets the seed to 1 so many times.
fn seeds(alloc: Global, number: u16) -> Result<Change, NoMemory>
    ensures { IfOk result AreSeeds }
{
    let mut change = Change::new(alloc);
    'filling: for _ in 0..number {
        change.push(Edit::SetGen(1))?;
    }
    Ok(change)
}

fn begun(alloc: Global) -> Result<Store<TornDisk>, Cause> {
    let Ok(own) = Ident::read(b"BANKA") else {
        return Err(Cause::Fault);
    };
    let disk = TornDisk::new(alloc, 16_777_216).map_err(|_| Cause::NoMemory)?;
    match Store::create(alloc, disk, own, Role::Bank, GENERATOR) {
        Ok(store) => Ok(store),
        Err(unmade) => Err(unmade.cause),
    }
}

/// What is told, line by line.
#[derive(Clone, Copy)]
enum Line {
    /// Whether a change was said to fit, and whether it was kept.
    Change { number: u32, fits: bool, kept: bool },
    /// Whether the party was compacted.
    Compaction { done: bool },
    /// The room that is left.
    Room(u64),
}

fn copied(alloc: Global, change: &Change) -> Result<Change, Cause>
    ensures { IfOk result (λ copy. copy ≡ change.now) }
{
    change.copy(alloc).map_err(|_| Cause::NoMemory)
}

/// Whether a change fits.
#[tactic(auto, using(crate::proofs::Conditions::seeds_fit, crate::proofs::Conditions::seeds_short))]
fn fits(alloc: Global, store: &Store<TornDisk>, change: &Change) -> Result<bool, Cause>
    requires { AreSeeds change.now }
{
    let change = copied(alloc, change)?;
    let framed = Framed::of(alloc, store.format(), change).map_err(|_| Cause::NoMemory)?;
    Ok(framed.fits(store.space().room))
}

/// The store afterwards, and whether it was done.
fn ended(kept: Kept<TornDisk>) -> Result<(Store<TornDisk>, bool), Cause> {
    match kept {
        Kept::Done(store) => Ok((store, true)),
        Kept::Full(store) => Ok((store, false)),
        Kept::NoMemory(_) => Err(Cause::NoMemory),
        Kept::Broken(broken) => Err(broken.give_up().cause),
    }
}

/// Keeps a change where it fits, and answers whether it was kept.
#[tactic(auto, using(crate::proofs::Conditions::seeds_fit, crate::proofs::Conditions::seeds_short, crate::proofs::Conditions::seeds_go))]
fn keep(
    alloc: Global,
    store: Store<TornDisk>,
    change: &Change,
) -> Result<(Store<TornDisk>, bool), Cause>
    requires { AreSeeds change.now }
{
    let _state = store.view();
    ended(store.keep(alloc, copied(alloc, change)?))
}

fn tell(lines: &mut Vec<Line>, line: Line) -> Result<(), Cause> {
    lines.push(line).map_err(|_| Cause::NoMemory)
}

/// Makes the change fifteen times, and tells of each and of the room that is left.
fn fill(
    alloc: Global,
    store: Store<TornDisk>,
    change: &Change,
    lines: &mut Vec<Line>,
) -> Result<Store<TornDisk>, Cause>
    requires { AreSeeds change.now }
{
    let mut store = store;
    for number in 1..16 {
        let fits = fits(alloc, &store, change)?;
        let (next, kept) = keep(alloc, store, change)?;
        store = next;
        tell(lines, Line::Change { number, fits, kept })?;
    }
    tell(lines, Line::Room(store.space().room))?;
    Ok(store)
}

/// Fills a journal, compacts the party and fills its journal again: the lines, and the length of the disk behind them.
fn filled(alloc: Global, change: &Change) -> Result<(Vec<Line>, u64), Cause>
    requires { AreSeeds change.now }
{
    let mut lines = Vec::new(alloc);
    let store = fill(alloc, begun(alloc)?, change, &mut lines)?;
    let (store, done) = ended(store.compact(alloc))?;
    tell(&mut lines, Line::Compaction { done })?;
    tell(&mut lines, Line::Room(store.space().room))?;
    let store = fill(alloc, store, change, &mut lines)?;
    Ok((lines, store.into_disk().length()?))
}

fn word(done: bool) -> &'static str {
    if done { "Done" } else { "Full" }
}

fn line_of(alloc: Global, line: Line) -> Result<String, AllocError> {
    match line {
        Line::Change { number, fits, kept } => {
            format!(in alloc; "{number}: fits {fits}, {}\n", word(kept))
        }
        Line::Compaction { done } => format!(in alloc; "compaction: {}\n", word(done)),
        Line::Room(room) => format!(in alloc; "room {room}\n"),
    }
}

fn lines_of(alloc: Global, lines: &[Line], length: u64) -> Result<Text, NoMemory> {
    let mut text = Text::new(alloc);
    for line in lines {
        text.push(line_of(alloc, *line)?.as_bytes())?;
    }
    text.push(format!(in alloc; "length {length}\n")?.as_bytes())?;
    Ok(text)
}

/// What becomes of the journal, line by line, or why it ended.
pub(crate) fn filled_lines(alloc: Global) -> Result<Text, NoMemory> {
    let change = seeds(alloc, MOST_EDITS)?;
    match filled(alloc, &change) {
        Ok((lines, length)) => lines_of(alloc, lines.as_slice(), length),
        Err(cause) => {
            let mut text = Text::new(alloc);
            text.push(format!(in alloc; "{cause}\n")?.as_bytes())?;
            Ok(text)
        }
    }
}
