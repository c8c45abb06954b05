// Messages and inputs at their longest, and longer.
use crate::hearing::heard_told;
use crate::reading::read_told;
use case_table::Table;
use std::alloc::Global;
use x_base::{NoMemory, Text};

/// So many blanks before the code of a message, and what is read.
const MESSAGES: [(usize, &str); 2] = [(980, "read 1024"), (981, "6 at 1024")];

fn push_bytes(text: &mut Text, count: usize, byte: u8) -> Result<(), NoMemory> {
    for _ in 0..count {
        text.push(&[byte])?;
    }
    Ok(())
}

fn push_padded(text: &mut Text, blanks: usize) -> Result<(), NoMemory> {
    text.push(b"CSM(MCL/RSM RCV/BANKA ORG/BANKB")?;
    push_bytes(text, blanks, b' ')?;
    text.push(b"MAC/00000000)")
}

fn padded_row(
    alloc: Global,
    table: &mut Table,
    blanks: usize,
    wanted: &str,
) -> Result<(), NoMemory> {
    let mut text = Text::new(alloc);
    push_padded(&mut text, blanks)?;
    let given = read_told(alloc, text.bytes())?;
    table.text_row("read", given.as_str(), wanted)
}

/// Messages with many blanks.
pub(crate) fn messages(alloc: Global, table: &mut Table) -> Result<(), NoMemory> {
    for (blanks, wanted) in MESSAGES {
        padded_row(alloc, table, blanks, wanted)?;
    }
    Ok(())
}

/// So many separators, a text behind them that begins a message, has so many bytes and doesn't end, and why
/// nothing is heard.
const INPUTS: [(usize, usize, &str); 7] = [
    (0, 1024, "7 at 1024"),
    (3, 1024, "7 at 1027"),
    (0, 1025, "6 at 1024"),
    (0, 1026, "6 at 1024"),
    (3, 1026, "6 at 1027"),
    (1, 2048, "6 at 1025"),
    (1025, 1024, "7 at 2049"),
];

fn push_endless(text: &mut Text, separators: usize, count: usize) -> Result<(), NoMemory> {
    push_bytes(text, separators, b'\n')?;
    text.push(b"CSM(")?;
    push_bytes(text, count.saturating_sub(4), b'A')
}

fn endless_row(
    alloc: Global,
    table: &mut Table,
    separators: usize,
    count: usize,
    wanted: &str,
) -> Result<(), NoMemory> {
    let mut text = Text::new(alloc);
    push_endless(&mut text, separators, count)?;
    let given = heard_told(alloc, text.bytes())?;
    table.text_row("hear", given.as_str(), wanted)
}

/// Inputs that don't end.
pub(crate) fn inputs(alloc: Global, table: &mut Table) -> Result<(), NoMemory> {
    for (separators, count, wanted) in INPUTS {
        endless_row(alloc, table, separators, count, wanted)?;
    }
    Ok(())
}
