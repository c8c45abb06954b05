// What an order line says.
use crate::parting::parted;
use crate::transcripts::Change;
use x_base::Ident;
use x_values::{read_decimal_number, read_plain_number_within};

/// What is done with bytes.
#[derive(Clone, Copy)]
pub(crate) enum Task {
    /// A scenario is read.
    Read,
    /// A scenario is played over blank disks.
    Scenario,
    /// A scenario is played over the disks that are there.
    Again,
    /// A scenario is played with each call failing in turn.
    Faults,
    /// An auditor's input is audited.
    Audit,
}

/// An order.
#[derive(Clone, Copy)]
pub(crate) enum Order {
    /// The line is written as it is.
    Remark,
    /// This is done with so many bytes behind the line.
    With(Task, u64),
    /// The last input is audited with this change of a line of its transcript.
    Changed(Change, u64),
    /// The text of a drill is written.
    Text { seed: u64, events: u32 },
    /// A party is shown.
    Show(Ident),
    /// A drill is played.
    Drill { seed: u64, events: u32 },
    /// A journal is filled.
    Fill,
}

/// The seed of a drill and how many events it has.
fn drill_of(words: &[u8]) -> Option<(u64, u32)> {
    let (seed, events) = parted(words, b' ')?;
    let events = u32::try_from(read_plain_number_within(1, 10_000, events)?).ok()?;
    Some((read_decimal_number(seed)?, events))
}

/// The task of a word.
fn task_of(word: &[u8]) -> Option<Task> {
    if word == b"read".as_slice() {
        return Some(Task::Read);
    }
    if word == b"scenario".as_slice() {
        return Some(Task::Scenario);
    }
    if word == b"again".as_slice() {
        return Some(Task::Again);
    }
    if word == b"faults".as_slice() {
        return Some(Task::Faults);
    }
    if word == b"audit".as_slice() {
        return Some(Task::Audit);
    }
    None
}

/// The change of a word.
fn change_of(word: &[u8]) -> Option<Change> {
    if word == b"changed".as_slice() {
        return Some(Change::Changed);
    }
    if word == b"without".as_slice() {
        return Some(Change::Without);
    }
    if word == b"twice".as_slice() {
        return Some(Change::Twice);
    }
    None
}

/// The order of a word and a number.
fn numbered_of(word: &[u8], number: u64) -> Option<Order> {
    if let Some(task) = task_of(word) {
        return Some(Order::With(task, number));
    }
    Some(Order::Changed(change_of(word)?, number))
}

pub(crate) fn order_of(line: &[u8]) -> Option<Order> {
    if line.starts_with(b"#".as_slice()) {
        return Some(Order::Remark);
    }
    if line == b"fill".as_slice() {
        return Some(Order::Fill);
    }
    let (kind, rest) = parted(line, b' ')?;
    if kind == b"show".as_slice() {
        return Some(Order::Show(Ident::read(rest).ok()?));
    }
    if kind == b"drill".as_slice() {
        let (seed, events) = drill_of(rest)?;
        return Some(Order::Drill { seed, events });
    }
    if kind == b"text".as_slice() {
        let (seed, events) = drill_of(rest)?;
        return Some(Order::Text { seed, events });
    }
    numbered_of(kind, read_decimal_number(rest)?)
}
