//! Goes through tables of names, and of messages that are read, written and heard, and tells of each table how many rows hold, and
//! of a row that doesn't what it gives and what was wanted.
//!
//! A row of a text is `<TEXT> = ANSWER`, where `\r` and `\n` stand for those two separators. The answer is
//! `read LENGTH`, or `heard` and the message, or the number of the refusal, its tag where it has one, and
//! `at` with its place.
#![tactic(auto)]

mod fields;
mod heard_texts;
mod hearing;
mod lengths;
mod messages;
mod names;
mod parts;
mod read_texts;
mod reading;
mod refused_texts;
mod rows;
mod sources;
mod streams;
mod tables;
mod texts;
mod writing;
mod wrong;

use case_table::Table;
use std::alloc::Global;
use std::io::{self, Write};
use x_base::{NoMemory, Text};

/// What the calls of a table are about.
#[derive(Clone, Copy)]
enum Topic {
    Identities,
    Names,
    Memory,
    ReadersAndWriters,
    LongMessages,
    Parts,
    Written,
    Inputs,
    Cuts,
    Pieces,
    Wrong,
}

/// A table that is a text, or one whose rows are calls, with its name.
#[derive(Clone, Copy)]
enum Part {
    Texts(&'static str),
    Calls(&'static str, Topic),
}

const PARTS: [Part; 15] = [
    Part::Calls("identities expanded", Topic::Identities),
    Part::Calls("names, counts and words", Topic::Names),
    Part::Calls("a source and a sink in memory", Topic::Memory),
    Part::Calls("a reader and a writer", Topic::ReadersAndWriters),
    Part::Texts(read_texts::TABLE),
    Part::Texts(refused_texts::TABLE),
    Part::Texts(fields::TABLE),
    Part::Calls("long messages", Topic::LongMessages),
    Part::Calls("parts of messages", Topic::Parts),
    Part::Calls("messages that are written", Topic::Written),
    Part::Texts(heard_texts::TABLE),
    Part::Calls("inputs that don't end", Topic::Inputs),
    Part::Calls("a message cut anywhere", Topic::Cuts),
    Part::Calls("a stream in pieces", Topic::Pieces),
    Part::Calls("wrong rows, on purpose", Topic::Wrong),
];

fn add_rows(alloc: Global, table: &mut Table, topic: Topic) -> Result<(), NoMemory> {
    match topic {
        Topic::Identities => names::identities(table),
        Topic::Names => names::names(alloc, table),
        Topic::Memory => sources::memory(alloc, table),
        Topic::ReadersAndWriters => sources::readers_and_writers(table),
        Topic::LongMessages => lengths::messages(alloc, table),
        Topic::Parts => parts::parts(alloc, table),
        Topic::Written => writing::written(alloc, table),
        Topic::Inputs => lengths::inputs(alloc, table),
        Topic::Cuts => streams::cuts(alloc, table),
        Topic::Pieces => streams::pieces(alloc, table),
        Topic::Wrong => wrong::wrong(table),
    }
}

/// What is told of a table whose rows are calls.
fn calls_told(alloc: Global, name: &'static str, topic: Topic) -> Result<Text, NoMemory> {
    let mut table = Table::new(alloc, name);
    add_rows(alloc, &mut table, topic)?;
    table.told()
}

fn part_told(alloc: Global, part: Part) -> Result<Text, NoMemory> {
    match part {
        Part::Texts(table) => tables::told_of(alloc, table),
        Part::Calls(name, topic) => calls_told(alloc, name, topic),
    }
}

/// What is told of all tables.
fn told(alloc: Global) -> Result<Text, NoMemory> {
    let mut text = Text::new(alloc);
    for part in PARTS {
        text.push(part_told(alloc, part)?.bytes())?;
    }
    Ok(text)
}

fn main(rt: HostRuntime) -> io::Result<()> {
    let Ok(text) = told(rt.alloc()) else {
        return Err(io::ErrorKind::OutOfMemory.into());
    };
    rt.stdout().write_all(text.bytes())
}
