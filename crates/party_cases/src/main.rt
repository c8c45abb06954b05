//! Stops the commands of a party at each call of its disk, and goes through tables of the codes of changes, and of parties that are
//! changed, shown and looked up; tells of each table how many rows hold, and of a row that doesn't what it gives and what was wanted.
#![tactic(auto)]

mod bank;
mod changes;
mod codes;
mod copies;
mod lookups;
mod names;
mod parties;
mod rows;
mod shown;
mod stops;

use case_table::{Answers, Table, rows_told};
use std::alloc::Global;
use std::io::{self, Write};
use x_base::{NoMemory, Text};

/// Answers over shelves in memory.
#[derive(Drop)]
struct Program {
    alloc: Global,
}

impl Answers for Program {
    fn answer(&mut self, table: &str, asked: &str) -> Result<String, NoMemory> {
        let alloc = self.alloc;
        match table {
            "codes of edits" => codes::told_code(alloc, codes::edit_code(alloc, asked)),
            "codes of exchanges" => codes::told_code(alloc, codes::exchange_code(alloc, asked)),
            "commands whose disk fails" => stops::failing_disk(alloc, asked),
            "commands whose shelf fails" => stops::failing_shelf(alloc, asked),
            _ => codes::is_code(alloc, asked),
        }
    }
}

/// What the calls of a table are about.
#[derive(Clone, Copy)]
enum Topic {
    Edits,
    Centres,
    Lookups,
    Copies,
}

const TABLES: [(&str, Topic); 4] = [
    ("a bank behind an edit", Topic::Edits),
    ("centres that have begun", Topic::Centres),
    ("rows that are found", Topic::Lookups),
    ("changes and full names", Topic::Copies),
];

fn add_rows(alloc: Global, table: &mut Table, topic: Topic) -> Result<(), NoMemory> {
    match topic {
        Topic::Edits => shown::edits(alloc, table),
        Topic::Centres => shown::centres(alloc, table),
        Topic::Lookups => lookups::lookups(alloc, table),
        Topic::Copies => copies::copies(alloc, table),
    }
}

/// What is told of a table whose rows are calls.
fn calls_told(alloc: Global, name: &'static str, topic: Topic) -> Result<Text, NoMemory> {
    let mut table = Table::new(alloc, name);
    add_rows(alloc, &mut table, topic)?;
    table.told()
}

/// What is told of the tables of the input, and of those whose rows are calls.
fn told(alloc: Global, tables: &str) -> Result<Text, NoMemory> {
    let mut text = rows_told(alloc, &mut Program { alloc }, tables)?;
    for (name, topic) in TABLES {
        text.push(calls_told(alloc, name, topic)?.bytes())?;
    }
    Ok(text)
}

fn main(rt: HostRuntime) -> io::Result<()> {
    let alloc = rt.alloc();
    let tables = io::read_to_string(alloc, rt.stdin())?;
    let Ok(text) = told(alloc, tables.as_str()) else {
        return Err(io::ErrorKind::OutOfMemory.into());
    };
    rt.stdout().write_all(text.bytes())
}
