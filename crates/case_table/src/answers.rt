// Tables that a program reads.
use crate::rows::Rows;
use std::alloc::Global;
use x_base::{NoMemory, Text};

/// What the rows of tables ask.
pub trait Answers {
    /// What is given at what a row of the table asks.
    fn answer(&mut self, table: &str, asked: &str) -> Result<String, NoMemory>;
}

/// The row of a line; a line without ` = ` is one that doesn't hold.
fn add_row<A: Answers>(
    answers: &mut A,
    table: &str,
    line: &str,
    rows: &mut Rows,
) -> Result<(), NoMemory> {
    let Some((asked, wanted)) = line.split_once(" = ") else {
        return rows.add(table, line, "no row", "a row");
    };
    let given = answers.answer(table, asked)?;
    rows.add(table, asked, given.as_str(), wanted)
}

/// What is told of a table, whose first line is its name.
fn table_told<A: Answers>(alloc: Global, answers: &mut A, table: &str) -> Result<Text, NoMemory> {
    let (name, lines) = table.split_once("\n").unwrap_or((table, ""));
    let mut rows = Rows::new(alloc);
    for line in lines.lines() {
        add_row(answers, name, line, &mut rows)?;
    }
    rows.told(name)
}

/// What is told of tables. An empty line stands between two of them; a table has a line with its name and a line for each
/// row, in which ` = ` parts what is asked and what is wanted.
pub fn rows_told<A: Answers>(
    alloc: Global,
    answers: &mut A,
    tables: &str,
) -> Result<Text, NoMemory> {
    let mut told = Text::new(alloc);
    for table in tables.trim().split("\n\n") {
        told.push(table_told(alloc, answers, table)?.bytes())?;
    }
    Ok(told)
}
