//! Goes through tables of outside values of ciphers, codes, the key generator and keys under keys, and of what words and
//! command lines stand for. It tells of each table how many rows hold, and of a row that doesn't what it gives and what was
//! wanted. In an order and in what is wrong with a line each name stands as the line has it. The last table has a wrong
//! row on purpose.
#![tactic(auto)]

mod calls;
mod ciphers;
mod keys;
mod orders;
mod plain;
mod side;
mod values;
mod words;

use case_table::{Answers, rows_told};
use ciphers::cipher_told;
use orders::{line_told, number_told};
use std::alloc::Global;
use std::io::{self, Write};
use values::{number_of, value_of};
use x_base::NoMemory;

/// Answers rows by the calls of the ciphers, and by what words and command lines stand for.
#[derive(Drop)]
struct Tables {
    alloc: Global,
}

impl Answers for Tables {
    fn answer(&mut self, table: &str, asked: &str) -> Result<String, NoMemory> {
        match table {
            "numbers" => number_of(self.alloc, asked.as_bytes()),
            "keys and names" => value_of(self.alloc, asked),
            "numbers of faults" => number_told(self.alloc, asked),
            _ if table.ends_with("command lines") => line_told(self.alloc, asked),
            _ => cipher_told(self.alloc, table, asked),
        }
    }
}

fn main(rt: HostRuntime) -> io::Result<()> {
    let alloc = rt.alloc();
    let tables = io::read_to_string(alloc, rt.stdin())?;
    let Ok(told) = rows_told(alloc, &mut Tables { alloc }, tables.as_str()) else {
        return Err(io::ErrorKind::OutOfMemory.into());
    };
    rt.stdout().write_all(told.bytes())
}
