use crate::call::{Call, value_told};
use crate::rows::Rows;
use std::alloc::Global;
use x_base::{NoMemory, Text};

/// What is told of a table, whose rows are gone through one by one.
#[derive(Drop)]
pub struct Table {
    alloc: Global,
    name: &'static str,
    rows: Rows,
}

impl Table {
    /// The table of that name, before its first row.
    pub fn new(alloc: Global, name: &'static str) -> Table {
        Table {
            alloc,
            name,
            rows: Rows::new(alloc),
        }
    }

    /// Tells the name and both values of a call.
    fn tell(&mut self, call: &Call) -> Result<(), NoMemory> {
        let given = value_told(self.alloc, call.given)?;
        let wanted = value_told(self.alloc, call.wanted)?;
        self.rows
            .tell(self.name, call.name, given.as_str(), wanted.as_str())
    }

    /// The next row, which holds where each of its calls gives what is wanted.
    pub fn row(&mut self, calls: &[Call]) -> Result<(), NoMemory> {
        let mut is_holding = true;
        for call in calls {
            if call.given != call.wanted {
                self.tell(call)?;
                is_holding = false;
            }
        }
        self.rows.end_row(is_holding);
        Ok(())
    }

    /// The next row, which gives and wants what is told; it holds where that is the same.
    pub fn text_row(&mut self, name: &str, given: &str, wanted: &str) -> Result<(), NoMemory> {
        self.rows.add(self.name, name, given, wanted)
    }

    /// What is told: how many of the rows hold, behind the lines of those that don't.
    pub fn told(self) -> Result<Text, NoMemory> {
        self.rows.told(self.name)
    }
}
