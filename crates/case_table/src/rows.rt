use std::alloc::Global;
use x_base::{NoMemory, Text};

/// The rows of a table that were gone through.
#[derive(Drop)]
pub(crate) struct Rows {
    alloc: Global,
    count: u64,
    holding: u64,
    /// A line for each value that another one was wanted for.
    differing: Text,
}

impl Rows {
    pub(crate) fn new(alloc: Global) -> Rows {
        Rows {
            alloc,
            count: 0,
            holding: 0,
            differing: Text::new(alloc),
        }
    }

    /// Tells what the present row gives that isn't wanted.
    pub(crate) fn tell(
        &mut self,
        table: &str,
        name: &str,
        given: &str,
        wanted: &str,
    ) -> Result<(), NoMemory> {
        let row = self.count.saturating_add(1);
        let line = format!(in self.alloc;
            "{table}, row {row}: {name} gives {given}, wanted {wanted}\n"
        )?;
        self.differing.push(line.as_bytes())
    }

    pub(crate) fn end_row(&mut self, is_holding: bool) {
        self.count = self.count.saturating_add(1);
        self.holding = self.holding.saturating_add(is_holding.into());
    }

    /// The next row, which gives and wants what is told; it holds where that is the same.
    pub(crate) fn add(
        &mut self,
        table: &str,
        name: &str,
        given: &str,
        wanted: &str,
    ) -> Result<(), NoMemory> {
        let is_holding = given == wanted;
        if !is_holding {
            self.tell(table, name, given, wanted)?;
        }
        self.end_row(is_holding);
        Ok(())
    }

    /// What is told: how many of the rows hold, behind the lines of those that don't.
    pub(crate) fn told(self, table: &str) -> Result<Text, NoMemory> {
        let line = format!(in self.alloc;
            "{table}: {} of {} rows hold\n",
            self.holding, self.count
        )?;
        let mut text = self.differing;
        text.push(line.as_bytes())?;
        Ok(text)
    }
}
