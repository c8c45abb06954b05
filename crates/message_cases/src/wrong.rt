use case_table::{Call, Table};
use x_base::NoMemory;

/// Rows of which two are wrong on purpose, so that it is seen how that is told.
pub(crate) fn wrong(table: &mut Table) -> Result<(), NoMemory> {
    table.row(&[Call::number("one", 1, 1), Call::option("none", None, None)])?;
    table.row(&[Call::number("one", 1, 1), Call::number("two", 2, 3)])?;
    table.text_row("a word", "read", "heard")
}
