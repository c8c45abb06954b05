use case_table::{Call, Table};
use x_base::NoMemory;

/// A row of the table for each of the calls.
pub(crate) fn add_rows(table: &mut Table, calls: &[Call]) -> Result<(), NoMemory> {
    for call in calls {
        table.row(&[*call])?;
    }
    Ok(())
}

/// The row where a party, an edit or a name could not be made; it doesn't hold.
pub(crate) fn no_party(table: &mut Table) -> Result<(), NoMemory> {
    table.text_row("party", "no party", "a party")
}
