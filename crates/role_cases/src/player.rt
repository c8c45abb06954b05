// The orders of a row are followed.
use crate::answers::played;
use crate::parties::set_up;
use case_table::Answers;
use member::{Holder, PartyInMemory};
use party_show::show_text;
use std::alloc::Global;
use std::str::from_utf8;
use x_base::{NoMemory, Text};

/// The party that the last order left; none where it couldn't be followed.
#[derive(Drop)]
pub(crate) struct Player {
    pub(crate) alloc: Global,
    pub(crate) party: Option<PartyInMemory>,
}

/// The party behind an order, and what it gives; none where it can't be followed.
fn followed(
    alloc: Global,
    party: Option<PartyInMemory>,
    order: &str,
) -> Option<(PartyInMemory, Text)> {
    if order == "show" {
        let party = party?;
        let shown = show_text(alloc, party.view()).ok()?;
        return Some((party, shown));
    }
    match set_up(alloc, party.as_ref(), order) {
        Some(party) => Some((party, Text::new(alloc))),
        None => played(alloc, party?, order),
    }
}

/// Appends lines to what is given, with `; ` between two.
fn push_lines(given: &mut String, lines: &[u8]) -> Result<(), NoMemory> {
    for line in from_utf8(lines).unwrap_or("no text").lines() {
        if !given.is_empty() {
            given.push_str("; ")?;
        }
        given.push_str(line)?;
    }
    Ok(())
}

impl Answers for Player {
    fn answer(&mut self, _table: &str, asked: &str) -> Result<String, NoMemory> {
        let mut given = String::new(self.alloc);
        for order in asked.split("; ") {
            match followed(self.alloc, self.party.take(), order) {
                Some((party, told)) => {
                    self.party = Some(party);
                    push_lines(&mut given, told.bytes())?;
                }
                None => push_lines(&mut given, b"nothing")?,
            }
        }
        Ok(given)
    }
}
