//! Goes through tables of what parties of each role decide, and tells of each table how many rows hold, and
//! of a row that doesn't what it gives and what was wanted.
//!
//! Standard input has the tables, an empty line between two: a line with the name, and rows `ORDERS = GIVEN`, where `; ` parts
//! the orders, of which the last one gives something. The party that an order leaves is that of the next order and row.
//!
//! `party OWN ROLE` begins a party, with words behind it that tell what it is for. `link PEER LABEL SIDE NEXT PAIR` puts a
//! link, `unlink PEER LABEL SIDE` drops one, `ended PEER ORIGINATOR LABEL FIRST NUMBER` puts the records of so many keys that
//! have ended. `show` gives the lines in which the party is shown.
//!
//! `MOMENT ACT` gives the number of the verdict, and the text that is written, where one is. `under MOMENT ACT` gives the full
//! name of the key under which that text is closed, and changes nothing; `tests MOMENT ACT` gives the name, the recipient and
//! the value of the key under which the code of a message is tested, and whether the code is right, whose decision is 28
//! exactly where it is wrong. Either key may be `none`.
//!
//! An act is `take TEXT` or a command, its words in the order in which docs/OPERATOR.md has the options.
#![tactic(auto)]

mod acts;
mod answers;
mod parties;
mod player;
mod words;

use case_table::rows_told;
use player::Player;
use std::io::{self, Write};

fn main(rt: HostRuntime) -> io::Result<()> {
    let alloc = rt.alloc();
    let tables = io::read_to_string(alloc, rt.stdin())?;
    let mut player = Player { alloc, party: None };
    let Ok(told) = rows_told(alloc, &mut player, tables.as_str()) else {
        return Err(io::ErrorKind::OutOfMemory.into());
    };
    rt.stdout().write_all(told.bytes())
}
