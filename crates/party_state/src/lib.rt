//! A party's state: its tables, the edits that change it, and the types in which a party decides.
#![tactic(auto)]

mod command;
mod compare;
mod decision;
mod edit;
mod laws;
mod limits;
mod lookups;
mod parts;
mod prepared;
mod ranges;
mod rooms;
mod same;
mod state;
mod table_laws;

pub use command::{Command, Input};
pub use decision::{Decision, Edits, Lead};
pub use edit::{Change, Edit};
pub use laws::{law_accept, law_drop, law_edits, law_party, law_put};
pub use limits::{MOST_KEYS, MOST_LINKS};
pub use party_tables::{
    Answer, AnswerKey, Exchange, KeyRec, KeyStatus, Kind, LARGEST_NEXT, LONGEST_TEXT, LinkKey,
    LinkRec, RecordKey, Via, name_behind,
};
pub use prepared::{Prepared, apply};
pub use state::{State, first_state};
pub use table_laws::{
    law_counts, law_first_link, law_found, law_found_in_range, law_same, law_stands,
};
pub use x_base::{Role, Side};
