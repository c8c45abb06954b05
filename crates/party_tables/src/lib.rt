//! The rows of a party's tables: links, key records, exchanges and answers, with their keys and
//! ranges, and the tables that hold them.
#![tactic(auto)]

mod answer;
mod exchange;
mod key;
mod limits;
mod link;
mod names;
mod ranges;
mod same;
mod table;

pub use answer::{Answer, AnswerKey};
pub use exchange::{Exchange, Kind, Via};
pub use key::{KeyRec, KeyStatus, RecordKey};
pub use limits::{LARGEST_NEXT, LONGEST_TEXT};
pub use link::{LinkKey, LinkRec};
pub use names::name_behind;
pub use ranges::{law_answer, law_exchange, law_ident, law_label, law_link, law_pair, law_record};
pub use same::Same;
pub use table::{Row, Table};
