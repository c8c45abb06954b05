//! Cryptographic service messages: what they are, and what spells them.
#![tactic(auto)]

mod arrival;
mod class_rows;
pub mod contents;
mod form;
mod form_set;
mod laws;
mod message;
mod needs;
mod parsed;
mod refusal;
mod separators;
mod tag;

pub use arrival::Arrival;
pub use form::{Form, Need};
pub use form_set::FormSet;
pub use laws::{law_arrived, law_read_allows, law_said_typed};
pub use message::{
    Dsm, Ers, Esm, Extras, Ksm, KsmBody, Message, NewKk, Rfs, Rsi, Rsm, Rtr, Service,
};
pub use needs::{ClassTable, class_table};
pub use parsed::{Parsed, Shut};
pub use refusal::ReadRefusal;
pub use separators::is_separator;
pub use tag::Tag;
