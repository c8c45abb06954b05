//! The code of a change of a party's state.
#![tactic(auto)]

mod compaction;
mod decoding;
mod edit_code;
mod edits;
mod encoding;
mod exchanges;
mod fault;
mod first;
mod following;
mod format;
mod framed;
mod laws;
mod pieces;
mod reader;
mod room;
mod rows;
mod space;
mod writing;

pub use compaction::whole_behind;
pub use decoding::{Coded, decode};
pub use edit_code::EditCode;
pub use encoding::{MOST_EDITS, encode_behind};
pub use fault::{CodeFault, WholeFault};
pub use first::{Begun, begin_party};
pub use following::follow_as;
pub use format::Format;
pub use framed::Framed;
pub use laws::{
    law_can_compact, law_decode_undoes, law_one_change, law_one_code, law_short_code, law_whole,
};
pub use reader::Reader;
pub use space::Space;
pub use writing::{put_half_word, put_ident, put_name, put_side, put_word};
