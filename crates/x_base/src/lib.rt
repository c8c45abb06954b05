//! The values that every crate shares, and the source and sink of the program.
#![tactic(auto)]

mod count;
mod due;
mod ident;
mod key_name;
mod label;
mod names;
mod padded;
mod party;
mod row;
mod sink;
mod source;
mod text;
mod verdict;
mod words;

pub use count::{BadCount, Count, LIMIT};
pub use ident::{BadIdent, Ident};
pub use key_name::{FullName, KeyName, NameFault};
pub use label::{BadLabel, Label};
pub use party::{Role, Side};
pub use sink::{MemorySink, Sink, SinkFault, StdSink, put_all};
pub use source::{MemorySource, Source, SourceFault, StdSource};
pub use text::{NoMemory, Text};
pub use verdict::Verdict;
pub use words::Words;
