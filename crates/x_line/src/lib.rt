//! The words of the program's command line: the order that they give, or what is wrong with them.
#![tactic(auto)]

mod declared;
mod laws;
mod line;
mod line_order;
mod line_values;
mod need;
mod opt;
mod order;
mod order_kind;
mod usage;
mod values;

pub use laws::{
    law_few_events, law_has_order, law_ledger_apart, law_mirror_apart, law_one_order,
    law_spool_apart,
};
pub use opt::{OPTIONS, Opt};
pub use order::{Given, Order, read_order};
pub use order_kind::{ORDER_KINDS, OrderKind};
pub use usage::{LineFault, UsageKind};
