//! What a bank decides of the commands of its operator (ANSI X9.17).
#![tactic(auto)]

mod ask;
mod commands;
mod draws;
mod ending;
mod giving_up;
mod laws;
mod ranged;
mod resend;
mod start;
mod start_kk;
mod translate;

pub use commands::command;
pub use laws::{
    law_asks, law_asks_centre, law_begins, law_ends, law_gives_up, law_loads_at_bank, law_order,
    law_orders_apart, law_purges, law_sends_to_translate, law_starts, law_starts_kk,
    law_writes_again,
};
pub use ranged::law_ranged;
