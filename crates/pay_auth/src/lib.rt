//! Payments under a data key, and the ledger that takes each number once.
#![tactic(auto)]

mod accepting;
mod body;
mod entries;
mod entry;
mod keeping;
mod laws;
mod ledger;
mod live;
mod pay;
mod paying;
mod reading;
mod refusal;
mod scanner;
mod turn;
mod writing;

pub use entries::Entries;
pub use entry::{Entry, EntryKey};
pub use laws::{law_one_pay, law_paid};
pub use ledger::Ledger;
pub use pay::{Pay, PayParsed};
pub use reading::read_pay;
pub use refusal::{BadPay, PayRefusal};
pub use turn::PayTurn;
pub use writing::write_pay;
