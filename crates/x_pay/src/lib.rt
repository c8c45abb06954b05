//! Payments of a party on a shelf: its disk and the ledger's are fetched, a payment is paid out or taken in, and both are put
//! back, whatever comes.
#![tactic(auto)]

mod accepting;
mod acting;
mod closing;
mod laws;
mod opening;
mod outcome;
mod paying;

pub use accepting::accept;
pub use laws::{law_ledger_calls, law_one_due};
pub use outcome::PayOutcome;
pub use paying::pay;
