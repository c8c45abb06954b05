//! What a bank decides of requests, responses, error messages and disconnections that arrive (ANSI
//! X9.17).
#![tactic(auto)]

mod accepting;
mod asking_again;
mod disconnection;
mod draws;
mod error_edits;
mod error_message;
mod laws;
mod plain_esm;
mod ranged;
mod request;
mod response;
mod sending_twins;
mod twin_laws;
mod twin_response;

pub use accepting::{law_accepts, law_begins, law_left, law_order, law_serves};
pub use asking_again::Retry;
pub use disconnection::{NamedKey, dsm, dsm_lead};
pub use draws::TwinsDrawn;
pub use error_message::{ErrorSubject, esm, esm_lead};
pub use laws::{law_arrival_lead, law_arrivals_apart, law_heard};
pub use ranged::law_ranged;
pub use request::rsi;
pub use response::{rsm, rsm_lead};
pub use twin_laws::law_sends_twins;
