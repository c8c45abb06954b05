//! Parties whose disks are held open together: the table of them, how their disks are put back, and what an event that is
//! stopped or fails leaves of a party's disk.
#![tactic(auto)]

mod closing;
mod expecting;
mod failure;
mod open_parties;
mod open_party;
mod stopped;

pub use closing::{put_back_all, put_disk};
pub use expecting::Expected;
pub use failure::{Ending, Failure};
pub use open_parties::OpenParties;
pub use open_party::{OpenParty, PartyDisk};
pub use stopped::{
    FailedPartyDisk, carry_out_to_call, failure_by, failure_of, put_back_and_fetch, restart,
};
