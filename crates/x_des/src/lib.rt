//! DES of FIPS 46: wirings, key schedules, and the encryption and decryption of a block.
#![tactic(auto)]

mod block;
mod boxes;
mod cipher;
mod combined;
mod round_keys;
mod rows_c;
mod rows_d;
mod schedule;
mod wiring;

pub use block::Block;
pub use boxes::box_and_permutation;
pub use cipher::{decrypt, encrypt};
pub use schedule::Schedule;
pub use wiring::Wiring;
