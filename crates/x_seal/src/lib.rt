//! Key offset, notarization, and keys encrypted under them (ANSI X9.17).
#![tactic(auto)]

mod offsetting;
mod sealing;

pub use offsetting::{notarize, offset, spread};
pub use sealing::{
    law_keys_below, law_unseals, law_unwraps, seal, unseal, unwrap, unwrap_pair, wrap, wrap_pair,
};
