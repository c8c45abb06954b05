ghost use Rattle.std.specs.Prelude.{◌≡◌};
ghost use Rattle.x_mac.specs.Pair.{ded_of, ede_of};

use std::marker::Model;
use x_des::{Block, Schedule};

/// Two keys of 64 bits. A single key-encrypting key has equal halves.
#[derive(Clone, Copy, Debug, PartialEq, Eq)]
pub struct Pair {
    pub left: u64,
    pub right: u64,
}

/// Two-key encryption of a block: encrypts under the left key, decrypts under the right one and
/// encrypts under the left one.
pub fn ede(pair: Pair, block: u64) -> u64
    ensures ede { result ≡ ede_of pair block }
    ensures undone { ded_of pair result ≡ block }
{
    PairSchedule::new(pair).ede(block)
}

/// Two-key decryption of a block, the inverse of `ede`.
pub fn ded(pair: Pair, block: u64) -> u64
    ensures ded { result ≡ ded_of pair block }
    ensures undone { ede_of pair result ≡ block }
{
    PairSchedule::new(pair).ded(block)
}

/// The schedules of the two keys of a pair, made once. Contracts see it as the pair.
#[derive(Drop)]
pub struct PairSchedule {
    left: Schedule,
    right: Schedule,
}

impl Model for PairSchedule {
    ghost use Rattle.x_mac.specs.declared.pair.Pair.{Pair};

    ghost Value = { Pair };

    ghost view = { λ s. record { left = s.left; right = s.right } };
}

impl PairSchedule {
    /// The schedules of a pair.
    pub fn new(pair: Pair) -> PairSchedule
        ensures { result ≡ pair }
    {
        PairSchedule {
            left: Schedule::new(pair.left),
            right: Schedule::new(pair.right),
        }
    }

    /// Two-key encryption of a block under the pair.
    pub fn ede(&self, block: u64) -> u64
        ensures ede { result ≡ ede_of self.now block }
        ensures undone { ded_of self.now result ≡ block }
    {
        let once = self.left.encrypt_block(&Block::new(block));
        let twice = self.right.decrypt_block(&once);
        self.left.encrypt_block(&twice).word()
    }

    /// Two-key decryption of a block under the pair.
    pub fn ded(&self, block: u64) -> u64
        ensures ded { result ≡ ded_of self.now block }
        ensures undone { ede_of self.now result ≡ block }
    {
        let once = self.left.decrypt_block(&Block::new(block));
        let twice = self.right.encrypt_block(&once);
        self.left.decrypt_block(&twice).word()
    }
}
