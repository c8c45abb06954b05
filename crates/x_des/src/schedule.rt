ghost use Rattle.std.specs.Prelude.{◌≡◌, ℕ};
ghost use Rattle.x_des.specs.Des.{SameButParity, deciphered, enciphered};
ghost use Rattle.x_des.specs.Schedule.{KeepRoundKeys};

use crate::block::Block;
use crate::boxes::mixed;
use crate::round_keys::round_keys;
use std::marker::Model;

/// A key whose sixteen round keys are made once. Contracts see it as the key.
#[derive(Drop)]
pub struct Schedule {
    round_keys: [u64; 16],
    key: u64,
}

impl Model for Schedule {
    ghost use Rattle.std.specs.Prelude.{ℕ};
    ghost use Rattle.x_des.specs.Schedule.{HasRoundKeys};

    ghost Value = { ℕ };

    ghost view = { λ s. s.key };

    ghost invariant = { HasRoundKeys };
}

impl Schedule {
    /// The schedule of a key of 64 bits. Its parity bits don't matter.
    pub fn new(key: u64) -> Schedule
        ensures { result ≡ key }
    {
        Schedule {
            round_keys: round_keys(key),
            key,
        }
    }

    /// The schedule of a key whose round keys are known, each in the bytes of a word.
    pub fn of_round_keys(round_keys: [u64; 16], key: u64) -> Schedule
        requires { KeepRoundKeys round_keys key }
        ensures { result ≡ key }
    {
        Schedule { round_keys, key }
    }

    /// The encryption of a block under the key.
    pub fn encrypt_block(&self, block: &Block) -> Block
        ensures enciphered { result ≡ enciphered self.now block.now }
        ensures undone { deciphered self.now result ≡ block.now }
    {
        let mut left = block.left;
        let mut right = block.right;
        for round_key in &self.round_keys {
            let next = left ^ mixed(right, *round_key);
            left = right;
            right = next;
        }
        Block {
            left: right,
            right: left,
        }
    }

    /// The decryption of a block under the key.
    pub fn decrypt_block(&self, block: &Block) -> Block
        ensures deciphered { result ≡ deciphered self.now block.now }
        ensures undone { enciphered self.now result ≡ block.now }
    {
        let mut left = block.left;
        let mut right = block.right;
        for i in 0..16 {
            let next = left ^ mixed(right, self.round_keys[15 - i]);
            left = right;
            right = next;
        }
        Block {
            left: right,
            right: left,
        }
    }

    /// The encryption of a block of 64 bits under the key.
    pub fn encrypt(&self, block: u64) -> u64
        ensures enciphered { result ≡ enciphered self.now block }
        ensures undone { deciphered self.now result ≡ block }
        ensures parity { (k : ℕ) → SameButParity self.now k → result ≡ enciphered k block }
    {
        self.encrypt_block(&Block::new(block)).word()
    }

    /// The decryption of a block of 64 bits under the key.
    pub fn decrypt(&self, block: u64) -> u64
        ensures deciphered { result ≡ deciphered self.now block }
        ensures undone { enciphered self.now result ≡ block }
        ensures parity { (k : ℕ) → SameButParity self.now k → result ≡ deciphered k block }
    {
        self.decrypt_block(&Block::new(block)).word()
    }
}
