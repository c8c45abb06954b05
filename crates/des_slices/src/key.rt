ghost use Rattle.std.specs.Prelude.{◌≡◌, ◌<◌, ◌==◌, ℕ};
ghost use Rattle.x_des.specs.Bits.{bits_of};
ghost use Rattle.des_slices.specs.Keys.{AreRoundKeys};
ghost use Rattle.des_slices.specs.Vectors.{AreVectors, IsVector, lane, lane_bit, words_of};

use crate::vector::Vector;
use std::marker::Model;
use std::simd::u64x2;

/// A round key, each bit in all lanes of a vector.
#[derive(Clone, Copy)]
pub struct RoundKey {
    pub bits: [Vector; 48],
}

/// The round keys of a key, each bit in all lanes of a vector. Contracts see it as the key.
#[derive(Drop)]
pub struct SlicedKey {
    pub(crate) rounds: [RoundKey; 16],
    key: u64,
}

impl Model for SlicedKey {
    ghost use Rattle.std.specs.Prelude.{ℕ};
    ghost use Rattle.des_slices.specs.Keys.{HasRoundKeys};

    ghost Value = { ℕ };

    ghost view = { λ k. k.key };

    ghost invariant = { HasRoundKeys };
}

impl SlicedKey {
    /// The key whose sixteen round keys are these, each in the low 48 bits of a word.
    pub fn of_round_keys(round_keys: &[u64; 16], key: u64) -> SlicedKey
        requires { AreRoundKeys round_keys.now key }
        ensures { result ≡ key }
    {
        let mut rounds = [round_key_in_lanes(0); 16];
        for i in 0..16 {
            rounds[i] = round_key_in_lanes(round_keys[i]);
        }
        SlicedKey { rounds, key }
    }
}

/// The round key in the low 48 bits of a word.
fn round_key_in_lanes(word: u64) -> RoundKey
    ensures lanes { (l : ℕ) → l < 128 → lane l (words_of result.bits) ≡ bits_of 48 word }
    ensures vectors { AreVectors result.bits }
{
    let mut bits = [Vector {
        words: u64x2::splat(0),
    }; 48];
    for i in 0..48 {
        bits[i] = bit_in_lanes(word >> (47 - i) & 1);
    }
    RoundKey { bits }
}

/// A bit, 0 or 1, in all lanes.
fn bit_in_lanes(bit: u64) -> Vector
    requires { bit < 2 }
    ensures lanes { (l : ℕ) → l < 128 → lane_bit l result.words ≡ bit == 1 }
    ensures vector { IsVector result.words }
{
    let word = if bit == 1 { u64::MAX } else { 0 };
    Vector {
        words: u64x2::splat(word),
    }
}
