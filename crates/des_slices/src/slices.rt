ghost use Rattle.std.specs.Prelude.{◌≡◌, ◌<◌, ◌*◌, ◌/◌, ◌^◌, ℕ, bit_xor, cond, drop, map, replicate, slice_index_or, take};
ghost use Rattle.std.specs.Simd.Lanes.{zip2};
ghost use Rattle.x_des.specs.Bits.{exclusive_or, pick};
ghost use Rattle.x_des.specs.Des.{enciphered};
ghost use Rattle.x_des.specs.Tables.{ip};
ghost use Rattle.des_slices.specs.Vectors.{AreVectors, lane, words_of};

use crate::exchanges::sliced;
use crate::key::SlicedKey;
use crate::mask::{masked, unchosen};
use crate::round::round;
use crate::vector::{Vector, bit, put};
use std::marker::Model;
use std::simd::u64x2;

/// How many blocks stand side by side.
pub const LANES: usize = 128;

/// 128 blocks, in the bits of vectors: vector `n` of a half has bit `n` of that half of each block,
/// behind IP of FIPS 46; lane `64 * w + i` is bit `i` of word `w`, bit 0 the lowest. Contracts see
/// them as the list of the blocks.
#[derive(Drop)]
pub struct Slices {
    left: [Vector; 32],
    right: [Vector; 32],
}

impl Model for Slices {
    ghost use Rattle.std.specs.Prelude.{ℕ, List};
    ghost use Rattle.des_slices.specs.Slices.{HasVectors, blocks_of};

    ghost Value = { List ℕ };

    ghost view = { blocks_of };

    ghost invariant = { HasVectors };
}

impl Slices {
    /// Zero in each lane.
    pub fn zeros() -> Slices
        ensures { result ≡ replicate 128 0 }
    {
        let zero = Vector {
            words: u64x2::splat(0),
        };
        Slices {
            left: [zero; 32],
            right: [zero; 32],
        }
    }

    /// Puts numbers onto the blocks by exclusive or, one onto each.
    pub fn xor(&mut self, numbers: &[u64; LANES])
        ensures { self.new ≡ zip2 bit_xor self.old numbers.now }
    {
        let bits = sliced(numbers);
        xor_half(&mut self.left, &bits, 0);
        xor_half(&mut self.right, &bits, 1);
    }

    /// Puts zero into the lanes that are chosen.
    pub fn clear(&mut self, chosen: &[bool; LANES])
        ensures { self.new ≡ zip2 (λ b n. cond b 0 n) chosen.now self.old }
    {
        let kept = unchosen(chosen);
        self.left = masked(&self.left, kept);
        self.right = masked(&self.right, kept);
    }

    /// Encrypts each block under the key.
    pub fn encrypt(&mut self, key: &SlicedKey)
        ensures { self.new ≡ map (enciphered key.now) self.old }
    {
        let mut left = self.left;
        let mut right = self.right;
        for i in 0..8 {
            round(&mut left, &right, &key.rounds[2 * i].bits);
            round(&mut right, &left, &key.rounds[2 * i + 1].bits);
        }
        self.left = right;
        self.right = left;
    }

    /// The leftmost 32 bits of the block of a lane.
    pub fn left_half(&self, lane: usize) -> u32
        requires { lane < 128 }
        ensures { result ≡ slice_index_or self.now lane 0 / 2 ^ 32 }
    {
        let mut half = 0;
        for i in 0..16 {
            // Where bits 2 i and 2 i + 1 of a block stand behind IP, in the right and in the left half.
            let place = 8 * (i % 4) + 7 - i / 4;
            half = half << 1 | bit(self.right[place], lane);
            half = half << 1 | bit(self.left[place], lane);
        }
        half
    }
}

/// Puts the left half (side 0) or the right half (side 1) of what IP makes of 64 bits onto a half by
/// exclusive or.
#[inline(always)]
fn xor_half(half: &mut [Vector; 32], bits: &[Vector; 64], side: usize)
    requires half { AreVectors half.now }
    requires bits { AreVectors bits.now }
    requires side { side < 2 }
    ensures lanes { (l : ℕ) → l < 128 → lane l (words_of half.new) ≡ exclusive_or (lane l (words_of half.old)) (take 32 (drop (32 * side) (pick ip (lane l (words_of bits.now))))) }
    ensures vectors { AreVectors half.new }
{
    for i in 0..8 {
        let first = 57 - side - 8 * i;
        let four = [
            bits[first],
            bits[first + 2],
            bits[first + 4],
            bits[first + 6],
        ];
        put(half, [i, 8 + i, 16 + i, 24 + i], four);
    }
}
