//! Lanes that are kept and lanes that are cleared.
ghost use Rattle.std.specs.Prelude.{◌≡◌, ◌<◌, ◌&&◌, ℕ, false, length, map, not, slice_index_or};
ghost use Rattle.x_des.specs.Bits.{bit};
ghost use Rattle.des_slices.specs.Vectors.{AreVectors, IsVector, lane, lane_bit, words_of};

use crate::slices::LANES;
use crate::vector::Vector;
use std::simd::u64x2;

/// The vector whose bit is set in the lanes that aren't chosen.
pub fn unchosen(chosen: &[bool; LANES]) -> Vector
    ensures lanes { (l : ℕ) → l < 128 → lane_bit l result.words ≡ not (slice_index_or chosen.now l false) }
    ensures vector { IsVector result.words }
{
    let low = unset_bits(&chosen[..64]);
    let high = unset_bits(&chosen[64..]);
    Vector {
        words: u64x2::from_array([low, high]),
    }
}

/// Bit `i` is set where entry `i` is false.
fn unset_bits(chosen: &[bool]) -> u64
    requires { length chosen.now ≡ 64 }
    ensures { (i : ℕ) → i < 64 → bit result i ≡ not (slice_index_or chosen.now i false) }
{
    let mut word = 0;
    for i in 0..64 {
        word |= u64::from(!chosen[i]) << i;
    }
    word
}

/// The lanes where the mask has its bit set, and zeros in the others.
pub fn masked(half: &[Vector; 32], mask: Vector) -> [Vector; 32]
    requires half { AreVectors half.now }
    requires mask { IsVector mask.words }
    ensures lanes { (l : ℕ) → l < 128 → lane l (words_of result) ≡ map (λ b. b && lane_bit l mask.words) (lane l (words_of half.now)) }
    ensures vectors { AreVectors result }
{
    let mut result = *half;
    for i in 0..32 {
        result[i] = masked_vector(half[i], mask);
    }
    result
}

/// The bits of a vector where the mask has its bits set.
#[inline(always)]
fn masked_vector(vector: Vector, mask: Vector) -> Vector
    requires vector { IsVector vector.words }
    requires mask { IsVector mask.words }
    ensures lanes { (l : ℕ) → l < 128 → lane_bit l result.words ≡ lane_bit l vector.words && lane_bit l mask.words }
    ensures vector { IsVector result.words }
{
    Vector {
        words: vector.words & mask.words,
    }
}
