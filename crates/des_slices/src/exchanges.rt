//! Vectors of the bits of numbers, by exchanges between them.
ghost use Rattle.std.specs.Prelude.{◌≡◌, ◌<◌, ◌+◌, ◌-◌, ◌*◌, ℕ, [], ◌∷◌, slice_index_or};
ghost use Rattle.x_des.specs.Bits.{bits_of};
ghost use Rattle.des_slices.specs.Exchanges.{Exchanged, IsMask, IsLevel};
ghost use Rattle.des_slices.specs.Vectors.{AreVectors, lane, words_of};

use crate::slices::LANES;
use crate::vector::{Vector, vectors_of};
use std::simd::u64x2;

/// Vectors of the bits of these numbers: vector `n` has bit `n` of each, the most significant first.
pub fn sliced(numbers: &[u64; LANES]) -> [Vector; 64]
    ensures lanes { (l : ℕ) → l < 128 → lane l (words_of result) ≡ bits_of 64 (slice_index_or numbers.now l 0) }
    ensures vectors { AreVectors result }
{
    let mut words = paired(numbers);
    let mut others = words;
    exchange_level(&words, &mut others, 32, 0x0000_0000_ffff_ffff);
    exchange_level(&others, &mut words, 16, 0x0000_ffff_0000_ffff);
    exchange_level(&words, &mut others, 8, 0x00ff_00ff_00ff_00ff);
    exchange_level(&others, &mut words, 4, 0x0f0f_0f0f_0f0f_0f0f);
    exchange_level(&words, &mut others, 2, 0x3333_3333_3333_3333);
    exchange_level(&others, &mut words, 1, 0x5555_5555_5555_5555);
    vectors_of(&words)
}

/// Numbers `n` and `64 + n` side by side, the last `n` first.
#[inline(always)]
fn paired(numbers: &[u64; LANES]) -> [u64x2; 64]
    ensures { (i w : ℕ) → i < 64 → w < 2 → slice_index_or (slice_index_or result i []) w 0 ≡ slice_index_or numbers.now (64 * w + (63 - i)) 0 }
{
    let mut words = [u64x2::splat(0); 64];
    for i in 0..64 {
        words[i] = u64x2::from_array([numbers[63 - i], numbers[127 - i]]);
    }
    words
}

/// Writes vectors `k` and `32 + k`, with bits exchanged between them, to the places `2 * k` and
/// `2 * k + 1`.
#[inline(always)]
fn exchange_level(words: &[u64x2; 64], after: &mut [u64x2; 64], distance: u64, mask: u64)
    requires distance { distance < 64 }
    requires mask { IsMask distance mask }
    ensures { IsLevel distance mask words.now after.new }
{
    for k in 0..32 {
        let [first, second] = exchanged(words[k], words[32 + k], distance, mask);
        after[2 * k] = first;
        after[2 * k + 1] = second;
    }
}

/// The bits of `a` at the mask's places, exchanged with those of `b` that stand higher by the
/// distance.
#[inline(always)]
fn exchanged(a: u64x2, b: u64x2, distance: u64, mask: u64) -> [u64x2; 2]
    requires distance { distance < 64 }
    requires mask { IsMask distance mask }
    ensures { Exchanged distance mask (a ∷ b ∷ []) result }
{
    let places = u64x2::splat(distance);
    let t = (b >> places ^ a) & u64x2::splat(mask);
    [a ^ t, b ^ t << places]
}
