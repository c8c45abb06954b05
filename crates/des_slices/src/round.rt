ghost use Rattle.std.specs.Prelude.{◌≡◌, ◌<◌, ◌*◌, ℕ, drop, take};
ghost use Rattle.std.specs.Simd.Lanes.{Each1};
ghost use Rattle.x_des.specs.Bits.{exclusive_or, pick};
ghost use Rattle.x_des.specs.Des.{cipher};
ghost use Rattle.x_des.specs.Tables.{expansion};
ghost use Rattle.des_slices.specs.Vectors.{AreVectors, IsVector, lane, words_of};

use crate::boxes_1_to_4::{box_1, box_2, box_3, box_4};
use crate::boxes_5_to_8::{box_5, box_6, box_7, box_8};
use crate::vector::{Vector, put};
use std::simd::u64x2;

/// Puts the cipher function of the right half and a round key onto the left half by exclusive or,
/// box by box. Before each box stand the places to which P takes its four bits.
#[inline(never)]
pub fn round(left: &mut [Vector; 32], right: &[Vector; 32], key: &[Vector; 48])
    requires left { AreVectors left.now }
    requires right { AreVectors right.now }
    requires key { AreVectors key.now }
    ensures lanes { (l : ℕ) → l < 128 → lane l (words_of left.new) ≡ exclusive_or (lane l (words_of left.old)) (cipher (lane l (words_of right.now)) (lane l (words_of key.now))) }
    ensures vectors { AreVectors left.new }
{
    put(left, [8, 16, 22, 30], box_1(six_bits(right, key, 0)));
    put(left, [12, 27, 1, 17], box_2(six_bits(right, key, 1)));
    put(left, [23, 15, 29, 5], box_3(six_bits(right, key, 2)));
    put(left, [25, 19, 9, 0], box_4(six_bits(right, key, 3)));
    put(left, [7, 13, 24, 2], box_5(six_bits(right, key, 4)));
    put(left, [3, 28, 10, 18], box_6(six_bits(right, key, 5)));
    put(left, [31, 11, 21, 6], box_7(six_bits(right, key, 6)));
    put(left, [4, 26, 14, 20], box_8(six_bits(right, key, 7)));
}

/// The six bits at the turn of an S-box, the first box 0: the exclusive or of a round key with what
/// E makes of a half.
#[inline(always)]
fn six_bits(half: &[Vector; 32], key: &[Vector; 48], turn: usize) -> [u64x2; 6]
    requires half { AreVectors half.now }
    requires key { AreVectors key.now }
    requires turn { turn < 8 }
    ensures lanes { (l : ℕ) → l < 128 → lane l result ≡ take 6 (drop (6 * turn) (exclusive_or (pick expansion (lane l (words_of half.now))) (lane l (words_of key.now)))) }
    ensures vectors { Each1 IsVector result }
{
    let mut bits = [u64x2::splat(0); 6];
    for i in 0..6 {
        bits[i] = half[(4 * turn + i + 31) % 32].words ^ key[6 * turn + i].words;
    }
    bits
}
