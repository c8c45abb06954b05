ghost use Rattle.std.specs.Prelude.{◌≡◌, ◌<◌, ◌==◌, ℕ, nat_lt, true};
ghost use Rattle.std.specs.List.{list_all};
ghost use Rattle.des_slices.specs.Vectors.{AreVectors, IsVector, lane, lane_bit, put_at, words_of};

use std::simd::u64x2;

/// A bit of each of 128 lanes: that of lane `64 * w + i` is bit `i` of word `w`, where bit 0 is the
/// lowest.
#[derive(Clone, Copy)]
pub struct Vector {
    pub words: u64x2,
}

/// The vector of these two words.
#[inline(always)]
fn vector_of(words: u64x2) -> Vector
    ensures words { result.words ≡ words }
    ensures vector { IsVector result.words }
{
    Vector { words }
}

/// The vectors of these words.
pub fn vectors_of(words: &[u64x2; 64]) -> [Vector; 64]
    ensures words { words_of result ≡ words.now }
    ensures vectors { AreVectors result }
{
    let mut vectors = [vector_of(u64x2::splat(0)); 64];
    for i in 0..64 {
        vectors[i] = vector_of(words[i]);
    }
    vectors
}

/// Puts vectors onto those at these places of a half by exclusive or.
#[inline(always)]
pub fn put(half: &mut [Vector; 32], places: [usize; 4], vectors: [Vector; 4])
    requires half { AreVectors half.now }
    requires places { list_all (λ p. nat_lt p 32) places ≡ true }
    requires vectors { AreVectors vectors }
    ensures lanes { (l : ℕ) → l < 128 → lane l (words_of half.new) ≡ put_at places (lane l (words_of vectors)) (lane l (words_of half.old)) }
    ensures vectors { AreVectors half.new }
{
    for i in 0..4 {
        let place = places[i];
        half[place] = Vector {
            words: half[place].words ^ vectors[i].words,
        };
    }
}

/// The bit of a lane, 0 or 1.
#[inline(always)]
pub fn bit(vector: Vector, lane: usize) -> u32
    requires lane { lane < 128 }
    requires vector { IsVector vector.words }
    ensures bit { result == 1 ≡ lane_bit lane vector.words }
    ensures below { result < 2 }
{
    let words = vector.words.to_array();
    let word = if lane < 64 { words[0] } else { words[1] };
    (word >> (lane % 64) & 1) as u32
}
