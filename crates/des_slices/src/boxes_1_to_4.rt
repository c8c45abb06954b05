//! The S-boxes of FIPS 46 as circuits: six vectors of input bits give four of output bits, the first
//! of each the most significant, in all lanes at once. bench/boxes.c found the gates.
ghost use Rattle.std.specs.Prelude.{◌≡◌, ◌<◌, ℕ};
ghost use Rattle.std.specs.Simd.Lanes.{Each1};
ghost use Rattle.x_des.specs.Des.{substituted};
ghost use Rattle.x_des.specs.Tables.{s1, s2, s3, s4};
ghost use Rattle.des_slices.specs.Vectors.{AreVectors, IsVector, lane, words_of};

use crate::vector::Vector;
use std::simd::u64x2;

/// S1.
#[inline(always)]
pub fn box_1(six: [u64x2; 6]) -> [Vector; 4]
    requires { Each1 IsVector six }
    ensures lanes { (l : ℕ) → l < 128 → lane l (words_of result) ≡ substituted s1 (lane l six) }
    ensures vectors { AreVectors result }
{
    let [a, b, c, d, e, f] = six;
    let g1 = c | a;
    let g2 = g1 & d;
    let g3 = d ^ a;
    let g4 = g3 & !c;
    let g5 = f & !g4;
    let g6 = g2 ^ g5;
    let g7 = g6 ^ c;
    let g8 = g1 ^ f;
    let g9 = g8 & !g7;
    let g10 = e | g9;
    let g11 = g1 & !g5;
    let g12 = g10 ^ f;
    let g13 = g11 & !g12;
    let g14 = g2 & e;
    let g15 = g13 ^ g3;
    let g16 = g14 | g15;
    let g17 = c & !g16;
    let g18 = g13 ^ g17;
    let g19 = a & !g5;
    let g20 = g15 ^ g7;
    let g21 = g20 & !g19;
    let g22 = f ^ d;
    let g23 = g22 & !g9;
    let g24 = g3 & !f;
    let g25 = g23 | g18;
    let g26 = g25 ^ g21;
    let g27 = g24 ^ g12;
    let g28 = g18 | b;
    let g29 = g28 ^ g10;
    let g30 = g29 ^ g6;
    let g31 = d & !c;
    let g32 = g31 | g28;
    let g33 = g27 & !g32;
    let g34 = g30 ^ g25;
    let g35 = g27 | c;
    let g36 = g35 ^ g26;
    let g37 = g34 ^ g36;
    let g38 = e & g37;
    let g39 = g34 ^ g38;
    let g40 = g15 ^ g11;
    let g41 = g40 | g9;
    let g42 = e & g41;
    let g43 = g26 ^ g42;
    let g44 = g39 ^ c;
    let g45 = g44 | g27;
    let g46 = g45 & !b;
    let g47 = g43 ^ g46;
    let g48 = g33 ^ g21;
    let g49 = g48 ^ b;
    let g50 = g47 | b;
    let g51 = g50 & !g23;
    let g52 = e & g51;
    let g53 = g49 ^ g52;
    let g54 = g12 & !g40;
    let g55 = g54 | g32;
    let g56 = g55 & !b;
    let g57 = g39 ^ g56;
    [
        Vector { words: !g30 },
        Vector { words: !g57 },
        Vector { words: !g47 },
        Vector { words: g53 },
    ]
}

/// S2.
#[inline(always)]
pub fn box_2(six: [u64x2; 6]) -> [Vector; 4]
    requires { Each1 IsVector six }
    ensures lanes { (l : ℕ) → l < 128 → lane l (words_of result) ≡ substituted s2 (lane l six) }
    ensures vectors { AreVectors result }
{
    let [a, b, c, d, e, f] = six;
    let g1 = e | a;
    let g2 = b ^ a;
    let g3 = g1 & !g2;
    let g4 = g3 ^ e;
    let g5 = b & !g4;
    let g6 = f & !g5;
    let g7 = f ^ a;
    let g8 = g5 | f;
    let g9 = e & g8;
    let g10 = g9 | f;
    let g11 = b & !g10;
    let g12 = f & e;
    let g13 = g7 ^ e;
    let g14 = g12 ^ b;
    let g15 = g13 ^ d;
    let g16 = g15 & !g6;
    let g17 = g16 & !a;
    let g18 = g17 ^ g14;
    let g19 = g9 | g7;
    let g20 = g11 | g7;
    let g21 = g20 ^ g19;
    let g22 = g19 ^ g4;
    let g23 = g18 | b;
    let g24 = g23 & !d;
    let g25 = g22 ^ g24;
    let g26 = c | g21;
    let g27 = g25 ^ g26;
    let g28 = g13 & g2;
    let g29 = g6 ^ g3;
    let g30 = g29 | g7;
    let g31 = g30 & !g9;
    let g32 = c | g31;
    let g33 = g29 ^ g32;
    let g34 = g28 ^ g10;
    let g35 = g34 & g23;
    let g36 = d & !g35;
    let g37 = g33 ^ g36;
    let g38 = g15 | g11;
    let g39 = g38 ^ g8;
    let g40 = g10 ^ b;
    let g41 = g12 & d;
    let g42 = g40 ^ g41;
    let g43 = g42 & !c;
    let g44 = g39 ^ g43;
    let g45 = e | d;
    let g46 = g45 ^ g18;
    let g47 = g1 & !g25;
    let g48 = g28 | g17;
    let g49 = g47 | g48;
    let g50 = g49 & !c;
    let g51 = g46 ^ g50;
    [
        Vector { words: !g27 },
        Vector { words: !g44 },
        Vector { words: !g51 },
        Vector { words: !g37 },
    ]
}

/// S3.
#[inline(always)]
pub fn box_3(six: [u64x2; 6]) -> [Vector; 4]
    requires { Each1 IsVector six }
    ensures lanes { (l : ℕ) → l < 128 → lane l (words_of result) ≡ substituted s3 (lane l six) }
    ensures vectors { AreVectors result }
{
    let [a, b, c, d, e, f] = six;
    let g1 = d & a;
    let g2 = f ^ d;
    let g3 = g1 | g2;
    let g4 = g2 & a;
    let g5 = g4 ^ d;
    let g6 = e & g5;
    let g7 = g3 ^ g6;
    let g8 = g4 & !d;
    let g9 = g8 ^ e;
    let g10 = c & g9;
    let g11 = g7 ^ g10;
    let g12 = f ^ c;
    let g13 = !g9 & a;
    let g14 = !g12 & g13;
    let g15 = b | g14;
    let g16 = g11 ^ g15;
    let g17 = g8 ^ f;
    let g18 = b | g17;
    let g19 = g18 & g16;
    let g20 = c & b;
    let g21 = g19 & !g20;
    let g22 = a | g21;
    let g23 = g22 ^ b;
    let g24 = g16 | g5;
    let g25 = g23 & !g24;
    let g26 = f | g25;
    let g27 = g2 ^ e;
    let g28 = g27 ^ c;
    let g29 = !g24 & f;
    let g30 = a | g29;
    let g31 = g28 ^ g30;
    let g32 = g26 | g16;
    let g33 = g13 | g5;
    let g34 = c & g33;
    let g35 = g32 ^ g34;
    let g36 = b | g35;
    let g37 = g31 ^ g36;
    let g38 = g22 ^ g18;
    let g39 = g38 ^ g12;
    let g40 = !g17 & c;
    let g41 = g37 | g30;
    let g42 = !d & g41;
    let g43 = g40 ^ g42;
    let g44 = e & !g43;
    let g45 = g39 ^ g44;
    let g46 = g23 ^ g5;
    let g47 = g39 ^ g26;
    let g48 = g46 ^ g47;
    let g49 = g39 ^ g37;
    let g50 = g49 & !g2;
    let g51 = g48 & a;
    let g52 = g51 ^ g2;
    let g53 = c & !g52;
    let g54 = g50 ^ g53;
    let g55 = e | g54;
    let g56 = g48 ^ g55;
    [
        Vector { words: !g37 },
        Vector { words: g45 },
        Vector { words: !g56 },
        Vector { words: g16 },
    ]
}

/// S4.
#[inline(always)]
pub fn box_4(six: [u64x2; 6]) -> [Vector; 4]
    requires { Each1 IsVector six }
    ensures lanes { (l : ℕ) → l < 128 → lane l (words_of result) ≡ substituted s4 (lane l six) }
    ensures vectors { AreVectors result }
{
    let [a, b, c, d, e, f] = six;
    let g1 = d ^ c;
    let g2 = g1 ^ a;
    let g3 = g1 | a;
    let g4 = g3 & d;
    let g5 = e | g4;
    let g6 = g2 ^ g5;
    let g7 = g4 ^ g2;
    let g8 = !g7 & c;
    let g9 = !g1 & a;
    let g10 = !e & g9;
    let g11 = g8 ^ g10;
    let g12 = b | g11;
    let g13 = g6 ^ g12;
    let g14 = !g9 & e;
    let g15 = !g7 & d;
    let g16 = g14 ^ g15;
    let g17 = g13 ^ a;
    let g18 = g17 | g8;
    let g19 = !b & g18;
    let g20 = g16 ^ g19;
    let g21 = g13 ^ g20;
    let g22 = g21 & !f;
    let g23 = g22 ^ g20;
    let g24 = g23 ^ f;
    let g25 = g23 ^ g21;
    let g26 = !g11 & g3;
    let g27 = g16 & b;
    let g28 = g26 ^ g27;
    let g29 = !g21 & g18;
    let g30 = g29 | g19;
    let g31 = e | g30;
    let g32 = g28 ^ g31;
    let g33 = g15 ^ b;
    let g34 = c & !g27;
    let g35 = g33 ^ g34;
    let g36 = g16 & !b;
    let g37 = e & g36;
    let g38 = g35 ^ g37;
    let g39 = f & !g38;
    let g40 = g32 ^ g39;
    let g41 = g40 ^ g38;
    let g42 = g41 ^ f;
    [
        Vector { words: g40 },
        Vector { words: !g42 },
        Vector { words: !g24 },
        Vector { words: !g25 },
    ]
}
