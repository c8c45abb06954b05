//! The S-boxes of FIPS 46 as circuits: six vectors of input bits give four of output bits, the first
//! of each the most significant, in all lanes at once. bench/boxes.c found the gates.
ghost use Rattle.std.specs.Prelude.{◌≡◌, ◌<◌, ℕ};
ghost use Rattle.std.specs.Simd.Lanes.{Each1};
ghost use Rattle.x_des.specs.Des.{substituted};
ghost use Rattle.x_des.specs.Tables.{s5, s6, s7, s8};
ghost use Rattle.des_slices.specs.Vectors.{AreVectors, IsVector, lane, words_of};

use crate::vector::Vector;
use std::simd::u64x2;

/// S5.
#[inline(always)]
pub fn box_5(six: [u64x2; 6]) -> [Vector; 4]
    requires { Each1 IsVector six }
    ensures lanes { (l : ℕ) → l < 128 → lane l (words_of result) ≡ substituted s5 (lane l six) }
    ensures vectors { AreVectors result }
{
    let [a, b, c, d, e, f] = six;
    let g1 = f ^ a;
    let g2 = c ^ b;
    let g3 = g1 ^ g2;
    let g4 = a & !c;
    let g5 = e & !g4;
    let g6 = g3 ^ g5;
    let g7 = f & c;
    let g8 = g7 | a;
    let g9 = g8 & !g3;
    let g10 = b | g9;
    let g11 = g8 ^ g10;
    let g12 = c ^ a;
    let g13 = g12 & g1;
    let g14 = g13 & !e;
    let g15 = g11 ^ g14;
    let g16 = d | g15;
    let g17 = g6 ^ g16;
    let g18 = g12 ^ d;
    let g19 = g17 | g1;
    let g20 = g18 ^ g19;
    let g21 = g13 | d;
    let g22 = g18 & !c;
    let g23 = g21 ^ g22;
    let g24 = g23 & !e;
    let g25 = g20 ^ g24;
    let g26 = g24 | d;
    let g27 = g9 | g5;
    let g28 = g26 & g27;
    let g29 = g28 | b;
    let g30 = g8 ^ g2;
    let g31 = g10 & !g2;
    let g32 = g25 ^ g3;
    let g33 = g31 | g32;
    let g34 = g33 & !e;
    let g35 = g30 ^ g34;
    let g36 = g29 ^ g25;
    let g37 = g35 ^ g10;
    let g38 = g37 ^ b;
    let g39 = g38 & !e;
    let g40 = g36 ^ e;
    let g41 = g39 | g13;
    let g42 = g40 | g41;
    let g43 = g36 & !g2;
    let g44 = g39 ^ g32;
    let g45 = g43 ^ g44;
    let g46 = g42 & !d;
    let g47 = g45 ^ g46;
    let g48 = g36 | a;
    let g49 = g48 & !f;
    let g50 = g40 ^ g12;
    let g51 = b & !g50;
    let g52 = g49 ^ g51;
    let g53 = d | g52;
    let g54 = g35 ^ g53;
    [
        Vector { words: g36 },
        Vector { words: g17 },
        Vector { words: !g54 },
        Vector { words: g47 },
    ]
}

/// S6.
#[inline(always)]
pub fn box_6(six: [u64x2; 6]) -> [Vector; 4]
    requires { Each1 IsVector six }
    ensures lanes { (l : ℕ) → l < 128 → lane l (words_of result) ≡ substituted s6 (lane l six) }
    ensures vectors { AreVectors result }
{
    let [a, b, c, d, e, f] = six;
    let g1 = f ^ a;
    let g2 = b ^ a;
    let g3 = g1 & !g2;
    let g4 = f | a;
    let g5 = g4 & !g2;
    let g6 = g3 ^ g5;
    let g7 = c & !g6;
    let g8 = g3 ^ g7;
    let g9 = c & !f;
    let g10 = g2 & g1;
    let g11 = g10 & !g9;
    let g12 = e | g11;
    let g13 = g8 ^ g12;
    let g14 = g1 ^ b;
    let g15 = g10 & a;
    let g16 = c & !g15;
    let g17 = g14 ^ g16;
    let g18 = g16 & a;
    let g19 = c & !g18;
    let g20 = e & !g19;
    let g21 = g17 ^ g20;
    let g22 = g13 ^ g21;
    let g23 = e & !c;
    let g24 = g23 | g6;
    let g25 = a & !g24;
    let g26 = g21 | g9;
    let g27 = g25 ^ e;
    let g28 = g26 ^ g27;
    let g29 = g12 & !d;
    let g30 = g29 ^ g22;
    let g31 = e ^ a;
    let g32 = g28 & d;
    let g33 = g31 ^ g32;
    let g34 = g30 ^ g33;
    let g35 = g34 & !f;
    let g36 = g4 & e;
    let g37 = g28 ^ g8;
    let g38 = g37 ^ f;
    let g39 = g36 | g28;
    let g40 = b & g39;
    let g41 = g38 ^ g40;
    let g42 = g27 & !g10;
    let g43 = g42 & g14;
    let g44 = d & !g43;
    let g45 = g41 ^ g44;
    let g46 = g35 ^ g30;
    let g47 = g36 ^ b;
    let g48 = c & !g47;
    let g49 = g46 ^ g48;
    let g50 = g22 | d;
    let g51 = g50 ^ g13;
    let g52 = e | c;
    let g53 = g17 | g10;
    let g54 = g53 & !g20;
    let g55 = f & g54;
    let g56 = g52 ^ g55;
    let g57 = g56 & !d;
    let g58 = g28 ^ g57;
    [
        Vector { words: !g58 },
        Vector { words: !g51 },
        Vector { words: g45 },
        Vector { words: g49 },
    ]
}

/// S7.
#[inline(always)]
pub fn box_7(six: [u64x2; 6]) -> [Vector; 4]
    requires { Each1 IsVector six }
    ensures lanes { (l : ℕ) → l < 128 → lane l (words_of result) ≡ substituted s7 (lane l six) }
    ensures vectors { AreVectors result }
{
    let [a, b, c, d, e, f] = six;
    let g1 = c | b;
    let g2 = d ^ a;
    let g3 = g1 ^ g2;
    let g4 = b & a;
    let g5 = g2 ^ c;
    let g6 = g4 & g5;
    let g7 = f & !g6;
    let g8 = g3 ^ g7;
    let g9 = d & !c;
    let g10 = d & b;
    let g11 = f & g10;
    let g12 = g9 ^ g11;
    let g13 = g9 ^ b;
    let g14 = f & g13;
    let g15 = a & g14;
    let g16 = g12 ^ g15;
    let g17 = e | g16;
    let g18 = g8 ^ g17;
    let g19 = !g18 & g16;
    let g20 = g1 ^ e;
    let g21 = g19 ^ g20;
    let g22 = g18 ^ c;
    let g23 = c ^ b;
    let g24 = g22 ^ g23;
    let g25 = !d & g24;
    let g26 = g22 ^ g25;
    let g27 = !a & g26;
    let g28 = g10 ^ g5;
    let g29 = g26 | g9;
    let g30 = g28 ^ g29;
    let g31 = g30 & !f;
    let g32 = g31 ^ g27;
    let g33 = g32 ^ g21;
    let g34 = g28 ^ g27;
    let g35 = g28 & !g4;
    let g36 = g35 ^ d;
    let g37 = !g34 & g30;
    let g38 = e | g37;
    let g39 = g36 ^ g38;
    let g40 = g24 & a;
    let g41 = g26 ^ g6;
    let g42 = c & !g41;
    let g43 = g40 ^ g42;
    let g44 = f | g43;
    let g45 = g39 ^ g44;
    let g46 = g20 & g10;
    let g47 = g34 ^ g16;
    let g48 = g46 ^ g47;
    let g49 = g45 ^ g20;
    let g50 = g42 ^ g18;
    let g51 = d | g50;
    let g52 = g49 ^ g51;
    let g53 = !f & g52;
    let g54 = g48 ^ g53;
    [
        Vector { words: g45 },
        Vector { words: !g33 },
        Vector { words: g54 },
        Vector { words: g18 },
    ]
}

/// S8.
#[inline(always)]
pub fn box_8(six: [u64x2; 6]) -> [Vector; 4]
    requires { Each1 IsVector six }
    ensures lanes { (l : ℕ) → l < 128 → lane l (words_of result) ≡ substituted s8 (lane l six) }
    ensures vectors { AreVectors result }
{
    let [a, b, c, d, e, f] = six;
    let g1 = e ^ b;
    let g2 = d & !b;
    let g3 = c & !g2;
    let g4 = g1 ^ g3;
    let g5 = e | c;
    let g6 = g3 ^ d;
    let g7 = g5 ^ g6;
    let g8 = f & !g7;
    let g9 = g4 ^ g8;
    let g10 = f ^ e;
    let g11 = g10 & g7;
    let g12 = g1 ^ c;
    let g13 = g12 | g7;
    let g14 = !b & g13;
    let g15 = g11 ^ g14;
    let g16 = !a & g15;
    let g17 = g9 ^ g16;
    let g18 = g17 ^ g15;
    let g19 = g6 & b;
    let g20 = g17 ^ a;
    let g21 = g19 ^ g20;
    let g22 = e & !g21;
    let g23 = g18 ^ g22;
    let g24 = !g17 & g12;
    let g25 = !g14 & a;
    let g26 = g24 | g25;
    let g27 = g17 ^ g5;
    let g28 = g27 | g19;
    let g29 = !d & g28;
    let g30 = g26 ^ g29;
    let g31 = !f & g30;
    let g32 = g23 ^ g31;
    let g33 = g14 | g10;
    let g34 = g33 ^ a;
    let g35 = g28 | e;
    let g36 = !c & g35;
    let g37 = g34 ^ g36;
    let g38 = g33 | g31;
    let g39 = g17 & !e;
    let g40 = g39 | g16;
    let g41 = b | g40;
    let g42 = g38 ^ g41;
    let g43 = d | g42;
    let g44 = g37 ^ g43;
    let g45 = g18 | g8;
    let g46 = g34 & !g7;
    let g47 = g45 ^ g46;
    let g48 = !g37 & a;
    let g49 = !g40 & d;
    let g50 = g49 ^ g47;
    let g51 = c & !g50;
    let g52 = g48 ^ g51;
    let g53 = !b & g52;
    let g54 = g47 ^ g53;
    [
        Vector { words: !g32 },
        Vector { words: !g17 },
        Vector { words: g54 },
        Vector { words: !g44 },
    ]
}
