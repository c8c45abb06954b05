ghost use Rattle.std.specs.Prelude.{◌≡◌, ◌<◌, ◌≤◌, ◌-◌, ◌∷◌, [], false, take, drop};
ghost use Rattle.x_des.specs.Bits.{bits_of};
ghost use Rattle.x_des.specs.Block.{IsDoubled, doubled, half};
ghost use Rattle.x_des.specs.Combined.{box_and_permutation_of};
ghost use Rattle.x_des.specs.Des.{cipher};
ghost use Rattle.x_des.specs.RoundKey.{gathered};

use crate::block::{SIXES, single};
use crate::combined::COMBINED;

/// What P makes of the output of S-box `which + 1` for six input bits, the other boxes giving
/// zeros.
pub fn box_and_permutation(which: usize, bits: u8) -> u32
    requires which { which < 8 }
    requires bits { bits < 64 }
    ensures { result ≡ box_and_permutation_of which bits }
{
    single(COMBINED[which][bits as usize])
}

/// The same, doubled as the halves of a block are.
fn entry(which: usize, bits: u8) -> u64
    requires which { which < 8 }
    requires bits { bits < 64 }
    ensures { bits_of 64 result ≡ doubled (bits_of 32 (box_and_permutation_of which bits)) }
{
    COMBINED[which][bits as usize]
}

/// The six bits of a word from bit `low` on, which end a byte that begins with two zeros.
fn six(word: u64, low: u32) -> u8
    requires low { low ≤ 56 }
    requires zeros { take 2 (drop (56 - low) (bits_of 64 word)) ≡ false ∷ false ∷ [] }
    ensures below { result < 64 }
    ensures bits { bits_of 6 result ≡ take 6 (drop (58 - low) (bits_of 64 word)) }
{
    (word >> low & 0xff) as u8
}

/// The cipher function f of FIPS 46, of a doubled half of a block and a round key; the result is
/// doubled.
pub fn mixed(wide: u64, round_key: u64) -> u64
    requires { IsDoubled wide }
    ensures { bits_of 64 result ≡ doubled (cipher (half wide) (gathered (bits_of 64 round_key))) }
{
    // E gives each box six neighbouring bits, which end a byte of the doubled half.
    let given = wide ^ round_key & SIXES;
    // Entries of two boxes have no bit in common, so that some can be joined by or: a compiler makes one
    // long chain of exclusive ors alone.
    (entry(7, six(given, 0)) | entry(5, six(given, 8)))
        ^ (entry(3, six(given, 16)) | entry(1, six(given, 24)))
        ^ (entry(6, six(given, 32)) | entry(4, six(given, 40)))
        ^ (entry(2, six(given, 48)) | entry(0, six(given, 56)))
}
