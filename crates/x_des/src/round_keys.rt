ghost use Rattle.std.specs.Prelude.{◌≡◌, ℕ, ◌<◌, ◌^◌, ◌++◌, bit_xor, length, map, slice_index, take, drop};
ghost use Rattle.x_des.specs.Bits.{bits_of};
ghost use Rattle.x_des.specs.Des.{round_keys};
ghost use Rattle.x_des.specs.RoundKey.{added, gathered};

use crate::rows_c::C_ROWS;
use crate::rows_d::D_ROWS;

/// The round keys of a key, each in the bytes of a word.
pub fn round_keys(key: u64) -> [u64; 16]
    ensures { map (λ word. gathered (bits_of 64 word)) result ≡ round_keys (bits_of 64 key) }
{
    let c = sums(&C_ROWS, key >> 4);
    let d = sums(&D_ROWS, key >> 1);
    let mut keys = [0; 16];
    for i in 0..16 {
        keys[i] = joined(c[i], d[i]);
    }
    keys
}

/// The exclusive or of the rows that the last four bits of each byte name, entry by entry.
fn sums(rows: &[[u32; 256]; 8], bits: u64) -> [u32; 16]
    ensures { (i : ℕ) → i < 16 → slice_index result i ≡ added rows.now bits 8 i }
{
    let mut sums = [0; 16];
    for n in 0..8 {
        let named = (bits >> (56 - 8 * n) & 0x0f) as usize;
        add(&mut sums, &rows[n][16 * named..16 * named + 16]);
    }
    sums
}

/// Adds a row to the sums by exclusive or.
fn add(sums: &mut [u32; 16], row: &[u32])
    requires { length row.now ≡ 16 }
    ensures { (i : ℕ) → i < 16 → slice_index sums.new i ≡ bit_xor (slice_index sums.old i) (slice_index row.now i) }
{
    for i in 0..16 {
        sums[i] ^= row[i];
    }
}

/// The high halves of two words, and then their low halves.
fn joined(c: u32, d: u32) -> u64
    ensures { bits_of 64 result ≡ ((take 16 (bits_of 32 c) ++ take 16 (bits_of 32 d)) ++ drop 16 (bits_of 32 c)) ++ drop 16 (bits_of 32 d) }
{
    u64::from(c >> 16) << 48
        | u64::from(d >> 16) << 32
        | u64::from(c & 0xffff) << 16
        | u64::from(d & 0xffff)
}
