ghost use Rattle.std.specs.Prelude.{◌≡◌};
ghost use Rattle.x_values.specs.Words.{key_of, one_or_two_of, pair_of};

use hex::FromHex;
use x_mac::Pair;

/// A key of 16 hexadecimal digits of either case.
pub fn read_key(digits: &[u8]) -> Option<u64>
    ensures { result ≡ key_of digits.now }
{
    match <[u8; 8] as FromHex>::from_hex(digits) {
        Ok(bytes) => Some(u64::from_be_bytes(bytes)),
        Err(_) => None,
    }
}

/// A pair of keys, 32 hexadecimal digits of either case, the left half first.
pub fn read_pair(digits: &[u8]) -> Option<Pair>
    ensures { result ≡ pair_of digits.now }
{
    if digits.len() != 32 {
        return None;
    }
    let (left, right) = digits.split_at(16);
    Some(Pair {
        left: read_key(left)?,
        right: read_key(right)?,
    })
}

/// A pair of keys, or one key as a pair of equal halves.
pub fn read_one_or_two(digits: &[u8]) -> Option<Pair>
    ensures { result ≡ one_or_two_of digits.now }
{
    match read_key(digits) {
        Some(key) => Some(Pair {
            left: key,
            right: key,
        }),
        None => read_pair(digits),
    }
}
