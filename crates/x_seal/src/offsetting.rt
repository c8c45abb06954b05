ghost use Rattle.std.specs.Prelude.{◌≡◌, ℕ, ◌<◌, ◌^◌};
ghost use Rattle.x_base.specs.Count.{IsCount};
ghost use Rattle.x_base.specs.Ident.{expanded};
ghost use Rattle.x_des.specs.Des.{SameButParity};
ghost use Rattle.x_seal.specs.Offset.{notary_of, offset_of, spread_of};

use x_base::{Count, Ident};
use x_des::encrypt;
use x_mac::Pair;

/// The count spread over the eight bytes of a word, seven bits in each, the lowest bit of each
/// byte being zero.
pub fn spread(count: Count) -> u64
    ensures spread { result ≡ spread_of count }
    ensures count { IsCount count }
{
    let value = count.value();
    let mut bytes = [0; 8];
    for i in 0..8 {
        bytes[i] = (value >> (7 * (7 - i)) & 0x7f) as u8 * 2;
    }
    u64::from_be_bytes(bytes)
}

/// The pair of a key-encrypting key, offset with a count: exclusive or of both halves with the
/// spread count. No other count gives either half the same effective key.
pub fn offset(kk: Pair, count: Count) -> Pair
    ensures offset { result ≡ offset_of kk count }
    ensures left_apart { (d : ℕ) → d < 2 ^ 56 → SameButParity result.left (offset_of kk d).left → count ≡ d }
    ensures right_apart { (d : ℕ) → d < 2 ^ 56 → SameButParity result.right (offset_of kk d).right → count ≡ d }
{
    let spread = spread(count);
    Pair {
        left: kk.left ^ spread,
        right: kk.right ^ spread,
    }
}

/// The pair of a key-encrypting key, notarized for a key that passes from one identity to another
/// and offset with a count. With the same identities no other count gives either half the same
/// effective key.
pub fn notarize(kk: Pair, from: &Ident, to: &Ident, count: Count) -> Pair
    ensures notary { result ≡ notary_of kk (expanded from.now) (expanded to.now) count }
    ensures left_apart { (d : ℕ) → d < 2 ^ 56 → SameButParity result.left (notary_of kk (expanded from.now) (expanded to.now) d).left → count ≡ d }
    ensures right_apart { (d : ℕ) → d < 2 ^ 56 → SameButParity result.right (notary_of kk (expanded from.now) (expanded to.now) d).right → count ≡ d }
{
    let (from_left, from_right) = from.expand();
    let (to_left, to_right) = to.expand();
    let spread = spread(count);
    Pair {
        left: kk.left ^ encrypt(kk.right ^ from_left, to_right) ^ spread,
        right: kk.right ^ encrypt(kk.left ^ to_left, from_right) ^ spread,
    }
}
