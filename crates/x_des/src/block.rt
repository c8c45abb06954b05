ghost use Rattle.std.specs.Prelude.{◌≡◌, ◌++◌, ◌<◌, ◌^◌, bit_xor};
ghost use Rattle.x_des.specs.Bits.{bits_of, chosen, pick, shifted_left, shifted_right};
ghost use Rattle.x_des.specs.Block.{doubled, half};
ghost use Rattle.x_des.specs.Tables.{ip, ip_inverse};

use std::marker::Model;

/// The last six bits of each byte, in which a doubled half keeps its bits.
pub const SIXES: u64 = 0x3f3f_3f3f_3f3f_3f3f;

/// A block of 64 bits, kept as the two halves that IP of FIPS 46 makes of it, each doubled, so that
/// a chain of blocks passes IP and its inverse once. Contracts see it as the block.
#[derive(Drop)]
pub struct Block {
    pub(crate) left: u64,
    pub(crate) right: u64,
}

impl Model for Block {
    ghost use Rattle.std.specs.Prelude.{ℕ};
    ghost use Rattle.x_des.specs.Block.{HasDoubledHalves, block_of};

    ghost Value = { ℕ };

    ghost view = { block_of };

    ghost invariant = { HasDoubledHalves };
}

impl Block {
    /// The block with these 64 bits.
    pub fn new(word: u64) -> Block
        ensures { result ≡ word }
    {
        let (left, right) = permuted((word >> 32) as u32, (word & 0xffff_ffff) as u32);
        Block {
            left: doubled(left),
            right: doubled(right),
        }
    }

    /// The 64 bits of the block.
    pub fn word(&self) -> u64
        ensures { result ≡ self.now }
    {
        let (left, right) = restored(single(self.left), single(self.right));
        u64::from(left) << 32 | u64::from(right)
    }

    /// The exclusive or of two blocks.
    pub fn xor(&self, other: &Block) -> Block
        ensures { result ≡ bit_xor self.now other.now }
    {
        Block {
            left: self.left ^ other.left,
            right: self.right ^ other.right,
        }
    }
}

/// A half of a block, doubled.
fn doubled(half: u32) -> u64
    ensures { bits_of 64 result ≡ doubled (bits_of 32 half) }
{
    (u64::from(half.rotate_left(29)) << 32 | u64::from(half.rotate_left(1))) & SIXES
}

/// The half of a block that is doubled in a word.
pub fn single(doubled: u64) -> u32
    ensures { bits_of 32 result ≡ half doubled }
{
    choose(
        0x9f9f_9f9f,
        ((doubled & 0xffff_ffff) as u32).rotate_left(31),
        ((doubled >> 32) as u32).rotate_left(3),
    )
}

/// The bits of `these` where the mask has ones, and those of `others` elsewhere.
fn choose(mask: u32, these: u32, others: u32) -> u32
    ensures { bits_of 32 result ≡ chosen (bits_of 32 mask) (bits_of 32 these) (bits_of 32 others) }
{
    others ^ (these ^ others) & mask
}

/// Exchanges the bits of `low` under the mask with the bits of `high` that stand `by` places to
/// the left of them.
fn exchanged(high: u32, low: u32, by: u32, mask: u32) -> (u32, u32)
    requires { by < 32 }
    ensures high { bits_of 32 result.0 ≡ chosen (shifted_left by (bits_of 32 mask)) (shifted_left by (bits_of 32 low)) (bits_of 32 high) }
    ensures low { bits_of 32 result.1 ≡ chosen (bits_of 32 mask) (shifted_right by (bits_of 32 high)) (bits_of 32 low) }
{
    (
        choose(mask << by, low << by, high),
        choose(mask, high >> by, low),
    )
}

/// The halves that IP makes of the two halves of a block.
fn permuted(left: u32, right: u32) -> (u32, u32)
    ensures { bits_of 32 result.0 ++ bits_of 32 result.1 ≡ pick ip (bits_of 32 left ++ bits_of 32 right) }
{
    let (left, right) = exchanged(left, right, 4, 0x0f0f_0f0f);
    let (left, right) = exchanged(left, right, 16, 0x0000_ffff);
    let (right, left) = exchanged(right, left, 2, 0x3333_3333);
    let (right, left) = exchanged(right, left, 8, 0x00ff_00ff);
    exchanged(left, right, 1, 0x5555_5555)
}

/// The halves that the inverse of IP makes of two halves.
fn restored(left: u32, right: u32) -> (u32, u32)
    ensures { bits_of 32 result.0 ++ bits_of 32 result.1 ≡ pick ip_inverse (bits_of 32 left ++ bits_of 32 right) }
{
    let (left, right) = exchanged(left, right, 1, 0x5555_5555);
    let (right, left) = exchanged(right, left, 8, 0x00ff_00ff);
    let (right, left) = exchanged(right, left, 2, 0x3333_3333);
    let (left, right) = exchanged(left, right, 16, 0x0000_ffff);
    exchanged(left, right, 4, 0x0f0f_0f0f)
}
