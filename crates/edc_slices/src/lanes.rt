//! What is left of a text whose chain is in a lane.
ghost use Rattle.std.specs.Prelude.{◌≡◌, ◌≤◌, drop, length};
ghost use Rattle.x_mac.specs.Code.{word_of};
ghost use Rattle.edc_slices.specs.Chains.{block_at_step};

/// The number of the text in a lane, if it has one, and what of the text isn't in the chain yet.
#[derive(Clone, Copy)]
pub struct Lane<'a> {
    pub text: Option<usize>,
    pub rest: &'a [u8],
}

impl<'a> Lane<'a> {
    /// The next block, filled with zeros where the text ends in it.
    #[inline(always)]
    pub fn next_block(&mut self) -> u64
        ensures text { self.new.text ≡ self.old.text }
        ensures rest { self.new.rest.now ≡ drop 8 self.old.rest.now }
        ensures block { result ≡ word_of (block_at_step self.old.rest.now 0) }
    {
        let rest = self.rest;
        match rest.first_chunk::<8>() {
            Some(block) => {
                self.rest = &rest[8..];
                u64::from_be_bytes(*block)
            }
            None => {
                self.rest = &[];
                last_block(rest)
            }
        }
    }
}

/// Up to eight bytes, and zeros behind them.
fn last_block(bytes: &[u8]) -> u64
    requires { length bytes.now ≤ 8 }
    ensures { result ≡ word_of (block_at_step bytes.now 0) }
{
    let mut filled = [0; 8];
    filled[..bytes.len()].copy_from_slice(bytes);
    u64::from_be_bytes(filled)
}
