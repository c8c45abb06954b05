//! The text under the code at the end of a body.
ghost use Rattle.std.specs.Prelude.{◌≡◌};
ghost use Rattle.edc_slices.specs.Chains.{block_count};
ghost use Rattle.edc_slices.specs.Ends.{text_before_end};

use x_base::Text;

/// The bytes of a body but for the last four.
pub fn before_end(body: &Text) -> &[u8]
    ensures { result.now ≡ text_before_end body.now }
{
    let bytes = body.bytes();
    &bytes[..bytes.len().saturating_sub(4)]
}

/// How many blocks the text of a body has.
pub fn blocks(body: &Text) -> usize
    ensures { result ≡ block_count (text_before_end body.now) }
{
    before_end(body).len().div_ceil(8)
}
