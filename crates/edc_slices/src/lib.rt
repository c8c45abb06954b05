//! Error detection codes of up to 512 texts, 128 at a time.
#![tactic(auto)]

ghost use Rattle.std.specs.Prelude.{◌≡◌, ℕ, ◌<◌, ◌≤◌, [], length, slice_index_or};
ghost use Rattle.x_mac.specs.Code.{edc_of};
ghost use Rattle.edc_slices.specs.Ends.{text_before_end};
ghost use Rattle.edc_slices.specs.Lanes.{AreMade};

mod chain;
mod lanes;
mod queue;
mod text;

use chain::{BLOCKS_A_STEP, side_by_side};
use des_slices::LANES;
use text::{before_end, blocks};
use x_base::Text;
use x_mac::edc;

/// How many bodies a call takes at most.
pub const MOST_CODES: usize = 512;

/// The error detection code of each of these bodies but for its last four bytes (of a body of at
/// most four bytes: of no text, 0). What stands behind the codes of the bodies means nothing.
pub fn codes_before_ends(bodies: &[Text]) -> [u32; MOST_CODES]
    requires { length bodies.now ≤ 512 }
    ensures { (i : ℕ) → i < length bodies.now → slice_index_or result i 0 ≡ edc_of (text_before_end (slice_index_or bodies.now i [])) }
{
    let mut codes = [None; MOST_CODES];
    let mut all: usize = 0;
    let mut longest = 0;
    for body in bodies {
        let count = blocks(body);
        all = all.saturating_add(count);
        longest = longest.max(count);
    }
    if all > longest.saturating_mul(BLOCKS_A_STEP) {
        side_by_side(bodies, longest, all / LANES, &mut codes);
    }
    completed(bodies, &codes)
}

/// The codes that are made, and the others, one by one.
fn completed(bodies: &[Text], made: &[Option<u32>; MOST_CODES]) -> [u32; MOST_CODES]
    requires few { length bodies.now ≤ 512 }
    requires made { AreMade made.now bodies.now }
    ensures { (i : ℕ) → i < length bodies.now → slice_index_or result i 0 ≡ edc_of (text_before_end (slice_index_or bodies.now i [])) }
{
    let mut codes = [0; MOST_CODES];
    for (i, body) in bodies.iter().enumerate() {
        codes[i] = match made[i] {
            Some(code) => code,
            None => edc(before_end(body)),
        };
    }
    codes
}
