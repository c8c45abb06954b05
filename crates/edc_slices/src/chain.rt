//! The chains of texts side by side.
ghost use Rattle.std.specs.Prelude.{◌≡◌, ℕ, ◌<◌, ◌≤◌, ◌/◌, ◌^◌, IfSome, List, length, map, slice_index_or};
ghost use Rattle.x_des.specs.Des.{enciphered};
ghost use Rattle.x_mac.specs.Code.{edc_of};
ghost use Rattle.edc_slices.specs.Chains.{edc_key, stepped};
ghost use Rattle.edc_slices.specs.Lanes.{AreMade, HasChain, HaveChains, text_of};

use crate::MOST_CODES;
use crate::lanes::Lane;
use crate::queue::Queue;
use crate::text::blocks;
use des_slices::{LANES, SlicedKey, Slices};
use x_base::Text;

/// The key of an error detection code.
const EDC_KEY: u64 = 0x0123_4567_89AB_CDEF;

/// The round keys of `EDC_KEY`, each of 48 bits.
const EDC_ROUND_KEYS: [u64; 16] = [
    0x0b02_679b_49a5,
    0x69a6_5925_6a26,
    0x45d4_8ab4_28d2,
    0x7289_d2a5_8257,
    0x3ce8_0317_a6c2,
    0x2325_1e3c_8545,
    0x6c04_950a_e4c6,
    0x5788_386c_e581,
    0xc0c9_e926_b839,
    0x91e3_0763_1d72,
    0x211f_830d_893a,
    0x7130_e545_5c54,
    0x91c4_d049_80fc,
    0x5443_b681_dc8d,
    0xb691_050a_16b5,
    0xca3d_03b8_7032,
];

/// A step of the chains side by side takes about as long as so many blocks one by one.
pub const BLOCKS_A_STEP: usize = 40;

/// A lane behind a step, the block that goes onto its chain, and whether the chain begins with it.
#[derive(Clone, Copy)]
struct Step<'a> {
    lane: Lane<'a>,
    block: u64,
    begun: bool,
}

/// Makes codes of bodies but for their last four bytes, with the chains of texts side by side, a
/// block a step. Where a text has ended, its lane goes on with another one. Where no text waits and
/// further steps aren't worth their time, the chains are left; the codes of the texts that are in
/// lanes then aren't made.
///
/// The longest text has `longest` blocks, and a lane's share is `share` of them all. A text begins
/// at step `share` at the latest, so that `longest + share + 1` steps are always enough where the
/// chains aren't left before; that number only ends the loop.
pub fn side_by_side(
    bodies: &[Text],
    longest: usize,
    share: usize,
    codes: &mut [Option<u32>; MOST_CODES],
)
    requires few { length bodies.now ≤ 512 }
    requires made { AreMade codes.old bodies.now }
    ensures { AreMade codes.new bodies.now }
{
    let key = SlicedKey::of_round_keys(&EDC_ROUND_KEYS, EDC_KEY);
    let mut chains = Slices::zeros();
    let mut queue = Queue::new(longest);
    let mut lanes = [Lane {
        text: None,
        rest: &[],
    }; LANES];
    for _step in 0..longest.saturating_add(share).saturating_add(1) {
        feed(bodies, &mut queue, &mut lanes, &mut chains, codes);
        if queue.is_at_end(bodies) && !is_worth_steps(bodies, &lanes) {
            break;
        }
        chains.encrypt(&key);
    }
}

/// Puts the next block of each lane's text onto its chain. Where a text has ended, its code is
/// taken, and the lane begins with another one.
fn feed<'a>(
    bodies: &'a [Text],
    queue: &mut Queue,
    lanes: &mut [Lane<'a>; LANES],
    chains: &mut Slices,
    codes: &mut [Option<u32>; MOST_CODES],
)
    requires few { length bodies.now ≤ 512 }
    requires size { length chains.old ≡ 128 }
    requires chains { HaveChains bodies.now lanes.old chains.old }
    requires made { AreMade codes.old bodies.now }
    ensures size { length chains.new ≡ 128 }
    ensures chains { HaveChains bodies.entry.now lanes.new (map (enciphered edc_key) chains.new) }
    ensures made { AreMade codes.new bodies.entry.now }
{
    let mut next_blocks = [0; LANES];
    let mut begun = [false; LANES];
    for i in 0..LANES {
        let step = next_step(bodies, queue, lanes[i], chains, i, codes);
        lanes[i] = step.lane;
        next_blocks[i] = step.block;
        begun[i] = step.begun;
    }
    chains.clear(&begun);
    chains.xor(&next_blocks);
}

/// Whether going on with the texts in lanes takes less time than making their codes one by one:
/// together they have more than `BLOCKS_A_STEP` times the blocks of the longest rest.
fn is_worth_steps(bodies: &[Text], lanes: &[Lane; LANES]) -> bool {
    let limit = longest_rest(lanes).saturating_mul(BLOCKS_A_STEP);
    let mut all: usize = 0;
    for lane in lanes {
        if let Some(text) = lane.text
            && let Some(body) = bodies.get(text)
        {
            all = all.saturating_add(blocks(body));
            if all > limit {
                return true;
            }
        }
    }
    false
}

/// How many blocks the longest rest has.
fn longest_rest(lanes: &[Lane; LANES]) -> usize {
    let mut longest = 0;
    for lane in lanes {
        longest = longest.max(lane.rest.len());
    }
    longest.div_ceil(8)
}

/// The next block of a lane; where its text has ended, of the next text.
#[inline(always)]
fn next_step<'a>(
    bodies: &'a [Text],
    queue: &mut Queue,
    mut lane: Lane<'a>,
    chains: &Slices,
    at: usize,
    codes: &mut [Option<u32>; MOST_CODES],
) -> Step<'a>
    requires few { length bodies.now ≤ 512 }
    requires at { at < 128 }
    requires chain { HasChain bodies.now lane (slice_index_or chains.now at 0) }
    requires made { AreMade codes.old bodies.now }
    ensures chain { HasChain bodies.entry.now result.lane (stepped result.begun (slice_index_or chains.now at 0) result.block) }
    ensures made { AreMade codes.new bodies.entry.now }
{
    let begun = lane.rest.is_empty();
    if begun {
        take_code(codes, lane.text, chains, at);
        lane = queue.next(bodies);
    }
    let block = lane.next_block();
    Step { lane, block, begun }
}

/// Takes the code of the text whose chain in this lane has ended, if the lane had one.
#[inline(never)]
fn take_code(codes: &mut [Option<u32>; MOST_CODES], text: Option<usize>, chains: &Slices, at: usize)
    requires at { at < 128 }
    requires text { IfSome text (λ n. n < 512) }
    ensures { (bodies : List (List ℕ)) → AreMade codes.old bodies
        → IfSome text (λ n. slice_index_or chains.now at 0 / 2 ^ 32 ≡ edc_of (text_of bodies n)) → AreMade codes.new bodies }
{
    if let Some(text) = text {
        codes[text] = Some(chains.left_half(at));
    }
}
