// What is heard of the bytes of an input.
ghost use Rattle.std.specs.Prelude.{◌≡◌, ◌≢◌, ◌≤◌, ℕ, length, take, Some, None, Ok, Err, IfOk, IfErr};
ghost use Rattle.csm_feed.specs.Heard.{after_leading, first_other, trailing, Heard, readings, input_limit};

use crate::separators::leading_separators;
use crate::unheard::Unheard;
use csm_grammar::{Arrival, ReadRefusal, is_separator};
use csm_read::{law_fault_ends, law_fault_within, read_arrival};
use std::alloc::Global;
use x_base::NoMemory;

/// How many bytes of an input are taken at most: those of two messages of the greatest length, and
/// one more.
pub const INPUT_LIMIT: usize = 2049;

/// The place of the first byte that is no separator.
fn first_other(bytes: &[u8]) -> Option<usize>
    ensures { result ≡ first_other bytes.now }
{
    bytes.iter().position(|byte| !is_separator(*byte))
}

/// Where a message that ends at a place is followed by what isn't taken.
fn trailing(bytes: &[u8], end: usize) -> Option<u64>
    requires within { end ≤ length bytes.now }
    requires few { length bytes.now ≤ input_limit }
    ensures { result ≡ trailing bytes.now end }
{
    let (_, after) = bytes.split_at(end);
    match first_other(after) {
        Some(n) => Some((end + n) as u64),
        None if bytes.len() == INPUT_LIMIT => Some(INPUT_LIMIT as u64 - 1),
        None => None,
    }
}

/// What is heard where a message was read: the message, unless something that isn't taken follows it, at this place of the input.
/// That is a byte that is no separator, or the last of 2,049 bytes.
fn heard(arrival: Arrival, follows: Option<u64>) -> Result<Arrival, Unheard>
    ensures message { IfOk result (λ a. (a ≡ arrival) × (follows ≡ None)) }
    ensures trailing { IfErr result (λ u. (place : ℕ) × (u ≡ Unheard.Trailing place) × (follows ≡ Some place)) }
{
    match follows {
        Some(place) => Err(Unheard::Trailing(place)),
        None => Ok(arrival),
    }
}

/// The one message in the bytes, with separators before and behind it, or why they are refused. A message with so many of them that
/// there are 2,049 bytes is refused.
pub fn hear(alloc: Global, bytes: &[u8]) -> Result<Result<Arrival, Unheard>, NoMemory>
    requires { length bytes.now ≤ input_limit }
    ensures heard { IfOk result (λ h. Heard bytes.now (readings h)) }
    ensures text { IfOk result (λ h. IfOk h (λ a. a.text ≡ take a.parsed.len (after_leading bytes.now))) }
    ensures memory { result ≢ Ok (Err (Unheard.Text ReadRefusal.NoMemory)) }
{
    law_fault_ends();
    law_fault_within();
    let before = leading_separators(bytes);
    let (_, text) = bytes.split_at(before);
    match read_arrival(alloc, text) {
        Ok(arrival) => {
            let follows = trailing(bytes, before + arrival.parsed.len);
            Ok(heard(arrival, follows))
        }
        Err(ReadRefusal::NoMemory) => Err(NoMemory),
        Err(refusal) => Ok(Err(Unheard::Text(refusal.moved(before as u64)))),
    }
}
