// Codes of many texts, made at once.
use crate::words::told;
use edc_slices::{MOST_CODES, codes_before_ends};
use std::alloc::{AllocError, Global};
use x_base::{NoMemory, Text};

/// The lengths of bodies.
#[derive(Clone, Copy)]
pub(crate) struct Lengths {
    /// No body is shorter.
    pub(crate) least: u64,
    /// How many lengths there are, from the least on; 0 stands for 205.
    pub(crate) range: u64,
}

impl Lengths {
    /// How many bytes a body has, 4,096 at most.
    fn of(&self, number: u64) -> u64 {
        let range = if self.range == 0 { 205 } else { self.range };
        let more = number.wrapping_mul(37) % range;
        self.least.saturating_add(more).min(4_096)
    }
}

/// A body, by a rule.
fn body(alloc: Global, number: u64, lengths: Lengths) -> Result<Text, NoMemory> {
    let mut body = Text::new(alloc);
    for place in 0..lengths.of(number) {
        let byte = number.wrapping_mul(31).wrapping_add(place.wrapping_mul(17)) % 256;
        body.push(&[byte as u8])?;
    }
    Ok(body)
}

/// The codes of so many bodies from a number on, but for the last four bytes of each; nothing where they are too many.
pub(crate) fn codes(
    alloc: Global,
    first: u64,
    count: u64,
    lengths: Lengths,
) -> Result<String, NoMemory> {
    let mut bodies = Vec::new(alloc);
    for number in first..first.saturating_add(count) {
        if let Err(full) = bodies.push(body(alloc, number, lengths)?) {
            return Err(AllocError::from(full).into());
        }
    }
    if bodies.len() > MOST_CODES {
        return Ok(String::new(alloc));
    }
    let codes = codes_before_ends(&bodies[..]);
    let mut words = [0; MOST_CODES];
    for (word, code) in words.iter_mut().zip(codes) {
        *word = code.into();
    }
    told(alloc, &words[..bodies.len()])
}
