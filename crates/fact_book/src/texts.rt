// Texts in one memory, one behind the other.
ghost use Rattle.std.specs.Prelude.{◌≡◌, ◌^◌, ◌<◌, ◌≤◌, [], ◌∷◌, ◌++◌, length, OnOk, OnErr, option_map, slice_get, slice_index, slice_range};

use std::alloc::Global;
use std::marker::Model;
use x_base::NoMemory;

/// Texts in the order in which they were added, seen as their list.
#[derive(Drop)]
pub struct Texts {
    bytes: Vec<u8>,
    ends: Vec<usize>,
}

impl Model for Texts {
    ghost use Rattle.std.specs.Prelude.{ℕ, List, length};
    ghost use Rattle.fact_book.specs.Texts.{AreTextEnds, texts_from};

    ghost Value = { List (List ℕ) };

    ghost view = { λ t. texts_from 0 t.ends.items t.bytes.items };

    ghost invariant = { λ t. AreTextEnds 0 t.ends.items (length t.bytes.items) };
}

/// Where the text at a place ends.
fn end_of(ends: &[usize], place: usize) -> Option<usize>
    ensures { result ≡ slice_get ends.now place }
{
    ends.get(place).copied()
}

/// Where the text at a place begins: where the one before it ends.
fn begin_of(ends: &[usize], place: usize) -> usize
    requires within { place ≤ length ends.now }
    ensures { result ≡ slice_index (0 ∷ ends.now) place }
{
    if place == 0 {
        return 0;
    }
    ends[place - 1]
}

/// The bytes from one place up to another.
fn between(bytes: &[u8], begin: usize, end: usize) -> &[u8]
    requires rising { begin ≤ end }
    requires within { end ≤ length bytes.now }
    ensures { result.now ≡ slice_range bytes.now begin end }
{
    &bytes[begin..end]
}

impl Texts {
    /// No texts, which takes no memory.
    pub fn new(alloc: Global) -> Texts
        ensures { result ≡ [] }
    {
        Texts {
            bytes: Vec::new(alloc),
            ends: Vec::new(alloc),
        }
    }

    /// How many texts there are.
    pub fn len(&self) -> usize
        ensures count { result ≡ length self.now }
        ensures small { result < 2 ^ 63 }
    {
        self.ends.len()
    }

    /// The text at a place.
    pub fn get(&self, place: usize) -> Option<&[u8]>
        ensures { option_map (λ t. t.now) result ≡ slice_get self.now place }
    {
        let end = end_of(&self.ends, place)?;
        let begin = begin_of(&self.ends, place);
        Some(between(&self.bytes, begin, end))
    }

    /// Puts a text behind the others.
    pub fn push(&mut self, text: &[u8]) -> Result<(), NoMemory>
        ensures appends { OnOk result (self.new ≡ self.old ++ text.now ∷ []) }
        ensures kept { OnErr result (self.new ≡ self.old) }
    {
        self.ends.reserve(1)?;
        self.bytes.extend_from_slice(text)?;
        match self.ends.push(self.bytes.len()) {
            Ok(()) => Ok(()),
            Err(_) => unreachable!(),
        }
    }
}
