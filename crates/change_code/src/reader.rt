// Reading the pieces of a code from the front.
ghost use Rattle.std.specs.Prelude.{◌≡◌, ◌+◌, ◌<◌, ◌^◌, ◌∷◌, ◌++◌, List, ℕ, nat_eq, length, Some, IfSome, MatchOption};
ghost use Rattle.change_code.specs.Code.{short, long};
ghost use Rattle.change_code.specs.Reading.{LacksShort, LacksLong};

use std::marker::Model;

/// The bytes that weren't read yet.
#[derive(Drop)]
pub struct Reader<'a> {
    pub(crate) rest: &'a [u8],
}

impl<'a> Model for Reader<'a> {
    ghost use Rattle.std.specs.Prelude.{List, ℕ};

    ghost Value = { List ℕ };

    ghost view = { λ r. r.rest.now };
}

impl<'a> Reader<'a> {
    /// Before the first of these bytes.
    pub fn new(bytes: &'a [u8]) -> Reader<'a>
        ensures { result ≡ bytes.entry.now }
    {
        Reader { rest: bytes }
    }

    /// How many bytes are left.
    pub fn len(&self) -> usize
        ensures { result ≡ length self.now }
    {
        self.rest.len()
    }

    /// Whether none is left.
    pub fn is_empty(&self) -> bool
        ensures { result ≡ nat_eq (length self.now) 0 }
    {
        self.rest.is_empty()
    }

    /// The next byte.
    pub fn byte(&mut self) -> Option<u8>
        ensures { MatchOption result (length self.old ≡ 0) (λ b. self.old ≡ b ∷ self.new) }
    {
        let (first, rest) = self.rest.split_first()?;
        self.rest = rest;
        Some(*first)
    }

    /// So many bytes.
    pub(crate) fn bytes(&mut self, n: usize) -> Option<&'a [u8]>
        ensures { MatchOption result (length self.old < n) (λ front. (self.old ≡ front.now ++ self.new) × (length front.now ≡ n)) }
    {
        let (front, rest) = self.rest.split_at_checked(n)?;
        self.rest = rest;
        Some(front)
    }

    /// The bytes behind a byte with their number.
    pub(crate) fn short(&mut self) -> Option<&'a [u8]>
        ensures { MatchOption result (LacksShort self.old) (λ name. self.old ≡ short name.now ++ self.new) }
    {
        let n = self.byte()?;
        self.bytes(n as usize)
    }

    /// The bytes behind two bytes with their number.
    pub(crate) fn long(&mut self) -> Option<&'a [u8]>
        ensures code { MatchOption result (LacksLong self.old) (λ text. self.old ≡ long text.now ++ self.new) }
        ensures length { IfSome result (λ text. length text.now < 2 ^ 16) }
    {
        let n = self.half_word()?;
        self.bytes(usize::from(n))
    }
}
