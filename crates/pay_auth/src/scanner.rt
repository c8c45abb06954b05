// Reading a payment from the front. Where a part is missing, what was read stands up to the first byte that no payment has
// there.
ghost use Rattle.std.specs.Prelude.{◌≡◌, ◌∷◌, List, ℕ, true, false, length, option_map};
ghost use Rattle.pay_auth.specs.Scanning.{allows, least, most, IsEnd, IsScanned, IsLongest, IsRunTaken, literal_form, run_form, ident_form, label_form, count_form, code_form};

use hex::FromHex;
use std::marker::Model;
use x_base::{Count, Ident, Label};

/// What a run of bytes stands for.
#[derive(Clone, Copy)]
pub(crate) enum Run {
    /// An identity.
    Ident,
    /// A label.
    Label,
    /// A count without leading zeros.
    Count,
    /// Eight upper-case hexadecimal digits.
    Code,
}

impl Run {
    /// The least number of bytes.
    fn least(self) -> usize
        ensures { result ≡ least self }
    {
        match self {
            Run::Ident => 4,
            Run::Label | Run::Count => 1,
            Run::Code => 8,
        }
    }

    /// The most bytes.
    fn most(self) -> usize
        ensures { result ≡ most self }
    {
        match self {
            Run::Ident | Run::Label => 16,
            Run::Count => 14,
            Run::Code => 8,
        }
    }

    /// Whether the byte may stand at this place of the run, from 0.
    fn allows(self, place: usize, byte: u8) -> bool
        ensures { result ≡ allows self place byte }
    {
        place < self.most()
            && match self {
                Run::Ident | Run::Label => matches!(byte, b'A'..=b'Z' | b'0'..=b'9' | b'-'),
                Run::Count => matches!(byte, b'1'..=b'9') || (place > 0 && byte == b'0'),
                Run::Code => matches!(byte, b'0'..=b'9' | b'A'..=b'F'),
            }
    }

    /// How many of the bytes are the longest run from the front.
    fn length_in(self, bytes: &[u8]) -> usize
        ensures { IsLongest self bytes.now result }
    {
        let mut place = 0;
        while place < bytes.len() && self.allows(place, bytes[place]) {
            place += 1;
        }
        place
    }
}

/// The bytes that weren't read yet.
#[derive(Drop)]
pub(crate) struct Scanner<'a> {
    rest: &'a [u8],
}

impl<'a> Model for Scanner<'a> {
    ghost use Rattle.std.specs.Prelude.{List, ℕ};

    ghost Value = { List ℕ };

    ghost view = { λ s. s.rest.now };
}

impl<'a> Scanner<'a> {
    pub(crate) fn new(bytes: &'a [u8]) -> Scanner<'a>
        ensures { result ≡ bytes.entry.now }
    {
        Scanner { rest: bytes }
    }

    /// How many bytes are left.
    pub(crate) fn len(&self) -> usize
        ensures { result ≡ length self.now }
    {
        self.rest.len()
    }

    /// Takes the next byte, if it is this one.
    fn takes(&mut self, byte: u8) -> bool
        ensures yes { result ≡ true → self.old ≡ byte ∷ self.new }
        ensures no { result ≡ false → (self.new ≡ self.old) × ((after : List ℕ) → self.old ≡ byte ∷ after → ⊥) }
    {
        match self.rest.split_first() {
            Some((first, rest)) if *first == byte => {
                self.rest = rest;
                true
            }
            _ => false,
        }
    }

    /// These bytes.
    pub(crate) fn literal(&mut self, text: &[u8]) -> Option<()>
        ensures { IsScanned (literal_form text.now) self.old self.new result }
    {
        for byte in text {
            if !self.takes(*byte) {
                return None;
            }
        }
        Some(())
    }

    /// The longest run from the front.
    fn longest(&mut self, run: Run) -> &'a [u8]
        ensures { IsRunTaken run self.old self.new result.now }
    {
        let (front, rest) = self.rest.split_at(run.length_in(self.rest));
        self.rest = rest;
        front
    }

    /// A run, and the byte that ends it.
    fn run(&mut self, run: Run, last: u8) -> Option<&'a [u8]>
        requires { IsEnd run last }
        ensures { IsScanned (run_form run last) self.old self.new (option_map (λ r. r.now) result) }
    {
        let front = self.longest(run);
        if front.len() < run.least() {
            return None;
        }
        if self.takes(last) { Some(front) } else { None }
    }

    /// An identity, and the byte that ends it.
    pub(crate) fn ident(&mut self, last: u8) -> Option<Ident>
        requires { IsEnd Run.Ident last }
        ensures { IsScanned (ident_form last) self.old self.new result }
    {
        Ident::read(self.run(Run::Ident, last)?).ok()
    }

    /// A label, and the byte that ends it.
    pub(crate) fn label(&mut self, last: u8) -> Option<Label>
        requires { IsEnd Run.Label last }
        ensures { IsScanned (label_form last) self.old self.new result }
    {
        Label::read(self.run(Run::Label, last)?).ok()
    }

    /// A count without leading zeros, and the byte that ends it.
    pub(crate) fn count(&mut self, last: u8) -> Option<Count>
        requires { IsEnd Run.Count last }
        ensures { IsScanned (count_form last) self.old self.new result }
    {
        Count::read(self.run(Run::Count, last)?).ok()
    }

    /// A code in eight upper-case digits, and the byte that ends it.
    pub(crate) fn code(&mut self, last: u8) -> Option<u32>
        requires { IsEnd Run.Code last }
        ensures { IsScanned (code_form last) self.old self.new result }
    {
        match <[u8; 4] as FromHex>::from_hex(self.run(Run::Code, last)?) {
            Ok(bytes) => Some(u32::from_be_bytes(bytes)),
            Err(_) => None,
        }
    }
}
