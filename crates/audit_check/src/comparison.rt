// Two transcripts are compared while one of them is made.
ghost use Rattle.std.specs.Prelude.{◌≡◌, ◌≢◌, ◌++◌, [], ℕ, true, false, List, length, count_by, IfOk};
ghost use Rattle.audit_check.specs.Answers.{in_common, is_line_feed, line_of_difference};
ghost use Rattle.audit_check.specs.Compared.{compared};

use std::marker::Model;
use x_base::NoMemory;

/// A transcript that is given, beside one that is made: what is left of it behind what the two have in common, and whether
/// that is all that was made so far.
#[derive(Drop)]
pub(crate) struct Comparison<'a> {
    rest: &'a [u8],
    same: bool,
}

impl<'a> Model for Comparison<'a> {
    ghost use Rattle.audit_check.specs.Compared.{Compared};

    ghost Value = { Compared };

    ghost view = { λ c. record { rest = c.rest.now; same = c.same } };
}

/// How many bytes in front are the same.
fn common_length(a: &[u8], b: &[u8]) -> usize
    ensures { result ≡ length (in_common a.now b.now) }
{
    let mut count = 0;
    'common: while count < a.len() && count < b.len() && a[count] == b[count] {
        count += 1;
    }
    count
}

pub(crate) fn line_feeds(bytes: &[u8]) -> usize
    ensures { result ≡ count_by is_line_feed bytes.now }
{
    let mut count = 0;
    for byte in bytes {
        if *byte == b'\n' {
            count += 1;
        }
    }
    count
}

impl<'a> Comparison<'a> {
    /// Nothing was made yet.
    pub(crate) fn with(given: &'a [u8]) -> Comparison<'a>
        ensures { result ≡ compared [] given.entry.now }
    {
        Comparison {
            rest: given,
            same: true,
        }
    }

    /// More is made.
    pub(crate) fn add(&mut self, more: &[u8])
        ensures { (made given : List ℕ) → self.old ≡ compared made given → self.new ≡ compared (made ++ more.now) given }
    {
        if !self.same {
            return;
        }
        let count = common_length(more, self.rest);
        let (_, rest) = self.rest.split_at(count);
        self.same = count == more.len();
        self.rest = rest;
    }

    /// Whether the two are the same, where all was made.
    pub(crate) fn is_same(&self) -> bool
        ensures same { result ≡ true → (made given : List ℕ) → self.now ≡ compared made given → given ≡ made }
        ensures differs { result ≡ false → (made given : List ℕ) → self.now ≡ compared made given → given ≢ made }
    {
        self.same && self.rest.is_empty()
    }

    /// The line in which they differ, from 1; no memory can hold so many lines that its number wouldn't be told.
    pub(crate) fn line(&self, given: &[u8]) -> Result<u32, NoMemory>
        ensures { IfOk result (λ line. (made : List ℕ) → self.now ≡ compared made given.now → line ≡ line_of_difference made given.now) }
    {
        let (front, _) = given.split_at(given.len().saturating_sub(self.rest.len()));
        match u32::try_from(line_feeds(front) + 1) {
            Ok(line) => Ok(line),
            Err(_) => Err(NoMemory),
        }
    }
}
