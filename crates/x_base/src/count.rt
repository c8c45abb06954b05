ghost use Rattle.std.specs.Prelude.{◌≡◌, ◌≤◌, ◌<◌, length};
ghost use Rattle.std.specs.Option.{SomeIff};
ghost use Rattle.std.specs.Result.{OkIff};
ghost use Rattle.std.specs.Char.{is_ascii_digit};
ghost use Rattle.std.specs.List.{list_all};
ghost use Rattle.std.specs.Str.Parse.{digits_value, AllDigits};
ghost use Rattle.x_base.specs.Count.{IsCount, SpellsCount};

use std::marker::Model;
use thiserror::Error;

/// These bytes are no count.
#[derive(Clone, Copy, Debug, Error)]
#[error("bad count")]
pub struct BadCount;

/// The highest count.
pub const LIMIT: u64 = 99_999_999_999_999;

/// The most digits that a count is written with.
const DIGITS: usize = 14;

/// A count under a key-encrypting key: a number from 1 to `LIMIT` (ANSI X9.17; the limit is this
/// project's profile).
#[derive(Clone, Copy, Debug, PartialEq, Eq, Hash)]
pub struct Count {
    value: u64,
}

impl Model for Count {
    ghost use Rattle.std.specs.Prelude.{ℕ};
    ghost use Rattle.x_base.specs.Count.{IsCount};

    ghost Value = { ℕ };

    ghost view = { λ c. c.value };

    ghost invariant = { λ c. IsCount c.value };

    ghost inverse = { λ n. record { value = n } };
}

fn are_digits(bytes: &[u8]) -> bool
    ensures { result ≡ list_all is_ascii_digit bytes.now }
{
    bytes.iter().all(|byte| byte.is_ascii_digit())
}

/// The value of decimal digits.
fn value_of(digits: &[u8]) -> Option<u64>
    requires { length digits.now ≤ 14 }
    ensures { SomeIff result ((0 < length digits.now) × AllDigits 10 digits.now) (digits_value 10 digits.now) }
{
    if !are_digits(digits) {
        return None;
    }
    let Ok(text) = str::from_utf8(digits) else {
        return None;
    };
    text.parse::<u64>().ok()
}

impl Count {
    /// The count with this number, and `None` exactly where it is 0 or above `LIMIT`.
    pub fn of(value: u64) -> Option<Count>
        ensures { SomeIff result (IsCount value) value }
    {
        if 1 <= value && value <= LIMIT {
            Some(Count { value })
        } else {
            None
        }
    }

    /// Reads a count that is all of the bytes: 1 to 14 decimal digits, with leading zeros too.
    pub fn read(bytes: &[u8]) -> Result<Count, BadCount>
        ensures { OkIff result (SpellsCount bytes.now) (digits_value 10 bytes.now) }
    {
        if bytes.len() > DIGITS {
            return Err(BadCount);
        }
        let Some(value) = value_of(bytes) else {
            return Err(BadCount);
        };
        Count::of(value).ok_or(BadCount)
    }

    /// The number.
    pub fn value(&self) -> u64
        ensures value { result ≡ self.now }
        ensures count { IsCount self.now }
    {
        self.value
    }
}
