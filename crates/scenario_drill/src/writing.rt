// The words of the lines of a drill.
ghost use Rattle.std.specs.Prelude.{◌≡◌, ◌++◌, [], OnOk};
ghost use Rattle.scenario_drill.specs.Drill.{key_digits, last, pair_digits, word};
ghost use Rattle.std.specs.Fmt.{decimal};

use std::alloc::Global;
use x_base::{Count, NoMemory, Text};
use x_gen::with_odd_parity;
use x_seal::spread;

/// A text that grows line by line.
#[derive(Drop)]
pub(crate) struct Script {
    alloc: Global,
    text: Text,
}

impl Script {
    /// The empty text.
    pub(crate) fn new(alloc: Global) -> Script
        ensures { result.text ≡ [] }
    {
        Script {
            alloc,
            text: Text::new(alloc),
        }
    }

    /// Appends bytes.
    pub(crate) fn push(&mut self, bytes: &[u8]) -> Result<(), NoMemory>
        ensures { OnOk result (self.new.text ≡ self.old.text ++ bytes.now) }
    {
        self.text.push(bytes)
    }

    /// Appends a word and a blank.
    pub(crate) fn word(&mut self, bytes: &[u8]) -> Result<(), NoMemory>
        ensures { OnOk result (self.new.text ≡ self.old.text ++ word bytes.now) }
    {
        self.text.push(bytes)?;
        self.text.push(b" ")
    }

    /// Appends the last word of a line.
    pub(crate) fn last(&mut self, bytes: &[u8]) -> Result<(), NoMemory>
        ensures { OnOk result (self.new.text ≡ self.old.text ++ last bytes.now) }
    {
        self.text.push(bytes)?;
        self.text.push(b"\n")
    }

    /// Appends a number in decimal digits.
    pub(crate) fn number(&mut self, number: u64) -> Result<(), NoMemory>
        ensures { OnOk result (self.new.text ≡ self.old.text ++ decimal number) }
    {
        let digits = number.to_string(self.alloc)?;
        self.text.push(digits.as_bytes())
    }

    /// Appends a number in decimal digits, and a blank.
    pub(crate) fn number_word(&mut self, number: u64) -> Result<(), NoMemory>
        ensures { OnOk result (self.new.text ≡ self.old.text ++ word (decimal number)) }
    {
        self.number(number)?;
        self.text.push(b" ")
    }

    /// Appends a number in decimal digits as the last word of a line.
    pub(crate) fn last_number(&mut self, number: u64) -> Result<(), NoMemory>
        ensures { OnOk result (self.new.text ≡ self.old.text ++ last (decimal number)) }
    {
        self.number(number)?;
        self.text.push(b"\n")
    }

    /// Appends a key in sixteen digits.
    pub(crate) fn key(&mut self, key: u64) -> Result<(), NoMemory>
        ensures { OnOk result (self.new.text ≡ self.old.text ++ key_digits key) }
    {
        let digits = hex::encode_upper(self.alloc, key.to_be_bytes())?;
        self.text.push(digits.as_bytes())
    }

    /// Appends a key in sixteen digits as the last word of a line.
    pub(crate) fn last_key(&mut self, key: u64) -> Result<(), NoMemory>
        ensures { OnOk result (self.new.text ≡ self.old.text ++ last (key_digits key)) }
    {
        self.key(key)?;
        self.text.push(b"\n")
    }

    /// Appends pair `i` in thirty-two digits.
    pub(crate) fn pair(&mut self, i: Count) -> Result<(), NoMemory>
        ensures { OnOk result (self.new.text ≡ self.old.text ++ pair_digits i) }
    {
        let spread = spread(i);
        self.key(with_odd_parity(0x0123456789ABCDEF ^ spread))?;
        self.key(with_odd_parity(0xFEDCBA9876543210 ^ spread))
    }

    /// Appends pair `i` in thirty-two digits, and a blank.
    pub(crate) fn pair_word(&mut self, i: Count) -> Result<(), NoMemory>
        ensures { OnOk result (self.new.text ≡ self.old.text ++ word (pair_digits i)) }
    {
        self.pair(i)?;
        self.text.push(b" ")
    }

    /// The text.
    pub(crate) fn finish(self) -> Text
        ensures { result ≡ self.text }
    {
        self.text
    }
}
