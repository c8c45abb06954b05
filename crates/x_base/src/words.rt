ghost use Rattle.std.specs.Prelude.{◌≡◌, ◌++◌, ◌∷◌, [], OnOk, OnErr, slice_get, option_map, map, string_bytes};

use crate::text::NoMemory;
use std::alloc::Global;
use std::marker::Model;

/// A growing list of words, as a command line has them.
#[derive(Drop)]
pub struct Words {
    alloc: Global,
    words: Vec<String>,
}

impl Model for Words {
    ghost use Rattle.std.specs.Prelude.{ℕ, List, map, string_bytes};

    ghost Value = { List (List ℕ) };

    ghost view = { λ w. map string_bytes w.words.items };
}

impl Words {
    /// No words, which takes no memory.
    pub fn new(alloc: Global) -> Words
        ensures { result ≡ [] }
    {
        Words {
            alloc,
            words: Vec::new(alloc),
        }
    }

    /// Appends a word.
    pub fn push(&mut self, word: &str) -> Result<(), NoMemory>
        ensures appends { OnOk result (self.new ≡ self.old ++ word.now ∷ []) }
        ensures kept { OnErr result (self.new ≡ self.old) }
    {
        let owned = String::from_str(self.alloc, word)?;
        match self.words.push(owned) {
            Ok(()) => Ok(()),
            Err(_) => Err(NoMemory),
        }
    }

    /// Word `i`, from 0, and `None` exactly where there is no such word.
    pub fn word(&self, i: usize) -> Option<&str>
        ensures { option_map (λ w. w.now) result ≡ slice_get self.now i }
    {
        match self.words.get(i) {
            Some(word) => Some(word.as_str()),
            None => None,
        }
    }

    /// The words in their order.
    pub fn texts(&self) -> &[String]
        ensures { map string_bytes result.now ≡ self.now }
    {
        self.words.as_slice()
    }
}
