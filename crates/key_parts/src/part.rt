// A component of a key.
ghost use Rattle.std.specs.Prelude.{◌≡◌};
ghost use Rattle.key_parts.specs.Parts.{generator_of, joined_with, part_of};

use x_mac::Pair;
use x_values::{read_key, read_one_or_two, read_pair};

/// What each line of an input spells.
#[derive(Clone, Copy)]
pub enum Form {
    /// A key-encrypting key: 32 hexadecimal digits, or 16 for a pair of equal halves.
    Key,
    /// A generator's pair of keys, 32 hexadecimal digits, a blank and its seed V, 16 digits.
    Generator,
}

/// A component of a key, or the whole: a pair and, of a generator, the seed V; of a key-encrypting key that is 0.
#[derive(Clone, Copy)]
pub struct Part {
    pub pair: Pair,
    pub seed: u64,
}

impl Part {
    /// Both joined by exclusive or.
    pub(crate) fn joined_with(self, other: Part) -> Part
        ensures { result ≡ joined_with self other }
    {
        Part {
            pair: Pair {
                left: self.pair.left ^ other.pair.left,
                right: self.pair.right ^ other.pair.right,
            },
            seed: self.seed ^ other.seed,
        }
    }
}

fn generator(line: &[u8]) -> Option<Part>
    ensures { result ≡ generator_of line.now }
{
    if line.len() != 49 || line[32] != b' ' {
        return None;
    }
    let (front, _) = line.split_at(32);
    let (_, behind) = line.split_at(33);
    Some(Part {
        pair: read_pair(front)?,
        seed: read_key(behind)?,
    })
}

/// The component that a line spells.
pub(crate) fn read_part(form: Form, line: &[u8]) -> Option<Part>
    ensures { result ≡ part_of form line.now }
{
    match form {
        Form::Key => Some(Part {
            pair: read_one_or_two(line)?,
            seed: 0,
        }),
        Form::Generator => generator(line),
    }
}
