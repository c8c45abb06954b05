// The written form of a name, put together before it goes into a text.
ghost use Rattle.std.specs.Prelude.{◌≡◌, ◌≤◌, ◌<◌, ◌+◌, ◌++◌, ◌∷◌, [], length};

use crate::names::LONGEST;
use crate::padded::Padded;
use std::marker::Model;

/// How many bytes a row holds: those of the longest written name.
const ROOM: usize = 65;

/// Up to 65 bytes.
#[derive(Drop)]
pub(crate) struct Row {
    bytes: [u8; ROOM],
    len: usize,
}

impl Model for Row {
    ghost use Rattle.std.specs.Prelude.{◌≤◌, ℕ, List, take};

    ghost Value = { List ℕ };

    ghost view = { λ r. take r.len r.bytes };

    ghost invariant = { λ r. r.len ≤ 65 };
}

impl Row {
    /// No bytes.
    pub(crate) fn new() -> Row
        ensures { result ≡ [] }
    {
        Row {
            bytes: [0; ROOM],
            len: 0,
        }
    }

    /// Appends the bytes.
    pub(crate) fn put(&mut self, bytes: &[u8])
        requires { length self.old + length bytes.now ≤ 65 }
        ensures { self.new ≡ self.old ++ bytes.now }
    {
        let end = self.len + bytes.len();
        self.bytes[self.len..end].copy_from_slice(bytes);
        self.len = end;
    }

    /// Appends a part and the period behind it. All sixteen bytes are copied, a length that the
    /// compiler knows, and what comes next overwrites the filling.
    pub(crate) fn put_part(&mut self, part: &Padded)
        requires { length self.old + 16 < 65 }
        ensures appends { self.new ≡ self.old ++ part.now ++ 46 ∷ [] }
        ensures grown { length self.new ≤ length self.old + 17 }
    {
        let end = self.len + part.len();
        self.bytes[self.len..self.len + LONGEST].copy_from_slice(part.filled());
        self.bytes[end] = b'.';
        self.len = end + 1;
    }

    /// The bytes.
    pub(crate) fn bytes(&self) -> &[u8]
        ensures { result.now ≡ self.now }
    {
        &self.bytes[..self.len]
    }
}
