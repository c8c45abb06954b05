// The code of an edit or of another row, put together before it goes into a text.
ghost use Rattle.std.specs.Prelude.{◌≡◌, ◌≤◌, ◌<◌, ◌+◌, ◌++◌, ◌∷◌, [], length};

use std::marker::Model;

/// How many bytes it holds: those of the longest edit without the text of an exchange, and more.
const ROOM: usize = 128;

/// Up to 128 bytes.
#[derive(Drop)]
pub struct EditCode {
    bytes: [u8; ROOM],
    len: usize,
}

impl Model for EditCode {
    ghost use Rattle.std.specs.Prelude.{◌≤◌, ℕ, List, take};

    ghost Value = { List ℕ };

    ghost view = { λ r. take r.len r.bytes };

    ghost invariant = { λ r. r.len ≤ 128 };
}

impl EditCode {
    /// No bytes.
    pub fn new() -> EditCode
        ensures { result ≡ [] }
    {
        EditCode {
            bytes: [0; ROOM],
            len: 0,
        }
    }

    /// Appends the bytes.
    pub fn put(&mut self, bytes: &[u8])
        requires { length self.old + length bytes.now ≤ 128 }
        ensures { self.new ≡ self.old ++ bytes.now }
    {
        let end = self.len + bytes.len();
        self.bytes[self.len..end].copy_from_slice(bytes);
        self.len = end;
    }

    /// Appends a byte.
    pub(crate) fn put_byte(&mut self, byte: u8)
        requires { length self.old < 128 }
        ensures { self.new ≡ self.old ++ byte ∷ [] }
    {
        self.bytes[self.len] = byte;
        self.len += 1;
    }

    /// The bytes.
    pub fn bytes(&self) -> &[u8]
        ensures { result.now ≡ self.now }
    {
        &self.bytes[..self.len]
    }
}
