// Up to sixteen bytes, copied by value.
ghost use Rattle.std.specs.Prelude.{◌≡◌, ◌≤◌, ◌↔◌, ◌∷◌, [], nat_eq, length, is_some, IfSome, IsTrue};
ghost use Rattle.x_base.specs.Hashing.{equal_bytes_hash_alike};
ghost use Rattle.x_base.specs.Names.{is_name};
ghost use Rattle.x_base.specs.Padded.{filled};
ghost use Rattle.std.specs.Cmp.{partial_equiv_from_equiv};
ghost use Rattle.std.specs.Cmp.Lexicographic.{pointwise, nat_list_eq_equiv};

use crate::names::{LONGEST, is_name_byte};
use std::hash::{Hash, Hasher};
use std::marker::Model;

/// Up to `LONGEST` bytes; zeros fill the rest.
#[derive(Clone, Copy, Debug)]
pub(crate) struct Padded {
    bytes: [u8; LONGEST],
    len: u8,
}

impl Model for Padded {
    ghost use Rattle.std.specs.Prelude.{ℕ, List};

    ghost Value = { List ℕ };

    ghost use Rattle.x_base.specs.Padded.{bytes_of, IsPadded, padded, padded-bytes_of};

    ghost view = { bytes_of };

    ghost invariant = { IsPadded };

    ghost inverse = { padded };

    ghost inverse_ok = { padded-bytes_of };
}

/// Whether the sixteen bytes are the same. Without a branch in it, the loop becomes one comparison.
fn are_same(these: &[u8; LONGEST], others: &[u8; LONGEST]) -> bool
    ensures { IsTrue result ↔ (these.now ≡ others.now) }
{
    let mut same = true;
    for i in 0..LONGEST {
        same = same & (these[i] == others[i]);
    }
    same
}

impl PartialEq for Padded {
    ghost eq = { pointwise nat_eq };

    ghost laws = { partial_equiv_from_equiv nat_list_eq_equiv };

    fn eq(&self, other: &Padded) -> bool {
        self.len == other.len && are_same(&self.bytes, &other.bytes)
    }
}

impl Eq for Padded {
    ghost laws = { nat_list_eq_equiv };
}

// One write of all sixteen bytes: at a fixed length it costs less than at that of the bytes in use.
impl Hash for Padded {
    ghost hash_input = { λ bytes. filled bytes ∷ [] };

    ghost respects_eq = { equal_bytes_hash_alike };

    fn hash<H: Hasher>(&self, state: &mut H) {
        state.write(&self.bytes);
    }
}

impl Padded {
    /// These bytes, if they are `low` to `LONGEST` bytes of a name.
    pub(crate) fn read(low: usize, bytes: &[u8]) -> Option<Padded>
        ensures value { IfSome result (λ name. name ≡ bytes.now) }
        ensures found { is_some result ≡ is_name low 16 bytes.now }
    {
        let len = bytes.len();
        if len < low || LONGEST < len {
            return None;
        }
        let mut filled = [0; LONGEST];
        for i in 0..len {
            let byte = bytes[i];
            if !is_name_byte(byte) {
                return None;
            }
            filled[i] = byte;
        }
        Some(Padded {
            bytes: filled,
            len: len as u8,
        })
    }

    /// The bytes without the filling.
    pub(crate) fn bytes(&self) -> &[u8]
        ensures { result.now ≡ self.now }
    {
        &self.bytes[..self.len as usize]
    }

    /// How many bytes there are without the filling.
    pub(crate) fn len(&self) -> usize
        ensures value { result ≡ length self.now }
        ensures short { result ≤ 16 }
    {
        self.len as usize
    }

    /// All sixteen bytes.
    pub(crate) fn filled(&self) -> &[u8; LONGEST]
        ensures { result.now ≡ filled self.now }
    {
        &self.bytes
    }
}
