ghost use Rattle.std.specs.Prelude.{◌≡◌, ◌≤◌, ◌<◌, ◌↔◌, IsOk, IfOk, length, take, drop};
ghost use Rattle.std.specs.Int.{w64, from_be_bytes};
ghost use Rattle.x_base.specs.Ident.{repeated, expanded};
ghost use Rattle.x_base.specs.Names.{IsIdent};

use crate::padded::Padded;
use std::marker::Model;
use thiserror::Error;

/// These bytes are no identity.
#[derive(Clone, Copy, Debug, Error)]
#[error("bad identity")]
pub struct BadIdent;

/// An identity: 4 to 16 bytes of `A`-`Z`, `0`-`9` and `-` (ANSI X9.17; the bytes are this
/// project's profile).
#[derive(Clone, Copy, Debug, PartialEq, Eq, Hash)]
pub struct Ident {
    name: Padded,
}

impl Model for Ident {
    ghost use Rattle.std.specs.Prelude.{ℕ, List};
    ghost use Rattle.x_base.specs.Names.{IsIdent};

    ghost Value = { List ℕ };

    ghost view = { λ i. i.name };

    ghost invariant = { λ i. IsIdent i.name };

    ghost inverse = { λ bytes. record { name = bytes } };
}

/// Eight bytes from `start` on of the name over and over, first byte most significant.
fn half(name: &[u8], start: usize) -> u64
    requires filled { 0 < length name.now }
    requires within { start ≤ 8 }
    ensures { result ≡ from_be_bytes w64 (take 8 (drop start (repeated name.now))) }
{
    let mut half = [0; 8];
    for place in 0..8 {
        half[place] = name[(start + place) % name.len()];
    }
    u64::from_be_bytes(half)
}

impl Ident {
    /// Reads an identity that is all of the bytes.
    pub fn read(bytes: &[u8]) -> Result<Ident, BadIdent>
        ensures value { IfOk result (λ ident. ident ≡ bytes.now) }
        ensures found { IsOk result ↔ IsIdent bytes.now }
    {
        match Padded::read(4, bytes) {
            Some(name) => Ok(Ident { name }),
            None => Err(BadIdent),
        }
    }

    /// The bytes, and what fills them up.
    pub(crate) fn padded(&self) -> &Padded
        ensures value { result.now ≡ self.now }
        ensures ident { IsIdent self.now }
    {
        &self.name
    }

    /// The bytes of the identity.
    pub fn bytes(&self) -> &[u8]
        ensures value { result.now ≡ self.now }
        ensures ident { IsIdent self.now }
    {
        self.name.bytes()
    }

    /// Repeats the identity until it has 16 bytes, and gives the two halves, first byte most
    /// significant.
    #[tactic(auto, unfolding(crate::specs::Ident::expanded))]
    pub fn expand(&self) -> (u64, u64)
        ensures { result ≡ expanded self.now }
    {
        let bytes = self.bytes();
        (half(bytes, 0), half(bytes, 8))
    }
}
