ghost use Rattle.std.specs.Prelude.{◌≡◌, ◌↔◌, IsOk, IfOk};
ghost use Rattle.x_base.specs.Names.{IsLabel};

use crate::padded::Padded;
use std::marker::Model;
use thiserror::Error;

/// These bytes are no label.
#[derive(Clone, Copy, Debug, Error)]
#[error("bad label")]
pub struct BadLabel;

/// A label: 1 to 16 bytes of `A`-`Z`, `0`-`9` and `-` (ANSI X9.17; the bytes are this
/// project's profile).
#[derive(Clone, Copy, Debug, PartialEq, Eq, Hash)]
pub struct Label {
    name: Padded,
}

impl Model for Label {
    ghost use Rattle.std.specs.Prelude.{ℕ, List};
    ghost use Rattle.x_base.specs.Names.{IsLabel};

    ghost Value = { List ℕ };

    ghost view = { λ l. l.name };

    ghost invariant = { λ l. IsLabel l.name };

    ghost inverse = { λ bytes. record { name = bytes } };
}

impl Label {
    /// Reads a label that is all of the bytes.
    pub fn read(bytes: &[u8]) -> Result<Label, BadLabel>
        ensures value { IfOk result (λ label. label ≡ bytes.now) }
        ensures found { IsOk result ↔ IsLabel bytes.now }
    {
        match Padded::read(1, bytes) {
            Some(name) => Ok(Label { name }),
            None => Err(BadLabel),
        }
    }

    /// The bytes, and what fills them up.
    pub(crate) fn padded(&self) -> &Padded
        ensures value { result.now ≡ self.now }
        ensures label { IsLabel self.now }
    {
        &self.name
    }

    /// The bytes of the label.
    pub fn bytes(&self) -> &[u8]
        ensures value { result.now ≡ self.now }
        ensures label { IsLabel self.now }
    {
        self.name.bytes()
    }
}
