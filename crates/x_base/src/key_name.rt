ghost use Rattle.std.specs.Prelude.{◌≡◌, ◌≢◌, ◌≤◌, ◌↔◌, ◌++◌, ◌∷◌, [], length, ◌==◌, Ok, Err, OnOk, OnErr};
ghost use Rattle.std.specs.List.{join_with_byte, position};
ghost use Rattle.std.specs.Option.{MatchOption};
ghost use Rattle.std.specs.Result.{MatchResult};
ghost use Rattle.x_base.specs.KeyName.{parts_of};

use crate::count::{BadCount, Count};
use crate::ident::{BadIdent, Ident};
use crate::label::{BadLabel, Label};
use crate::row::Row;
use crate::text::{NoMemory, Text};
use itoa::Buffer;
use thiserror::Error;

/// What is wrong with the first bad part of a key name.
#[derive(Clone, Copy, Debug, Error)]
pub enum NameFault {
    /// The issuer or the originator is no identity, or there aren't four parts.
    #[error("bad identity")]
    BadIdent,
    /// The label is none.
    #[error("bad label")]
    BadLabel,
    /// The count is none.
    #[error("bad count")]
    BadCount,
}

impl From<BadIdent> for NameFault {
    ghost use Rattle.std.specs.Prelude.{◌≡◌};
    ghost use Rattle.x_base.specs.declared.key_name.NameFault.{NameFault};

    ghost from_gives = { λ _ fault. fault ≡ NameFault.BadIdent };

    fn from(_: BadIdent) -> NameFault {
        NameFault::BadIdent
    }
}

impl From<BadLabel> for NameFault {
    ghost use Rattle.std.specs.Prelude.{◌≡◌};
    ghost use Rattle.x_base.specs.declared.key_name.NameFault.{NameFault};

    ghost from_gives = { λ _ fault. fault ≡ NameFault.BadLabel };

    fn from(_: BadLabel) -> NameFault {
        NameFault::BadLabel
    }
}

impl From<BadCount> for NameFault {
    ghost use Rattle.std.specs.Prelude.{◌≡◌};
    ghost use Rattle.x_base.specs.declared.key_name.NameFault.{NameFault};

    ghost from_gives = { λ _ fault. fault ≡ NameFault.BadCount };

    fn from(_: BadCount) -> NameFault {
        NameFault::BadCount
    }
}

/// The name of a key (ANSI X9.17): who issued it, who sent it, and the label and the count of the
/// key-encrypting key under which it came to its recipient. The issuer is the centre, or the
/// originator where there is no centre.
#[derive(Clone, Copy, Debug, PartialEq, Eq, Hash)]
pub struct KeyName {
    pub issuer: Ident,
    pub originator: Ident,
    pub label: Label,
    pub count: Count,
}

/// The name of a key, and to whom it came.
#[derive(Clone, Copy, PartialEq, Eq, Hash)]
pub struct FullName {
    pub name: KeyName,
    pub recipient: Ident,
}

fn first_period(bytes: &[u8]) -> Option<usize>
    ensures { result ≡ position (λ b. b == 46) bytes.now }
{
    bytes.iter().position(|byte| *byte == b'.')
}

/// The part before the first period, and what stands behind that period.
#[tactic(auto, using(crate::proofs::Splitting::cut_none, crate::proofs::Splitting::cut_some))]
fn cut(bytes: &[u8]) -> Option<(&[u8], &[u8])>
    ensures { MatchOption result (parts_of bytes.now ≡ bytes.now ∷ []) (λ p. parts_of bytes.now ≡ p.0.now ∷ parts_of p.1.now) }
{
    let at = first_period(bytes)?;
    Some((&bytes[..at], &bytes[at + 1..]))
}

/// The parts between periods, where there are four.
#[tactic(auto, using(crate::proofs::Splitting::some_parts))]
fn four_parts(bytes: &[u8]) -> Option<(&[u8], &[u8], &[u8], &[u8])>
    ensures { MatchOption result (length (parts_of bytes.now) ≢ 4)
        (λ p. parts_of bytes.now ≡ p.0.now ∷ p.1.now ∷ p.2.now ∷ p.3.now ∷ []) }
{
    let (issuer, rest) = cut(bytes)?;
    let (originator, rest) = cut(rest)?;
    let (label, count) = cut(rest)?;
    match cut(count) {
        None => Some((issuer, originator, label, count)),
        Some(_) => None,
    }
}

impl KeyName {
    ghost use Rattle.x_base.specs.declared.key_name.KeyName.{KeyName};
    ghost use Rattle.x_base.specs.declared.key_name.NameFault.{NameFault};
    ghost use Rattle.x_base.specs.KeyName.{NameOf, IsNameFault, IsPartsFault, written};

    /// Reads a key name that is all of the bytes: `ISSUER.ORIGINATOR.LABEL.COUNT`.
    pub fn read(bytes: &[u8]) -> Result<KeyName, NameFault>
        ensures spelled { (name : KeyName) → (result ≡ Ok name) ↔ NameOf bytes.now name }
        ensures fault { (fault : NameFault) → (result ≡ Err fault) ↔ IsNameFault bytes.now fault }
    {
        match four_parts(bytes) {
            Some((issuer, originator, label, count)) => {
                KeyName::from_parts(issuer, originator, label, count)
            }
            None => Err(NameFault::BadIdent),
        }
    }

    fn from_parts(
        issuer: &[u8],
        originator: &[u8],
        label: &[u8],
        count: &[u8],
    ) -> Result<KeyName, NameFault>
        ensures { let parts = issuer.now ∷ originator.now ∷ label.now ∷ count.now ∷ [] in
            MatchResult result (NameOf (join_with_byte 46 parts)) (IsPartsFault parts) }
    {
        Ok(KeyName {
            issuer: Ident::read(issuer)?,
            originator: Ident::read(originator)?,
            label: Label::read(label)?,
            count: Count::read(count)?,
        })
    }

    /// Appends the written form, `ISSUER.ORIGINATOR.LABEL.COUNT`.
    pub fn write(&self, out: &mut Text) -> Result<(), NoMemory>
        ensures appends { OnOk result (out.new ≡ out.old ++ written self.now) }
        ensures kept { OnErr result (out.new ≡ out.old) }
        ensures short { length (written self.now) ≤ 65 }
        ensures reads_back { NameOf (written self.now) self.now }
    {
        let mut row = Row::new();
        self.put_into(&mut row);
        out.push(row.bytes())
    }

    /// Puts the written form into an empty row.
    #[tactic(auto, using(crate::proofs::Naming::written_short, crate::proofs::Naming::written_spells))]
    fn put_into(&self, row: &mut Row)
        requires empty { row.old ≡ [] }
        ensures row { row.new ≡ written self.now }
        ensures short { length (written self.now) ≤ 65 }
        ensures reads_back { NameOf (written self.now) self.now }
    {
        let count = self.count.value();
        let mut digits = Buffer::new();
        row.put_part(self.issuer.padded());
        row.put_part(self.originator.padded());
        row.put_part(self.label.padded());
        row.put(digits.format(count).as_bytes());
    }
}
