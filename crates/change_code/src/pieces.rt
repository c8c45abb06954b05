// Reading identities, labels, numbers and the kinds of a value.
ghost use Rattle.std.specs.Prelude.{◌≡◌, ◌<◌, length, MatchOption, ◌++◌};
ghost use Rattle.change_code.specs.Code.{two, four, eight};
ghost use Rattle.change_code.specs.Reading.{IsPieceRead, ident_form, label_form, word_form, count_form, next_form, name_form, pair_form, gen_form, role_form, side_form, status_form, flag_form, maybe_form};

use crate::reader::Reader;
use party_state::{KeyStatus, LARGEST_NEXT, Role, Side};
use x_base::{Count, Ident, KeyName, Label};
use x_gen::Gen;
use x_mac::Pair;

/// The number of eight bytes.
fn word_of(bytes: &[u8; 8]) -> u64
    ensures { eight result ≡ bytes.now }
{
    u64::from_be_bytes(*bytes)
}

/// The number of four bytes.
pub(crate) fn code_of(bytes: &[u8; 4]) -> u32
    ensures { four result ≡ bytes.now }
{
    u32::from_be_bytes(*bytes)
}

/// The number of two bytes.
fn half_word_of(bytes: &[u8; 2]) -> u16
    ensures { two result ≡ bytes.now }
{
    u16::from_be_bytes(*bytes)
}

impl<'a> Reader<'a> {
    /// An identity behind its length.
    pub fn ident(&mut self) -> Option<Ident>
        ensures { IsPieceRead ident_form self.old self.new result }
    {
        Ident::read(self.short()?).ok()
    }

    pub(crate) fn label(&mut self) -> Option<Label>
        ensures { IsPieceRead label_form self.old self.new result }
    {
        Label::read(self.short()?).ok()
    }

    /// A number of eight bytes.
    pub(crate) fn word(&mut self) -> Option<u64>
        ensures { IsPieceRead word_form self.old self.new result }
    {
        let (bytes, rest) = self.rest.split_first_chunk::<8>()?;
        self.rest = rest;
        Some(word_of(bytes))
    }

    /// A number of two bytes.
    pub fn half_word(&mut self) -> Option<u16>
        ensures { MatchOption result (length self.old < 2) (λ n. self.old ≡ two n ++ self.new) }
    {
        let (bytes, rest) = self.rest.split_first_chunk::<2>()?;
        self.rest = rest;
        Some(half_word_of(bytes))
    }

    /// A count of eight bytes.
    pub fn count(&mut self) -> Option<Count>
        ensures { IsPieceRead count_form self.old self.new result }
    {
        Count::of(self.word()?)
    }

    /// The next count of a link.
    pub(crate) fn next_count(&mut self) -> Option<u64>
        ensures { IsPieceRead next_form self.old self.new result }
    {
        let next = self.word()?;
        if 1 <= next && next <= LARGEST_NEXT {
            Some(next)
        } else {
            None
        }
    }

    pub(crate) fn role(&mut self) -> Option<Role>
        ensures { IsPieceRead role_form self.old self.new result }
    {
        match self.byte()? {
            1 => Some(Role::Bank),
            2 => Some(Role::Distribution),
            3 => Some(Role::Translation),
            _ => None,
        }
    }

    /// A side in one byte.
    pub fn side(&mut self) -> Option<Side>
        ensures { IsPieceRead side_form self.old self.new result }
    {
        match self.byte()? {
            1 => Some(Side::Sends),
            2 => Some(Side::Takes),
            _ => None,
        }
    }

    pub(crate) fn status(&mut self) -> Option<KeyStatus>
        ensures { IsPieceRead status_form self.old self.new result }
    {
        match self.byte()? {
            1 => Some(KeyStatus::Pending),
            2 => Some(KeyStatus::Live),
            3 => Some(KeyStatus::Held),
            4 => Some(KeyStatus::Closing),
            5 => Some(KeyStatus::Ended),
            _ => None,
        }
    }

    pub(crate) fn flag(&mut self) -> Option<bool>
        ensures { IsPieceRead flag_form self.old self.new result }
    {
        match self.byte()? {
            0 => Some(false),
            1 => Some(true),
            _ => None,
        }
    }

    /// A label, or that there is none.
    pub(crate) fn maybe_label(&mut self) -> Option<Option<Label>>
        ensures { IsPieceRead maybe_form self.old self.new result }
    {
        match self.byte()? {
            0 => Some(None),
            1 => Some(Some(self.label()?)),
            _ => None,
        }
    }

    /// A key name: issuer, originator, label and count.
    pub fn key_name(&mut self) -> Option<KeyName>
        ensures { IsPieceRead name_form self.old self.new result }
    {
        let issuer = self.ident()?;
        let originator = self.ident()?;
        let label = self.label()?;
        let count = self.count()?;
        Some(KeyName {
            issuer,
            originator,
            label,
            count,
        })
    }

    pub(crate) fn pair(&mut self) -> Option<Pair>
        ensures { IsPieceRead pair_form self.old self.new result }
    {
        let left = self.word()?;
        let right = self.word()?;
        Some(Pair { left, right })
    }

    pub(crate) fn generator(&mut self) -> Option<Gen>
        ensures { IsPieceRead gen_form self.old self.new result }
    {
        let key = self.pair()?;
        let v = self.word()?;
        Some(Gen { key, v })
    }
}
