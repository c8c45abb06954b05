ghost use Rattle.std.specs.Prelude.{◌≡◌};
ghost use Rattle.x_values.specs.Words.{count_of, ident_of, key_name_of, label_of};

use x_base::{Count, Ident, KeyName, Label};

/// An identity.
pub fn read_ident(word: &[u8]) -> Option<Ident>
    ensures { result ≡ ident_of word.now }
{
    Ident::read(word).ok()
}

/// A label.
pub fn read_label(word: &[u8]) -> Option<Label>
    ensures { result ≡ label_of word.now }
{
    Label::read(word).ok()
}

/// A count of 1 to 14 decimal digits, with leading zeros too.
#[tactic(auto, using(crate::proofs::Naming::count_read))]
pub fn read_count(word: &[u8]) -> Option<Count>
    ensures { result ≡ count_of word.now }
{
    Count::read(word).ok()
}

/// The name of a key.
#[tactic(auto, using(crate::proofs::Naming::name_read))]
pub fn read_key_name(word: &[u8]) -> Option<KeyName>
    ensures { result ≡ key_name_of word.now }
{
    KeyName::read(word).ok()
}
