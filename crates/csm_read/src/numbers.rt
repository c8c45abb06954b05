// The numbers that contents of a field stand for.
ghost use Rattle.std.specs.Prelude.{◌≡◌, is_some, false};
ghost use Rattle.csm_grammar.specs.Values.{value_of, kind_of};
ghost use Rattle.csm_grammar.specs.Values.Kind.{OfKey, OfCount, OfCode};
ghost use Rattle.csm_read.specs.Denoting.{is_number, IsDenoted};

use csm_grammar::Tag;
use csm_grammar::contents::{
    class, code, count, ident, key, label, name, pair, reason, service, text,
};

/// Whether the contents of the tag stand for something.
fn is_contents(tag: Tag, contents: &[u8]) -> bool
    ensures { result ≡ is_some (value_of (kind_of tag) contents.now) }
{
    match tag {
        Tag::Mcl => class(contents).is_some(),
        Tag::Rcv | Tag::Org | Tag::Idu | Tag::Idc => ident(contents).is_some(),
        Tag::Svr => service(contents).is_some(),
        Tag::Idd | Tag::Ida => name(contents).is_some(),
        Tag::Idk1 | Tag::Idk2 => label(contents).is_some(),
        Tag::DoubleKk => pair(contents).is_some(),
        Tag::Kk | Tag::Kd | Tag::Kdu => key(contents).is_some(),
        Tag::Ctp | Tag::Cta | Tag::Ctb | Tag::Ctr => count(contents).is_some(),
        Tag::Erf => reason(contents).is_some(),
        Tag::Iv | Tag::Edk | Tag::P => text(contents).is_some(),
        Tag::Mac | Tag::Edc => code(contents).is_some(),
        Tag::Kku | Tag::DoubleKku | Tag::Nos => false,
    }
}

fn key_denoted(contents: &[u8]) -> Option<u64>
    ensures { IsDenoted OfKey contents.now result }
{
    key(contents)
}

fn count_denoted(contents: &[u8]) -> Option<u64>
    ensures { IsDenoted OfCount contents.now result }
{
    match count(contents) {
        Some(count) => Some(count.value()),
        None => None,
    }
}

fn code_denoted(contents: &[u8]) -> Option<u64>
    ensures { IsDenoted OfCode contents.now result }
{
    match code(contents) {
        Some(code) => Some(code as u64),
        None => None,
    }
}

fn other_denoted(tag: Tag, contents: &[u8]) -> Option<u64>
    requires { is_number (kind_of tag) ≡ false }
    ensures { IsDenoted (kind_of tag) contents.now result }
{
    if is_contents(tag, contents) {
        Some(0)
    } else {
        None
    }
}

/// The number that the contents of the tag stand for, or 0 where they stand for another value.
pub fn denoted(tag: Tag, contents: &[u8]) -> Option<u64>
    ensures { IsDenoted (kind_of tag) contents.now result }
{
    match tag {
        Tag::Kk | Tag::Kd | Tag::Kdu => key_denoted(contents),
        Tag::Ctp | Tag::Cta | Tag::Ctb | Tag::Ctr => count_denoted(contents),
        Tag::Mac | Tag::Edc => code_denoted(contents),
        Tag::Mcl
        | Tag::Rcv
        | Tag::Org
        | Tag::Svr
        | Tag::Idu
        | Tag::Idc
        | Tag::Idd
        | Tag::Ida
        | Tag::Idk1
        | Tag::Idk2
        | Tag::DoubleKk
        | Tag::Erf
        | Tag::Iv
        | Tag::Edk
        | Tag::P
        | Tag::Kku
        | Tag::DoubleKku
        | Tag::Nos => other_denoted(tag, contents),
    }
}
