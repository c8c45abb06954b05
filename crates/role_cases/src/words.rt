// Words of a line, and what they stand for.
use party_state::{Role, Side};
use x_base::{Ident, KeyName, Label};
use x_mac::Pair;
use x_values::{read_ident, read_key_name, read_label, read_pair, read_plain_number};

/// The first word of a line, which blanks part, and the words behind it.
fn cut(line: &str) -> (&str, &str) {
    line.split_once(" ").unwrap_or((line, ""))
}

/// The first words of a line; empty ones behind the last.
pub(crate) fn words_of(line: &str) -> [&str; 6] {
    let (first, rest) = cut(line);
    let (second, rest) = cut(rest);
    let (third, rest) = cut(rest);
    let (fourth, rest) = cut(rest);
    let (fifth, rest) = cut(rest);
    let (sixth, _) = cut(rest);
    [first, second, third, fourth, fifth, sixth]
}

pub(crate) fn ident_of(word: &str) -> Option<Ident> {
    read_ident(word.as_bytes())
}

pub(crate) fn label_of(word: &str) -> Option<Label> {
    read_label(word.as_bytes())
}

pub(crate) fn name_of(word: &str) -> Option<KeyName> {
    read_key_name(word.as_bytes())
}

pub(crate) fn pair_of(word: &str) -> Option<Pair> {
    read_pair(word.as_bytes())
}

pub(crate) fn number_of(word: &str) -> Option<u64> {
    read_plain_number(word.as_bytes())
}

pub(crate) fn side_of(word: &str) -> Option<Side> {
    match word {
        "in" => Some(Side::Takes),
        "out" => Some(Side::Sends),
        _ => None,
    }
}

pub(crate) fn role_of(word: &str) -> Option<Role> {
    match word {
        "bank" => Some(Role::Bank),
        "distribution" => Some(Role::Distribution),
        "translation" => Some(Role::Translation),
        _ => None,
    }
}
