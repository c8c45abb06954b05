// The line that bytes write.
ghost use Rattle.std.specs.Prelude.{◌≡◌, IfOk, option_map};
ghost use Rattle.scenario.specs.Words.{words_behind};
ghost use Rattle.scenario.specs.Kinds.{ask_line, bytes_if_there, bytes_line, bytes_of, drop_line, end_line, if_there, is_single_of, line_of, line_of_kind, link_line, pass_line, party_line, purge_line, recent_line, resend_line, role_of, start_kk_line, start_line, stop_line, time_line, translate_line};
ghost use Rattle.x_values.specs.Words.{ident_of, label_of};

use crate::kind::Kind;
use crate::line::Line;
use crate::words::{first_word, five, four, one, one_or_two, three, two, two_or_three};
use hex::FromHexError;
use std::alloc::Global;
use x_base::{Ident, Label, NoMemory, Role, Text};
use x_values::{
    read_decimal_number, read_ident, read_key, read_key_name, read_label, read_pair,
    read_plain_number, read_plain_number_within,
};

/// How many lines a scenario may have, and so how many texts a line may count.
const MOST_TEXTS: u64 = 65_536;

/// How many hexadecimal digits BYTES may have.
const MOST_DIGITS: usize = 2_080;

fn role(word: &[u8]) -> Option<Role>
    ensures { result ≡ role_of word.now }
{
    if word == b"BANK".as_slice() {
        Some(Role::Bank)
    } else if word == b"DISTRIBUTION".as_slice() {
        Some(Role::Distribution)
    } else if word == b"TRANSLATION".as_slice() {
        Some(Role::Translation)
    } else {
        None
    }
}

fn is_single(word: &[u8]) -> Option<bool>
    ensures { result ≡ is_single_of word.now }
{
    if word == b"SINGLE".as_slice() {
        Some(true)
    } else if word == b"DOUBLE".as_slice() {
        Some(false)
    } else {
        None
    }
}

fn ident_if_there(word: Option<&[u8]>) -> Option<Option<Ident>>
    ensures { result ≡ if_there ident_of (option_map (λ w. w.now) word.entry) }
{
    match word {
        None => Some(None),
        Some(word) => Some(Some(read_ident(word)?)),
    }
}

fn label_if_there(word: Option<&[u8]>) -> Option<Option<Label>>
    ensures { result ≡ if_there label_of (option_map (λ w. w.now) word.entry) }
{
    match word {
        None => Some(None),
        Some(word) => Some(Some(read_label(word)?)),
    }
}

fn party(words: &[u8]) -> Option<Line>
    ensures { result ≡ party_line (words_behind words.now) }
{
    let (name, what, keys, v) = four(words)?;
    Some(Line::Party {
        name: read_ident(name)?,
        role: role(what)?,
        pair: read_pair(keys)?,
        v: read_key(v)?,
    })
}

fn link(words: &[u8]) -> Option<Line>
    ensures { result ≡ link_line (words_behind words.now) }
{
    let (origin, recipient, name, keys) = four(words)?;
    Some(Line::Link {
        origin: read_ident(origin)?,
        recipient: read_ident(recipient)?,
        label: read_label(name)?,
        pair: read_pair(keys)?,
    })
}

fn time(words: &[u8]) -> Option<Line>
    ensures { result ≡ time_line (words_behind words.now) }
{
    let moment = one(words)?;
    Some(Line::Time {
        moment: read_decimal_number(moment)?,
    })
}

fn start(words: &[u8]) -> Option<Line>
    ensures { result ≡ start_line (words_behind words.now) }
{
    let (party, peer, name) = two_or_three(words)?;
    Some(Line::Start {
        party: read_ident(party)?,
        peer: read_ident(peer)?,
        label: label_if_there(name)?,
    })
}

fn start_kk(words: &[u8]) -> Option<Line>
    ensures { result ≡ start_kk_line (words_behind words.now) }
{
    let (party, peer, under, new, how) = five(words)?;
    Some(Line::StartKk {
        party: read_ident(party)?,
        peer: read_ident(peer)?,
        label: read_label(under)?,
        new: read_label(new)?,
        single: is_single(how)?,
    })
}

fn ask(words: &[u8]) -> Option<Line>
    ensures { result ≡ ask_line (words_behind words.now) }
{
    let (party, peer, ultimate) = two_or_three(words)?;
    Some(Line::Ask {
        party: read_ident(party)?,
        peer: read_ident(peer)?,
        ultimate: ident_if_there(ultimate)?,
    })
}

fn translate(words: &[u8]) -> Option<Line>
    ensures { result ≡ translate_line (words_behind words.now) }
{
    let (party, centre, ultimate) = three(words)?;
    Some(Line::Translate {
        party: read_ident(party)?,
        centre: read_ident(centre)?,
        ultimate: read_ident(ultimate)?,
    })
}

fn resend(words: &[u8]) -> Option<Line>
    ensures { result ≡ resend_line (words_behind words.now) }
{
    let (party, peer) = two(words)?;
    Some(Line::Resend {
        party: read_ident(party)?,
        peer: read_ident(peer)?,
    })
}

fn end(words: &[u8]) -> Option<Line>
    ensures { result ≡ end_line (words_behind words.now) }
{
    let (party, peer, name) = three(words)?;
    Some(Line::End {
        party: read_ident(party)?,
        peer: read_ident(peer)?,
        name: read_key_name(name)?,
    })
}

fn drop_exchange(words: &[u8]) -> Option<Line>
    ensures { result ≡ drop_line (words_behind words.now) }
{
    let (party, peer) = two(words)?;
    Some(Line::Drop {
        party: read_ident(party)?,
        peer: read_ident(peer)?,
    })
}

fn purge(words: &[u8]) -> Option<Line>
    ensures { result ≡ purge_line (words_behind words.now) }
{
    let party = one(words)?;
    Some(Line::Purge {
        party: read_ident(party)?,
    })
}

fn pass(words: &[u8]) -> Option<Line>
    ensures { result ≡ pass_line (words_behind words.now) }
{
    let (k, party) = two(words)?;
    let k = read_plain_number_within(1, MOST_TEXTS, k)?;
    Some(Line::Pass {
        k: k as u32,
        party: read_ident(party)?,
    })
}

fn recent(words: &[u8]) -> Option<Line>
    ensures { result ≡ recent_line (words_behind words.now) }
{
    let j = one(words)?;
    let j = read_plain_number_within(1, MOST_TEXTS, j)?;
    Some(Line::Recent { j: j as u32 })
}

fn stop(words: &[u8]) -> Option<Line>
    ensures { result ≡ stop_line (words_behind words.now) }
{
    let (n, choice) = two(words)?;
    Some(Line::Stop {
        n: read_plain_number_within(1, 5, n)?,
        choice: read_plain_number(choice)?,
    })
}

/// The bytes that 2 to 2,080 hexadecimal digits of either case write, and `None` exactly where the word is no such digits.
pub fn decoded(alloc: Global, digits: &[u8]) -> Result<Option<Text>, NoMemory>
    ensures { IfOk result (λ bytes. bytes ≡ bytes_of digits.now) }
{
    if digits.is_empty() || MOST_DIGITS < digits.len() {
        return Ok(None);
    }
    match hex::decode(alloc, digits) {
        Ok(bytes) => {
            let mut text = Text::new(alloc);
            text.push(bytes.as_slice())?;
            Ok(Some(text))
        }
        Err(FromHexError::OutOfMemory) => Err(NoMemory),
        Err(_) => Ok(None),
    }
}

fn bytes_there(alloc: Global, digits: Option<&[u8]>) -> Result<Option<Text>, NoMemory>
    ensures { IfOk result (λ bytes. bytes ≡ bytes_if_there (option_map (λ w. w.now) digits.entry)) }
{
    match digits {
        None => Ok(Some(Text::new(alloc))),
        Some(digits) => decoded(alloc, digits),
    }
}

fn bytes(alloc: Global, words: &[u8]) -> Result<Option<Line>, NoMemory>
    ensures { IfOk result (λ line. line ≡ bytes_line (words_behind words.now)) }
{
    let Some((party, digits)) = one_or_two(words) else {
        return Ok(None);
    };
    let Some(party) = read_ident(party) else {
        return Ok(None);
    };
    match bytes_there(alloc, digits)? {
        Some(bytes) => Ok(Some(Line::Bytes { party, bytes })),
        None => Ok(None),
    }
}

fn line_by_kind(alloc: Global, kind: Kind, words: &[u8]) -> Result<Option<Line>, NoMemory>
    ensures { IfOk result (λ line. line ≡ line_of_kind kind (words_behind words.now)) }
{
    match kind {
        Kind::Party => Ok(party(words)),
        Kind::Link => Ok(link(words)),
        Kind::Time => Ok(time(words)),
        Kind::Start => Ok(start(words)),
        Kind::StartKk => Ok(start_kk(words)),
        Kind::Ask => Ok(ask(words)),
        Kind::Translate => Ok(translate(words)),
        Kind::Resend => Ok(resend(words)),
        Kind::End => Ok(end(words)),
        Kind::Drop => Ok(drop_exchange(words)),
        Kind::Purge => Ok(purge(words)),
        Kind::Pass => Ok(pass(words)),
        Kind::Recent => Ok(recent(words)),
        Kind::Bytes => bytes(alloc, words),
        Kind::Stop => Ok(stop(words)),
    }
}

/// The line that these bytes write, if they write one.
pub(crate) fn read_line(alloc: Global, bytes: &[u8]) -> Result<Option<Line>, NoMemory>
    ensures { IfOk result (λ line. line ≡ line_of bytes.now) }
{
    let (word, words) = first_word(bytes);
    match Kind::named(word) {
        Some(kind) => line_by_kind(alloc, kind, words),
        None => Ok(None),
    }
}
