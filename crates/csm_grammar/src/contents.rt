// What the contents of a field stand for (ANSI X9.17).
ghost use Rattle.std.specs.Prelude.{◌≡◌, ◌++◌, option_map, take, drop, MatchOption};
ghost use Rattle.std.specs.List.{list_all};
ghost use Rattle.std.specs.Str.Parse.{digits_value};
ghost use Rattle.csm_grammar.specs.Halves.{IsHalved};
ghost use Rattle.csm_grammar.specs.Values.{value_of, value_if, is_hex, is_capital_or_digit, is_reason_byte, is_text_byte};
ghost use Rattle.csm_grammar.specs.Values.Value.{AText, AName, AService, ANumber, APair};
ghost use Rattle.csm_grammar.specs.Values.Kind.{OfClass, OfIdent, OfService, OfName, OfLabel, OfPair, OfKey, OfCount, OfReason, OfText, OfCode};

use crate::message::Service;
use hex::FromHex;
use x_base::{Count, Ident, KeyName, Label};

/// One of the eight classes.
pub fn class(contents: &[u8]) -> Option<&[u8]>
    ensures { option_map (λ x. AText x.now) result ≡ value_of OfClass contents.now }
{
    match contents {
        b"RSI" | b"RFS" | b"RTR" | b"KSM" | b"RSM" | b"ERS" | b"ESM" | b"DSM" => Some(contents),
        _ => None,
    }
}

/// An identity.
pub fn ident(contents: &[u8]) -> Option<Ident>
    ensures { option_map AText result ≡ value_of OfIdent contents.now }
{
    Ident::read(contents).ok()
}

/// A label.
pub fn label(contents: &[u8]) -> Option<Label>
    ensures { option_map AText result ≡ value_of OfLabel contents.now }
{
    Label::read(contents).ok()
}

/// A key name.
pub fn name(contents: &[u8]) -> Option<KeyName>
    ensures { option_map AName result ≡ value_of OfName contents.now }
{
    KeyName::read(contents).ok()
}

/// A count in decimal digits, with or without leading zeros.
pub fn count(contents: &[u8]) -> Option<Count>
    ensures { option_map ANumber result ≡ value_of OfCount contents.now }
{
    Count::read(contents).ok()
}

/// The keys that a request asks for.
pub fn service(contents: &[u8]) -> Option<Service>
    ensures { option_map AService result ≡ value_of OfService contents.now }
{
    match contents {
        b"KD" => Some(Service::Kd),
        b"KD.KD" => Some(Service::KdKd),
        b"KK" => Some(Service::Kk),
        b"*KK" => Some(Service::DoubleKk),
        b"KK.KD" => Some(Service::KkKd),
        b"*KK.KD" => Some(Service::DoubleKkKd),
        _ => None,
    }
}

/// A key of 16 hexadecimal digits.
pub fn key(contents: &[u8]) -> Option<u64>
    ensures { option_map ANumber result ≡ value_of OfKey contents.now }
{
    match <[u8; 8] as FromHex>::from_hex(contents) {
        Ok(bytes) => Some(u64::from_be_bytes(bytes)),
        Err(_) => None,
    }
}

/// A pair of keys, 32 hexadecimal digits, the left half first.
pub fn pair(contents: &[u8]) -> Option<(u64, u64)>
    ensures { option_map (λ p. APair p.0 p.1) result ≡ value_of OfPair contents.now }
{
    if contents.len() != 32 {
        return None;
    }
    let (left, right) = contents.split_at(16);
    let left = key(left)?;
    let right = key(right)?;
    Some((left, right))
}

/// The number that eight hexadecimal digits write.
fn eight_digits(digits: &[u8]) -> Option<u32>
    ensures { option_map ANumber result ≡ value_if (is_hex 8 digits.now) (ANumber (digits_value 16 digits.now)) }
{
    match <[u8; 4] as FromHex>::from_hex(digits) {
        Ok(bytes) => Some(u32::from_be_bytes(bytes)),
        Err(_) => None,
    }
}

/// The digits of two halves with a blank between them.
fn halves(contents: &[u8]) -> Option<[u8; 8]>
    ensures { MatchOption result (¬ IsHalved contents.now) (λ d. IsHalved contents.now × (d ≡ take 4 contents.now ++ drop 5 contents.now)) }
{
    if contents.len() != 9 {
        return None;
    }
    if contents[4] != b' ' {
        return None;
    }
    let mut digits = [0; 8];
    digits[..4].copy_from_slice(&contents[..4]);
    digits[4..].copy_from_slice(&contents[5..]);
    Some(digits)
}

/// A code of 8 hexadecimal digits, or of 4, a blank and 4.
pub fn code(contents: &[u8]) -> Option<u32>
    ensures { option_map ANumber result ≡ value_of OfCode contents.now }
{
    match halves(contents) {
        Some(digits) => eight_digits(&digits),
        None => eight_digits(contents),
    }
}

fn is_capital_or_digit(byte: u8) -> bool
    ensures { result ≡ is_capital_or_digit byte }
{
    matches!(byte, b'A'..=b'Z' | b'0'..=b'9')
}

fn is_reason_byte(byte: u8) -> bool
    ensures { result ≡ is_reason_byte byte }
{
    is_capital_or_digit(byte) || byte == b'.'
}

fn is_text_byte(byte: u8) -> bool
    ensures { result ≡ is_text_byte byte }
{
    is_capital_or_digit(byte) || matches!(byte, b'a'..=b'z' | b'.' | b'-' | b'*')
}

fn are_reason_bytes(bytes: &[u8]) -> bool
    ensures { result ≡ list_all is_reason_byte bytes.now }
{
    bytes.iter().all(|byte| is_reason_byte(*byte))
}

fn are_text_bytes(bytes: &[u8]) -> bool
    ensures { result ≡ list_all is_text_byte bytes.now }
{
    bytes.iter().all(|byte| is_text_byte(*byte))
}

/// Reasons of an error: 1 to 16 of `A`-`Z`, `0`-`9` and period.
pub fn reason(contents: &[u8]) -> Option<&[u8]>
    ensures { option_map (λ x. AText x.now) result ≡ value_of OfReason contents.now }
{
    if 1 <= contents.len() && contents.len() <= 16 && are_reason_bytes(contents) {
        Some(contents)
    } else {
        None
    }
}

/// A text that is kept and not interpreted: letters, digits, `.`, `-` and `*`.
pub fn text(contents: &[u8]) -> Option<&[u8]>
    ensures { option_map (λ x. AText x.now) result ≡ value_of OfText contents.now }
{
    if 1 <= contents.len() && are_text_bytes(contents) {
        Some(contents)
    } else {
        None
    }
}
