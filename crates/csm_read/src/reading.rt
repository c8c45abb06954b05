ghost use Rattle.std.specs.Prelude.{◌≡◌, ◌≤◌, ◌+◌, length, take, drop};
ghost use Rattle.csm_grammar.specs.Spelling.{message_limit};
ghost use Rattle.csm_read.specs.Faults.{front_fault, endless_fault};
ghost use Rattle.csm_read.specs.Answers.{Found, Only, Faulted, Faults};
ghost use Rattle.csm_read.specs.Building.{IsAnswer};

use crate::fields::Fields;
use crate::units::unit_len;
use csm_grammar::{Parsed, ReadRefusal};
use std::alloc::Global;

/// How many bytes a message has at most.
const LIMIT: usize = 1024;

const FRONT: [u8; 4] = *b"CSM(";

/// The fault of the front: the first byte that differs, or that none is there.
fn front_fault(bytes: &[u8]) -> Option<ReadRefusal>
    ensures { result ≡ front_fault bytes.now }
{
    if bytes.is_empty() {
        return Some(ReadRefusal::NotCsm(0));
    }
    for i in 0..4 {
        if i >= bytes.len() {
            return None;
        }
        if bytes[i] != FRONT[i] {
            return Some(ReadRefusal::NotCsm(i as u64));
        }
    }
    None
}

/// The bytes that are judged: the first 1,024.
fn judged(bytes: &[u8]) -> &[u8]
    ensures { result.now ≡ take message_limit bytes.now }
{
    if bytes.len() <= LIMIT {
        return bytes;
    }
    let (front, _) = bytes.split_at(LIMIT);
    front
}

fn bytes_from(bytes: &[u8], place: usize) -> &[u8]
    requires { place ≤ length bytes.now }
    ensures { result.now ≡ drop place bytes.now }
{
    let (_, behind) = bytes.split_at(place);
    behind
}

fn token(bytes: &[u8], place: usize, len: usize) -> &[u8]
    requires { place + len ≤ length bytes.now }
    ensures { result.now ≡ take len (drop place bytes.now) }
{
    let (token, _) = bytes_from(bytes, place).split_at(len);
    token
}

/// The fault of bytes without an end, of which there are so many.
fn endless(len: usize) -> ReadRefusal
    ensures { result ≡ endless_fault len }
{
    if len > LIMIT {
        ReadRefusal::TooLong(LIMIT as u64)
    } else {
        ReadRefusal::Unended(len as u64)
    }
}

/// The message that begins at byte 0, or its first fault.
pub(crate) fn answer(alloc: Global, bytes: &[u8]) -> Result<Parsed, ReadRefusal>
    ensures { IsAnswer bytes.now result }
{
    if let Some(fault) = front_fault(bytes) {
        return Err(fault);
    }
    let judged = judged(bytes);
    if judged.len() < 4 {
        return Err(endless(bytes.len()));
    }
    let mut fields = Fields::new();
    let mut place = 4;
    let mut last = 0;
    while let Some(len) = unit_len(bytes_from(judged, place)) {
        if len > 0 {
            if let Err(fault) = fields.take(place, token(judged, place, len)) {
                return Err(fault);
            }
            last = place;
            place += len;
        } else if judged[place] == b')' {
            return fields.end(alloc, last, place);
        } else {
            place += 1;
        }
    }
    Err(endless(bytes.len()))
}

/// Reads the message that begins at byte 0. What follows its spelling isn't looked at.
///
/// Without a message the answer is the first fault of the first 1,024 bytes, at its place.
pub fn read(alloc: Global, bytes: &[u8]) -> Result<Parsed, ReadRefusal>
    ensures found { Found bytes.now result }
    ensures only { Only bytes.now result }
    ensures faulted { Faulted bytes.now result }
    ensures faults { Faults bytes.now result }
{
    answer(alloc, bytes)
}
