// The bytes of a disk in memory: how they are written over, copied and torn.
ghost use Rattle.std.specs.Prelude.{◌≡◌, ◌+◌, ◌<◌, ◌≤◌, ◌-◌, ◌^◌, ◌++◌, max, length, take, drop, replicate, OnOk, OnErr};
ghost use Rattle.std.specs.Vec.{vec_capacity};
ghost use Rattle.x_disk.specs.Disk.{overwrite};
ghost use Rattle.x_disk.specs.History.{covers_place, torn_byte, torn_or, torn_from, left_by, state_of};
ghost use Rattle.x_disk.specs.Record.{steps_of, lengths, ranges_of, written, IsMadeUpTo, Grows};

use crate::disk_record::Entry;
use std::alloc::AllocError;

// Fills a gap before this place with zeros, and reserves memory for so many bytes behind it.
fn fill_gap(bytes: &mut Vec<u8>, at: usize, more: usize) -> Result<(), AllocError>
    requires { at + more < 2 ^ 64 }
    ensures ok { OnOk result (bytes.new.items ≡ bytes.old.items ++ replicate (at - length bytes.old.items) 0) }
    ensures room { OnOk result (length bytes.old.items < at → at + more ≤ vec_capacity bytes.new) }
    ensures grows { Grows (max (length bytes.old.items) (at + more)) (vec_capacity bytes.old) (vec_capacity bytes.new) result }
{
    if bytes.len() < at {
        bytes.reserve(at + more - bytes.len())?;
        bytes.resize(at, 0)?;
    }
    Ok(())
}

// Writes over what is there.
fn paste(bytes: &mut [u8], at: usize, new: &[u8])
    requires { at + length new.now ≤ length bytes.old }
    ensures { bytes.new ≡ take at bytes.old ++ new.now ++ drop (at + length new.now) bytes.old }
{
    bytes[at..at + new.len()].copy_from_slice(new);
}

// Writes over what is there from this place on, and appends the rest.
fn paste_across(bytes: &mut Vec<u8>, at: usize, new: &[u8]) -> Result<(), AllocError>
    requires { at ≤ length bytes.old.items }
    ensures ok { OnOk result (bytes.new.items ≡ take at bytes.old.items ++ new.now ++ drop (at + length new.now) bytes.old.items) }
    ensures err { OnErr result (bytes.new.items ≡ bytes.old.items) }
    ensures grows { Grows (max (length bytes.old.items) (at + length new.now)) (vec_capacity bytes.old) (vec_capacity bytes.new) result }
{
    if at == bytes.len() {
        return bytes.extend_from_slice(new);
    }
    if new.len() <= bytes.len() - at {
        paste(bytes, at, new);
        return Ok(());
    }
    let (over, behind) = new.split_at(bytes.len() - at);
    bytes.extend_from_slice(behind)?;
    paste(bytes, at, over);
    Ok(())
}

// Writes over what is there and past the end.
fn write_over(bytes: &mut Vec<u8>, at: usize, new: &[u8]) -> Result<(), AllocError>
    requires { at < 2 ^ 32 }
    ensures ok { OnOk result (bytes.new.items ≡ overwrite at new.now bytes.old.items) }
    ensures grows { Grows (max (length bytes.old.items) (at + length new.now)) (vec_capacity bytes.old) (vec_capacity bytes.new) result }
{
    fill_gap(bytes, at, new.len())?;
    paste_across(bytes, at, new)
}

/// Makes it equal to these bytes.
pub(crate) fn copy_from(to: &mut Vec<u8>, from: &[u8]) -> Result<(), AllocError>
    ensures ok { OnOk result (to.new.items ≡ from.now) }
    ensures err { OnErr result (to.new.items ≡ to.old.items) }
    ensures capacity { vec_capacity to.old ≤ vec_capacity to.new }
{
    paste_across(to, 0, from)?;
    to.truncate(from.len());
    Ok(())
}

/// Writes over it what these entries wrote, the bytes of whose writes lie one after the other.
pub(crate) fn write_all(
    image: &mut Vec<u8>,
    entries: &[Entry],
    payload: &[u8],
) -> Result<(), AllocError>
    requires { lengths entries.now ≤ length payload.now }
    ensures ok { OnOk result (image.new.items ≡ written entries.now payload.now image.old.items) }
    ensures grows { Grows (length (written entries.now payload.now image.old.items)) (vec_capacity image.old) (vec_capacity image.new) result }
{
    let mut rest = entries;
    let mut behind = payload;
    while let [entry, after @ ..] = rest {
        if let Entry::Write { at, len } = *entry {
            let (new, others) = behind.split_at(len as usize);
            write_over(image, at as usize, new)?;
            behind = others;
        }
        rest = after;
    }
    Ok(())
}

/// Applies to an image the entries that aren't applied to it yet, and counts them. The image has room for what comes of it,
/// so that this takes no memory.
pub(crate) fn apply_rest(
    image: &mut Vec<u8>,
    entries: &[Entry],
    payload: &[u8],
    applied_entries: &mut usize,
    applied_bytes: &mut usize,
)
    requires made { IsMadeUpTo image.old.items entries.now payload.now applied_entries.old applied_bytes.old }
    requires room { length (state_of (steps_of entries.now payload.now)).now ≤ vec_capacity image.old }
    ensures whole { image.new.items ≡ (state_of (steps_of entries.now payload.now)).now }
    ensures made { IsMadeUpTo image.new.items entries.now payload.now applied_entries.new applied_bytes.new }
    ensures bytes { applied_bytes.new ≡ length payload.now }
    ensures capacity { vec_capacity image.old ≤ vec_capacity image.new }
{
    match write_all(
        image,
        &entries[*applied_entries..],
        &payload[*applied_bytes..],
    ) {
        Ok(()) => {}
        Err(_) => unreachable!(),
    }
    *applied_entries = entries.len();
    *applied_bytes = payload.len();
}

// Whether one of these writes has this place in its range.
fn is_pending(entries: &[Entry], place: u64) -> bool
    ensures { result ≡ covers_place (ranges_of entries.now) place }
{
    let mut rest = entries;
    while let [entry, after @ ..] = rest {
        if let Entry::Write { at, len } = *entry
            && at as u64 <= place
            && place - (at as u64) < len as u64
        {
            return true;
        }
        rest = after;
    }
    false
}

// The byte that a torn place holds.
fn byte_at(choice: u64, place: u64) -> u8
    ensures { result ≡ torn_byte choice place }
{
    (place.wrapping_mul(choice).wrapping_add(choice >> 8) % 256) as u8
}

// The byte that stands at a place after the power went.
fn torn_at(old: u8, entries: &[Entry], stable: usize, choice: u64, place: usize) -> u8
    ensures { result ≡ torn_or choice (ranges_of entries.now) stable place old }
{
    if is_pending(entries, place as u64) || stable <= place {
        byte_at(choice, place as u64)
    } else {
        old
    }
}

// Tears what is pending.
fn tear(image: &mut [u8], entries: &[Entry], stable: usize, choice: u64)
    ensures { image.new ≡ torn_from choice (ranges_of entries.now) stable 0 image.old }
{
    for place in 0..image.len() {
        image[place] = torn_at(image[place], entries, stable, choice, place);
    }
}

/// Makes both what a read gives and the image of the last sync the image that a power-off leaves.
pub(crate) fn settle(
    bytes: &mut Vec<u8>,
    stable: &mut Vec<u8>,
    entries: &[Entry],
    choice: u64,
) -> Result<(), AllocError>
    ensures bytes { OnOk result (bytes.new.items ≡ left_by choice (record { now = bytes.old.items; stable = stable.old.items; pending = ranges_of entries.now })) }
    ensures stable { OnOk result (stable.new.items ≡ left_by choice (record { now = bytes.old.items; stable = stable.old.items; pending = ranges_of entries.now })) }
    ensures err { OnErr result ((bytes.new.items ≡ bytes.old.items) × (stable.new.items ≡ stable.old.items)) }
    ensures capacity { vec_capacity bytes.old ≤ vec_capacity bytes.new }
{
    if choice == 0 {
        copy_from(bytes, stable)?;
        return Ok(());
    }
    let settled = stable.len();
    copy_from(stable, bytes)?;
    if choice == 1 {
        return Ok(());
    }
    tear(stable, entries, settled, choice);
    tear(bytes, entries, settled, choice);
    Ok(())
}
