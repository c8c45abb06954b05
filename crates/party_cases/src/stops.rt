// A party whose disk or shelf fails.
use crate::bank::{Party, asked, party_of};
use std::alloc::Global;
use x_base::NoMemory;
use x_disk::{Disk, DiskErr, FusedShelf, MemoryShelf, Shelf};

/// What a party was asked from its beginning on, with ` > ` between two steps, or behind an image that was laid, what it is asked
/// now, what this gives, what is seen before and after it, and what the same step gives once more.
#[derive(Drop)]
struct Case<'a> {
    history: &'a str,
    step: &'a str,
    given: &'a str,
    before: &'a str,
    after: &'a str,
    again: &'a str,
}

/// What the step gives, and what is shown then, where the shelf gives no disk, and where it keeps it and says that it failed.
pub(crate) fn failing_shelf(alloc: Global, row: &str) -> Result<String, NoMemory> {
    let mut told = String::new(alloc);
    let (own, row) = row.split_once(" | ").unwrap_or((row, ""));
    let (history, step) = row.split_once(" | ").unwrap_or((row, ""));
    let Some(party) = party_of(own) else {
        return Ok(String::from_str(alloc, "no party")?);
    };
    for calls in 0..2 {
        let Ok(shelf) = standing(alloc, &party, history) else {
            return Ok(String::from_str(alloc, "no shelf")?);
        };
        let mut fused = FusedShelf::new(shelf, calls, u64::MAX);
        let given = asked(alloc, &mut fused, &party, step)?;
        let shown = asked(alloc, &mut fused.into_inner(), &party, "show")?;
        let line = format!(in alloc; "| {given} | {shown} |")?;
        told.push_str(line.as_str())?;
    }
    Ok(told)
}

/// A longer image isn't laid: no disk has room for any length.
const LONGEST_IMAGE: usize = 4_096;

/// Writes the bytes that a step names in hexadecimal digits behind `image ` to the disk of the party; false where it names none, or
/// too many.
fn laid(
    alloc: Global,
    shelf: &mut MemoryShelf,
    party: &Party,
    step: &str,
) -> Result<bool, DiskErr> {
    let Some(digits) = step.strip_prefix("image ") else {
        return Ok(false);
    };
    let Ok(image) = hex::decode(alloc, digits.as_bytes()) else {
        return Ok(false);
    };
    if image.len() > LONGEST_IMAGE {
        return Ok(false);
    }
    let mut disk = shelf.fetch(&party.own)?;
    disk.write_at(0, image.as_slice())?;
    disk.sync()?;
    shelf.put_back(&party.own, disk)?;
    Ok(true)
}

/// The shelf on which the party was asked all of its history; a step of it may be an image that is laid.
pub(crate) fn standing(
    alloc: Global,
    party: &Party,
    history: &str,
) -> Result<MemoryShelf, DiskErr> {
    let mut shelf = MemoryShelf::new(alloc);
    if history.is_empty() {
        return Ok(shelf);
    }
    for step in history.split(" > ") {
        if !laid(alloc, &mut shelf, party, step)? {
            let _ = asked(alloc, &mut shelf, party, step)?;
        }
    }
    Ok(shelf)
}

/// The power of the party's disk goes.
fn power_goes(shelf: &mut MemoryShelf, party: &Party, choice: u64) -> Result<(), DiskErr> {
    let mut disk = shelf.fetch(&party.own)?;
    disk.power_off(choice)?;
    shelf.put_back(&party.own, disk)
}

/// The byte at this place of a disk, and 0 past its end.
fn byte_at<D: Disk>(disk: &mut D, at: u64) -> Result<u8, DiskErr> {
    if at >= disk.length()? {
        return Ok(0);
    }
    let mut byte = [0];
    disk.read(at, &mut byte)?;
    Ok(byte[0])
}

/// Which half of its file a party is in, the second one where the selector is 1, and in which format.
fn half_and_format<D: Disk>(alloc: Global, disk: &mut D) -> Result<String, DiskErr> {
    let (half, body) = if byte_at(disk, 1)? == 1 {
        (1, 8_388_621)
    } else {
        (0, 21)
    };
    let format = byte_at(disk, body)?;
    Ok(format!(in alloc; "half {half};format {format};")?)
}

/// What is seen of a party: what it shows, and, for a step that writes it anew, its half and format.
fn seen(
    alloc: Global,
    shelf: &mut MemoryShelf,
    party: &Party,
    step: &str,
) -> Result<String, DiskErr> {
    let mut seen = asked(alloc, shelf, party, "show")?;
    if step == "compact" || step == "migrate" {
        let mut disk = shelf.fetch(&party.own)?;
        let file = half_and_format(alloc, &mut disk)?;
        seen.push_str(file.as_str())?;
        shelf.put_back(&party.own, disk)?;
    }
    Ok(seen)
}

/// Whether the party is as it is to be, and the same step once more is answered as it then is; or is as it was, and the step is
/// done now. None where it is neither.
fn state_of(
    alloc: Global,
    shelf: &mut MemoryShelf,
    party: &Party,
    case: &Case,
) -> Result<Option<bool>, DiskErr> {
    let seen = seen(alloc, shelf, party, case.step)?;
    let is_after = seen.as_str() == case.after;
    if !is_after && seen.as_str() != case.before {
        return Ok(None);
    }
    let wanted = if is_after { case.again } else { case.given };
    let again = asked(alloc, shelf, party, case.step)?;
    Ok((again.as_str() == wanted).then_some(is_after))
}

/// How many stops leave the party as it is to be, where its disk fails after more and more calls, fewer than 20, until the call is
/// done, and the power goes each time with this choice. None where something else comes.
fn stops(alloc: Global, party: &Party, case: &Case, choice: u64) -> Result<Option<u64>, DiskErr> {
    let mut after: u64 = 0;
    for calls in 0..20 {
        let shelf = standing(alloc, party, case.history)?;
        let mut fused = FusedShelf::new(shelf, u64::MAX, calls);
        let given = asked(alloc, &mut fused, party, case.step)?;
        let mut shelf = fused.into_inner();
        power_goes(&mut shelf, party, choice)?;
        let is_done = given.as_str() == case.given;
        if !is_done && given.as_str() != "disk fault" {
            return Ok(None);
        }
        match state_of(alloc, &mut shelf, party, case)? {
            Some(true) if is_done && calls > 0 => return Ok(Some(after)),
            Some(true) if !is_done => after = after.saturating_add(1),
            Some(false) if !is_done => {}
            _ => return Ok(None),
        }
    }
    Ok(None)
}

/// How many stops leave the party as it is to be; where the choice is neither 0 nor 1, or nothing changes, only whether they are
/// as few or as many as they may be.
pub(crate) fn failing_disk(alloc: Global, row: &str) -> Result<String, NoMemory> {
    let fields: Vec<&str> = row.split(" | ").collect(alloc)?;
    let [own, history, step, given, before, after, again, choice] = fields.as_slice() else {
        return Ok(String::from_str(alloc, "no row")?);
    };
    let case = Case {
        history: *history,
        step: *step,
        given: *given,
        before: *before,
        after: *after,
        again: *again,
    };
    let Ok(choice) = choice.parse::<u64>() else {
        return Ok(String::from_str(alloc, "no choice")?);
    };
    let Some(party) = party_of(own) else {
        return Ok(String::from_str(alloc, "no party")?);
    };
    let Ok(Some(stops)) = stops(alloc, &party, &case, choice) else {
        return Ok(String::from_str(alloc, "none")?);
    };
    if before == after && stops > 0 {
        return Ok(String::from_str(alloc, "some")?);
    }
    if choice > 1 && stops <= 2 {
        return Ok(String::from_str(alloc, "two at most")?);
    }
    Ok(format!(in alloc; "{stops}")?)
}
