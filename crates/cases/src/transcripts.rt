// A change of a line of a transcript.
use crate::parting::parted;
use std::alloc::Global;
use x_base::{NoMemory, Text};

/// A change of a line of a transcript.
#[derive(Clone, Copy)]
pub(crate) enum Change {
    /// Its first byte is another one.
    Changed,
    /// It is left out.
    Without,
    /// It stands twice.
    Twice,
}

fn push_line(text: &mut Text, line: &[u8]) -> Result<(), NoMemory> {
    text.push(line)?;
    text.push(b"\n")
}

/// A line with this change.
fn push_changed(text: &mut Text, line: &[u8], change: Change) -> Result<(), NoMemory> {
    match change {
        Change::Changed => {
            let (_, rest) = line.split_at(line.len().min(1));
            text.push(b"#")?;
            push_line(text, rest)
        }
        Change::Without => Ok(()),
        Change::Twice => {
            push_line(text, line)?;
            push_line(text, line)
        }
    }
}

/// An input with a change of the line of this number, from 1, behind its line `AUDIT`.
pub(crate) fn with_line(
    alloc: Global,
    input: &[u8],
    change: Change,
    number: u64,
) -> Result<Text, NoMemory> {
    let mut text = Text::new(alloc);
    let mut rest = input;
    let mut is_behind = false;
    let mut count: u64 = 0;
    for _ in 0..input.len() {
        if rest.is_empty() {
            break;
        }
        let (line, behind) = parted(rest, b'\n').unwrap_or((rest, &[]));
        if is_behind {
            count = count.saturating_add(1);
        }
        if is_behind && count == number {
            push_changed(&mut text, line, change)?;
        } else {
            push_line(&mut text, line)?;
        }
        is_behind = is_behind || line.starts_with(b"AUDIT ".as_slice());
        rest = behind;
    }
    Ok(text)
}
