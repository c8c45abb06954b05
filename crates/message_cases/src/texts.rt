// The text that a row means, and how a refusal is told.
use csm_grammar::{ReadRefusal, Tag};
use std::alloc::Global;
use std::str::from_utf8;
use x_base::{NoMemory, Text};

/// A text of these bytes.
pub(crate) fn text_of(alloc: Global, bytes: &[u8]) -> Result<Text, NoMemory> {
    let mut text = Text::new(alloc);
    text.push(bytes)?;
    Ok(text)
}

/// Pushes what `\r` or `\n` at the head of a piece stands for, and the rest.
fn push_piece(text: &mut Text, piece: &str) -> Result<(), NoMemory> {
    if let Some(rest) = piece.strip_prefix("r") {
        text.push(b"\r")?;
        return text.push(rest.as_bytes());
    }
    if let Some(rest) = piece.strip_prefix("n") {
        text.push(b"\n")?;
        return text.push(rest.as_bytes());
    }
    Ok(())
}

/// Pushes the text that a row means.
pub(crate) fn push_meant(text: &mut Text, written: &str) -> Result<(), NoMemory> {
    let mut pieces = written.split('\\');
    if let Some(first) = pieces.next() {
        text.push(first.as_bytes())?;
    }
    for piece in pieces {
        push_piece(text, piece)?;
    }
    Ok(())
}

fn tag_of(refusal: ReadRefusal) -> Option<Tag> {
    match refusal {
        ReadRefusal::Repeated(tag, _) => Some(tag),
        ReadRefusal::Missing(tag, _) => Some(tag),
        ReadRefusal::Unwanted(tag, _) => Some(tag),
        ReadRefusal::BadContents(tag, _) => Some(tag),
        ReadRefusal::Unsupported(tag, _) => Some(tag),
        _ => None,
    }
}

/// The number of a refusal, its tag, and its place.
pub(crate) fn refusal_told(alloc: Global, refusal: ReadRefusal) -> Result<String, NoMemory> {
    let number = refusal.number();
    let place = refusal.place();
    match tag_of(refusal) {
        Some(tag) => {
            let name = from_utf8(tag.name()).unwrap_or("no tag");
            Ok(format!(in alloc; "{number} {name} at {place}")?)
        }
        None => Ok(format!(in alloc; "{number} at {place}")?),
    }
}
