// Facts that are found by their names and texts.
use crate::orders::number;
use fact_book::{FactBook, Texts};
use std::alloc::{AllocError, Global};
use x_base::{FullName, Ident, KeyName, NoMemory};

/// The name of a fact, a key and its recipient, and the text behind it.
fn fact_of(words: &str) -> Option<(FullName, &[u8])> {
    let (name, words) = words.split_once(' ')?;
    let (recipient, text) = words.split_once(' ')?;
    let name = KeyName::read(name.as_bytes()).ok()?;
    let recipient = Ident::read(recipient.as_bytes()).ok()?;
    Some((FullName { name, recipient }, text.as_bytes()))
}

/// Whether a book with facts has one more.
pub(crate) fn has(alloc: Global, asked: &str) -> Result<String, NoMemory> {
    let (facts, wanted) = asked.split_once(" ? ").unwrap_or((asked, ""));
    let mut book = FactBook::new(alloc);
    for fact in facts.split(", ") {
        if let Some((under, text)) = fact_of(fact) {
            book.add(under, text)?;
        }
    }
    let told = match fact_of(wanted) {
        Some((under, text)) if book.has(&under, text) => "true",
        Some(_) => "false",
        None => "no name",
    };
    Ok(told.to_string(alloc)?)
}

/// The text at this place.
fn told_at(alloc: Global, texts: &Texts, place: usize) -> Result<String, AllocError> {
    match texts.get(place) {
        Some(text) => format!(in alloc; "{text:?}"),
        None => "none".to_string(alloc),
    }
}

/// The text at a place among others, or how many there are.
pub(crate) fn text_at(alloc: Global, asked: &str) -> Result<String, NoMemory> {
    let (words, place) = asked.split_once(" ? ").unwrap_or((asked, ""));
    let mut texts = Texts::new(alloc);
    for text in words.split(", ") {
        texts.push(text.as_bytes())?;
    }
    let told = match number(place) {
        Some(place) => told_at(alloc, &texts, place as usize),
        None => texts.len().to_string(alloc),
    };
    Ok(told?)
}
