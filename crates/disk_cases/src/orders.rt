// Orders, of which a row has some.
use key_journal::Cause;
use std::alloc::{AllocError, Global};
use x_base::NoMemory;

/// What takes orders.
pub(crate) trait Ordered {
    /// What is told of the order; nothing where it gives nothing.
    fn order(&mut self, order: &str) -> Result<String, Cause>;
}

/// What is told, where there was memory for it.
pub(crate) fn told(text: Result<String, AllocError>) -> Result<String, Cause> {
    match text {
        Ok(told) => Ok(told),
        Err(_) => Err(Cause::NoMemory),
    }
}

/// The first word, and those behind it.
pub(crate) fn split(words: &str) -> (&str, &str) {
    words.split_once(' ').unwrap_or((words, ""))
}

pub(crate) fn number(digits: &str) -> Option<u64> {
    digits.parse::<u64>().ok()
}

/// A number, and bytes of hexadecimal digits behind it.
pub(crate) fn number_and_bytes(alloc: Global, words: &str) -> Option<(u64, Vec<u8>)> {
    let (first, digits) = split(words);
    Some((number(first)?, hex::decode(alloc, digits.as_bytes()).ok()?))
}

fn append(said: &mut String, word: &str) -> Result<(), NoMemory> {
    Ok(said.push_str(word)?)
}

/// Appends a word.
fn say(said: &mut String, word: &str) -> Result<(), NoMemory> {
    if !said.is_empty() && !word.is_empty() {
        append(said, " ")?;
    }
    append(said, word)
}

/// Follows the orders up to the first that fails and isn't only tried.
pub(crate) fn follow<O: Ordered>(
    alloc: Global,
    ordered: &mut O,
    orders: &str,
    said: &mut String,
) -> Result<(), NoMemory> {
    if orders.is_empty() {
        return Ok(());
    }
    for order in orders.split(", ") {
        let tried = order.strip_prefix("try ");
        match ordered.order(tried.unwrap_or(order)) {
            Ok(told) if tried.is_some() && told.is_empty() => say(said, "done")?,
            Ok(told) => say(said, told.as_str())?,
            Err(Cause::NoMemory) => return Err(NoMemory),
            Err(cause) => {
                let told = format!(in alloc; "{cause}")?;
                say(said, told.as_str())?;
                if tried.is_none() {
                    return Ok(());
                }
            }
        }
    }
    Ok(())
}
