// Command lines, their words parted by blanks, and what they give.
use std::alloc::Global;
use x_base::{Ident, Label, NoMemory, Words};
use x_line::{Given, LineFault, read_order};

fn words_of(alloc: Global, line: &str) -> Result<Words, NoMemory> {
    let mut words = Words::new(alloc);
    for word in line.split(' ') {
        words.push(word)?;
    }
    Ok(words)
}

/// What is given, with each name as it stands in the line.
fn with_names(alloc: Global, line: &str, given: &Given) -> Result<String, NoMemory> {
    let mut told = format!(in alloc; "{given:?}")?;
    for word in line.split([' ', '=', '.']) {
        if let Ok(ident) = Ident::read(word.as_bytes()) {
            let shown = format!(in alloc; "{ident:?}")?;
            told = told.as_str().replace(alloc, shown.as_str(), word)?;
        }
        if let Ok(label) = Label::read(word.as_bytes()) {
            let shown = format!(in alloc; "{label:?}")?;
            told = told.as_str().replace(alloc, shown.as_str(), word)?;
        }
    }
    Ok(told)
}

/// What a line gives, or what is wrong with it.
pub(crate) fn line_told(alloc: Global, line: &str) -> Result<String, NoMemory> {
    let words = words_of(alloc, line)?;
    match read_order(alloc, &words) {
        Ok(given) => with_names(alloc, line, &given),
        Err(LineFault::Usage(kind)) => Ok(format!(in alloc; "{kind:?}")?),
        Err(LineFault::NoMemory) => Err(NoMemory),
    }
}

/// The number of what is wrong with a line.
pub(crate) fn number_told(alloc: Global, line: &str) -> Result<String, NoMemory> {
    let words = words_of(alloc, line)?;
    match read_order(alloc, &words) {
        Ok(_) => Ok(String::new(alloc)),
        Err(LineFault::Usage(kind)) => Ok(format!(in alloc; "{}", kind.number())?),
        Err(LineFault::NoMemory) => Err(NoMemory),
    }
}
