// The codes of edits, byte by byte.
ghost use Rattle.party_state.specs.Ranges.{IsFitting};

use crate::changes::{edit_of, exchange_of, names_of_edits};
use change_code::{CodeFault, Format, decode, encode_behind, law_decode_undoes};
use party_state::{Change, Edit};
use std::alloc::Global;
use x_base::NoMemory;

/// The code of this edit alone in this format, in hexadecimal digits, which is read back as one edit in this format.
fn code_of(alloc: Global, format: Format, edit: Edit) -> Result<String, CodeFault>
    requires { IsFitting edit }
{
    let mut change = Change::new(alloc);
    change.push(edit)?;
    let code = encode_behind(alloc, &[], format, &change)?;
    let back = law_decode_undoes(alloc, format, &change)?;
    let read = decode(alloc, code.bytes())?;
    if read.format != format || read.change.len() != 1 || back.change.len() != 1 {
        return Err(CodeFault::Bad);
    }
    match hex::encode_upper(alloc, code.bytes()) {
        Ok(digits) => Ok(digits),
        Err(_) => Err(CodeFault::NoMemory),
    }
}

/// The code of an edit of `edit_of`, by its row and the number of the format.
pub(crate) fn edit_code(alloc: Global, asked: &str) -> Result<String, CodeFault> {
    let Some((row, format)) = asked.split_once(" in format ") else {
        return Err(CodeFault::Bad);
    };
    let format = match format {
        "1" => Format::One,
        "2" => Format::Two,
        _ => return Err(CodeFault::Bad),
    };
    let (Ok(row), Some(names)) = (row.parse::<usize>(), names_of_edits()) else {
        return Err(CodeFault::Bad);
    };
    code_of(alloc, format, edit_of(row, &names))
}

/// The code in format 1 of an exchange of `exchange_of`, by its row.
pub(crate) fn exchange_code(alloc: Global, asked: &str) -> Result<String, CodeFault> {
    let Ok(row) = asked.parse::<usize>() else {
        return Err(CodeFault::Bad);
    };
    match exchange_of(alloc, row) {
        Ok(edit) => code_of(alloc, Format::One, edit),
        Err(_) => Err(CodeFault::Bad),
    }
}

/// Whether bytes of hexadecimal digits are a code.
pub(crate) fn is_code(alloc: Global, digits: &str) -> Result<String, NoMemory> {
    let Ok(bytes) = hex::decode(alloc, digits.as_bytes()) else {
        return Ok(String::from_str(alloc, "no bytes")?);
    };
    let answer = match decode(alloc, &bytes) {
        Ok(_) => "a code",
        Err(CodeFault::Bad) => "none",
        Err(CodeFault::NoMemory) => return Err(NoMemory),
    };
    Ok(String::from_str(alloc, answer)?)
}

/// What is told of a code.
pub(crate) fn told_code(
    alloc: Global,
    code: Result<String, CodeFault>,
) -> Result<String, NoMemory> {
    match code {
        Ok(digits) => Ok(digits),
        Err(CodeFault::Bad) => Ok(String::from_str(alloc, "none")?),
        Err(CodeFault::NoMemory) => Err(NoMemory),
    }
}
