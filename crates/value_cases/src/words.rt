// Numbers in the words of a row.
use hex::FromHex;
use std::alloc::Global;
use x_base::NoMemory;

/// The number of a word of 16 hexadecimal digits, and 0 of another one.
fn number(word: &str) -> u64 {
    match <[u8; 8] as FromHex>::from_hex(word) {
        Ok(bytes) => u64::from_be_bytes(bytes),
        Err(_) => 0,
    }
}

/// The numbers of the first four words.
pub(crate) fn numbers(asked: &str) -> [u64; 4] {
    let mut numbers = [0; 4];
    for (place, word) in numbers.iter_mut().zip(asked.split(' ')) {
        *place = number(word);
    }
    numbers
}

/// The numbers in words, a blank between two.
pub(crate) fn told(alloc: Global, numbers: &[u64]) -> Result<String, NoMemory> {
    let mut told = String::new(alloc);
    for number in numbers {
        if !told.is_empty() {
            told.push_str(" ")?;
        }
        let word = format!(in alloc; "{number:016X}")?;
        told.push_str(word.as_str())?;
    }
    Ok(told)
}
