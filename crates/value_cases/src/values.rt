// Words that stand for numbers, names and keys.
use std::alloc::Global;
use x_base::NoMemory;
use x_values::{
    read_count, read_decimal_number, read_ident, read_key, read_key_name, read_label, read_pair,
    read_plain_number, read_plain_number_within,
};

/// What a word stands for as a number, as one without a leading zero, and as such a one from 1 to 10,000.
pub(crate) fn number_of(alloc: Global, word: &[u8]) -> Result<String, NoMemory> {
    let any = read_decimal_number(word);
    let plain = read_plain_number(word);
    let within = read_plain_number_within(1, 10_000, word);
    Ok(format!(in alloc; "{any:?} {plain:?} {within:?}")?)
}

/// What a word stands for that is read as the first word of the row says; of names whether they are any.
pub(crate) fn value_of(alloc: Global, asked: &str) -> Result<String, NoMemory> {
    let (reader, word) = asked.split_once(" ").unwrap_or((asked, ""));
    let word = word.as_bytes();
    let given = match reader {
        "key" => format!(in alloc; "{:?}", read_key(word)),
        "pair" => format!(in alloc; "{:?}", read_pair(word)),
        "ident" => format!(in alloc; "{}", read_ident(word).is_some()),
        "label" => format!(in alloc; "{}", read_label(word).is_some()),
        "count" => format!(in alloc; "{:?}", read_count(word)),
        _ => match read_key_name(word) {
            Some(name) => format!(in alloc; "{}", name.count.value()),
            None => format!(in alloc; "none"),
        },
    };
    Ok(given?)
}
