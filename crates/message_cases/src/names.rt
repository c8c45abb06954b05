// Identities, names of keys, counts and words.
use crate::rows::add_rows;
use crate::texts::text_of;
use case_table::{Call, Table};
use std::alloc::Global;
use x_base::{Count, Ident, KeyName, LIMIT, Label, NoMemory, Verdict, Words};

/// An identity, and the halves of what it expands to.
const IDENTITIES: [(&[u8], u64, u64); 9] = [
    (b"BANKA", 0x42414E4B4142414E, 0x4B4142414E4B4142),
    (b"BANKB", 0x42414E4B4242414E, 0x4B4242414E4B4242),
    (b"CKDX", 0x434B4458434B4458, 0x434B4458434B4458),
    (b"AB-1", 0x41422D3141422D31, 0x41422D3141422D31),
    (b"ABCDEFGHIJKLMNOP", 0x4142434445464748, 0x494A4B4C4D4E4F50),
    (b"ABAB", 0x4142414241424142, 0x4142414241424142),
    (b"ABABABAB", 0x4142414241424142, 0x4142414241424142),
    (b"0000", 0x3030303030303030, 0x3030303030303030),
    (b"----", 0x2D2D2D2D2D2D2D2D, 0x2D2D2D2D2D2D2D2D),
];

fn identity_row(table: &mut Table, bytes: &[u8], left: u64, right: u64) -> Result<(), NoMemory> {
    let Ok(ident) = Ident::read(bytes) else {
        return table.row(&[Call::answer("an identity", false, true)]);
    };
    let halves = ident.expand();
    table.row(&[
        Call::number("left half", halves.0, left),
        Call::number("right half", halves.1, right),
    ])
}

/// The expansion of identities.
pub(crate) fn identities(table: &mut Table) -> Result<(), NoMemory> {
    for (bytes, left, right) in IDENTITIES {
        identity_row(table, bytes, left, right)?;
    }
    Ok(())
}

fn text_rows(alloc: Global, table: &mut Table, name: &KeyName) -> Result<(), NoMemory> {
    let mut text = text_of(alloc, b"IDD/")?;
    name.write(&mut text)?;
    let written = text.bytes() == b"IDD/CKDX.BANKA.C.12".as_slice();
    let copied = text.copy(alloc)? == text;
    let calls = [
        Call::answer("write", written, true),
        Call::answer("copy", copied, true),
    ];
    add_rows(table, &calls)
}

fn name_rows(alloc: Global, table: &mut Table, name: &KeyName) -> Result<(), NoMemory> {
    let label = Label::read(b"C").ok() == Some(name.label);
    let calls = [
        Call::answer("label of the name", label, true),
        Call::number("count of the name", name.count.value(), 12),
    ];
    add_rows(table, &calls)?;
    text_rows(alloc, table, name)
}

fn value(count: Option<Count>) -> Option<u64> {
    Some(count?.value())
}

fn number_calls() -> [Call; 3] {
    let last = Count::read(b"99999999999999").ok();
    let number = Verdict::CountLow(2).number();
    [
        Call::option("the last count", value(last), Some(LIMIT)),
        Call::option("Count::of", value(Count::of(12)), Some(12)),
        Call::number("number of a verdict", number.into(), 30),
    ]
}

fn add_words(words: &mut Words) -> Result<(), NoMemory> {
    words.push("load")?;
    words.push("--peer")
}

fn word_rows(alloc: Global, table: &mut Table) -> Result<(), NoMemory> {
    let mut words = Words::new(alloc);
    add_words(&mut words)?;
    let second = words.word(1) == Some("--peer");
    let calls = [
        Call::answer("word 1", second, true),
        Call::number("words", words.texts().len() as u64, 2),
    ];
    add_rows(table, &calls)
}

/// The name of a key, counts, a verdict and words.
pub(crate) fn names(alloc: Global, table: &mut Table) -> Result<(), NoMemory> {
    match KeyName::read(b"CKDX.BANKA.C.00000000000012") {
        Ok(name) => name_rows(alloc, table, &name)?,
        Err(_) => table.row(&[Call::answer("the name is read", false, true)])?,
    }
    add_rows(table, &number_calls())?;
    word_rows(alloc, table)
}
