// What a bank with rows of every kind shows behind an edit.
ghost use Rattle.std.specs.Prelude.{IfSome};
ghost use Rattle.party_state.specs.Ranges.{IsFitting, IsNoBegin};

use crate::parties::{
    begun, ident, label, put_answer, put_asked, put_ending, put_key, put_link, whole,
};
use crate::rows::no_party;
use case_table::Table;
use party_show::show_text;
use party_state::{Change, Edit, KeyStatus, Role, Side, State, apply};
use std::alloc::Global;
use std::str::from_utf8;
use x_base::{NoMemory, Text};

const PARTY: &[u8] = b"PARTY BANKA BANK\n";

const LINKS: &[u8] = b"LINK BANKB K1 OUT 100000000000000 READY
LINK BANKB K-2 IN 7 PENDING
";

const KEYS: &[u8] = b"KEY BANKB BANKA.BANKA.K1.7 PENDING
KEY BANKB BANKA.BANKA.K1.8 LIVE
KEY BANKB BANKB.BANKB.K-2.8 HELD
KEY BANKB BANKA.BANKA.K1.9 CLOSING
KEY BANKB CKDX.BANKA.C.10 ENDED
";

const EXCHANGES: &[u8] = b"EXCHANGE CKDX ASKED BANK-C
EXCHANGE CKTX TRANSLATING BANK-C 12
EXCHANGE BANKB KEYSENT BANKA.BANKA.K1.7
EXCHANGE BANKD ENDING BANKA.BANKA.K1.9
EXCHANGE BANKE PAIRSENT BANKA.BANKA.K1.10
";

const ANSWERS: &[u8] = b"ANSWER BANKB BANK-C 3
ANSWER BANK-C BANKB 4
";

/// The lines of each table behind each edit of `edit_of`.
const SHOWN: [[&[u8]; 4]; 10] = [
    [
        b"LINK BANKB K1 OUT 8 PENDING
LINK BANKB K-2 IN 7 PENDING
",
        KEYS,
        EXCHANGES,
        ANSWERS,
    ],
    [
        b"LINK BANKB K1 OUT 100000000000000 READY
LINK BANKB K-2 IN 7 PENDING
LINK BANKB K1 IN 1 READY
",
        KEYS,
        EXCHANGES,
        ANSWERS,
    ],
    [b"LINK BANKB K-2 IN 7 PENDING\n", KEYS, EXCHANGES, ANSWERS],
    [
        LINKS,
        b"KEY BANKB BANKA.BANKA.K1.7 PENDING
KEY BANKB BANKA.BANKA.K1.8 CLOSING
KEY BANKB BANKB.BANKB.K-2.8 HELD
KEY BANKB BANKA.BANKA.K1.9 CLOSING
KEY BANKB CKDX.BANKA.C.10 ENDED
",
        EXCHANGES,
        ANSWERS,
    ],
    [
        LINKS,
        b"KEY BANKB BANKA.BANKA.K1.7 PENDING
KEY BANKB BANKA.BANKA.K1.8 LIVE
KEY BANKB BANKB.BANKB.K-2.8 HELD
KEY BANKB BANKA.BANKA.K1.9 CLOSING
",
        EXCHANGES,
        ANSWERS,
    ],
    [
        LINKS,
        KEYS,
        b"EXCHANGE CKDX ASKED BANK-C
EXCHANGE CKTX ENDING BANKA.BANKA.K1.8
EXCHANGE BANKB KEYSENT BANKA.BANKA.K1.7
EXCHANGE BANKD ENDING BANKA.BANKA.K1.9
EXCHANGE BANKE PAIRSENT BANKA.BANKA.K1.10
",
        ANSWERS,
    ],
    [
        LINKS,
        KEYS,
        b"EXCHANGE CKDX ASKED BANK-C
EXCHANGE CKTX TRANSLATING BANK-C 12
EXCHANGE BANKB KEYSENT BANKA.BANKA.K1.7
EXCHANGE BANKD ENDING BANKA.BANKA.K1.9
EXCHANGE BANKE PAIRSENT BANKA.BANKA.K1.10
EXCHANGE BANK-C ASKED BANKD
",
        ANSWERS,
    ],
    [
        LINKS,
        KEYS,
        b"EXCHANGE CKDX ASKED BANK-C
EXCHANGE BANKB KEYSENT BANKA.BANKA.K1.7
EXCHANGE BANKD ENDING BANKA.BANKA.K1.9
EXCHANGE BANKE PAIRSENT BANKA.BANKA.K1.10
",
        ANSWERS,
    ],
    [
        LINKS,
        KEYS,
        EXCHANGES,
        b"ANSWER BANKB BANK-C 5
ANSWER BANK-C BANKB 4
",
    ],
    [LINKS, KEYS, EXCHANGES, ANSWERS],
];

fn drop_link() -> Option<Edit>
    ensures fitting { IfSome result IsFitting }
    ensures goes_on { IfSome result IsNoBegin }
{
    let peer = ident(b"BANKB")?;
    let label = label(b"K1")?;
    let side = Side::Sends;
    Some(Edit::DropLink { peer, label, side })
}

fn drop_exchange() -> Option<Edit>
    ensures fitting { IfSome result IsFitting }
    ensures goes_on { IfSome result IsNoBegin }
{
    let peer = ident(b"CKTX")?;
    Some(Edit::DropExchange { peer })
}

/// The edit of a row.
fn edit_of(alloc: Global, row: usize) -> Option<Edit>
    ensures fitting { IfSome result IsFitting }
    ensures goes_on { IfSome result IsNoBegin }
{
    match row {
        0 => put_link(b"K1", Side::Sends, 8, false),
        1 => put_link(b"K1", Side::Takes, 1, true),
        2 => drop_link(),
        3 => put_key(b"BANKA.BANKA.K1.8", KeyStatus::Closing),
        4 => Some(Edit::DropEnded),
        5 => put_ending(alloc, b"CKTX", b"BANKA.BANKA.K1.8"),
        6 => put_asked(alloc, b"BANK-C", b"BANKD"),
        7 => drop_exchange(),
        8 => put_answer(b"BANKB", b"BANK-C", 5),
        _ => Some(Edit::SetGen(6)),
    }
}

/// The state behind a change of one edit.
fn after(alloc: Global, state: &State, edit: Edit) -> Result<State, NoMemory>
    requires fitting { IsFitting edit }
    requires goes_on { IsNoBegin edit }
{
    let mut change = Change::new(alloc);
    change.push(edit)?;
    apply(alloc, state, &change)
}

fn joined(alloc: Global, lines: &[&[u8]]) -> Result<Text, NoMemory> {
    let mut text = Text::new(alloc);
    for piece in lines {
        text.push(*piece)?;
    }
    Ok(text)
}

/// A row of a state and the lines in which it is wanted to be shown.
fn shown_row(
    alloc: Global,
    table: &mut Table,
    state: &State,
    lines: &[&[u8]],
) -> Result<(), NoMemory> {
    let text = show_text(alloc, state)?;
    let lines = joined(alloc, lines)?;
    let given = from_utf8(text.bytes()).unwrap_or("no text");
    let wanted = from_utf8(lines.bytes()).unwrap_or("no lines");
    table.text_row("show_text", given, wanted)
}

/// A row of the state behind the edit of a row.
fn edit_row(alloc: Global, table: &mut Table, state: &State, row: usize) -> Result<(), NoMemory> {
    let Some([links, keys, exchanges, answers]) = SHOWN.get(row) else {
        return no_party(table);
    };
    let Some(edit) = edit_of(alloc, row) else {
        return no_party(table);
    };
    let next = after(alloc, state, edit)?;
    let lines = [PARTY, *links, *keys, *exchanges, *answers];
    shown_row(alloc, table, &next, &lines)
}

/// The bank behind each edit.
pub(crate) fn edits(alloc: Global, table: &mut Table) -> Result<(), NoMemory> {
    let Some(state) = whole(alloc) else {
        return no_party(table);
    };
    for row in 0..SHOWN.len() {
        edit_row(alloc, table, &state, row)?;
    }
    Ok(())
}

fn begun_row(
    alloc: Global,
    table: &mut Table,
    own: &[u8],
    role: Role,
    line: &[u8],
) -> Result<(), NoMemory> {
    match begun(alloc, own, role) {
        Some(state) => shown_row(alloc, table, &state, &[line]),
        None => no_party(table),
    }
}

/// Centres that have begun.
pub(crate) fn centres(alloc: Global, table: &mut Table) -> Result<(), NoMemory> {
    let line = b"PARTY CKDX DISTRIBUTION\n";
    begun_row(alloc, table, b"CKDX", Role::Distribution, line)?;
    let line = b"PARTY CKTX TRANSLATION\n";
    begun_row(alloc, table, b"CKTX", Role::Translation, line)
}
