// Changes that are copied and prepared, and full names.
ghost use Rattle.party_state.specs.Ranges.{AreFitting, HasNoBegin};

use crate::parties::{begun, ident, name};
use crate::rows::{add_rows, no_party};
use case_table::{Call, Table};
use party_state::{Change, Edit, Exchange, KeyRec, KeyStatus, Kind, Role};
use std::alloc::Global;
use x_base::{Ident, KeyName, NoMemory, Text};

fn add_edits(alloc: Global, change: &mut Change, peer: Ident) -> Result<(), NoMemory> {
    change.push(Edit::DropEnded)?;
    let kind = Kind::Asked { ultimate: peer };
    let mut text = Text::new(alloc);
    text.push(b"CSM(")?;
    change.push(Edit::PutExchange(Exchange { peer, kind, text }))
}

/// A copy of a change of two edits.
fn two_edits(alloc: Global, peer: Ident) -> Result<Change, NoMemory> {
    let mut change = Change::new(alloc);
    add_edits(alloc, &mut change, peer)?;
    change.copy(alloc)
}

fn is_drop_ended(edit: Option<&Edit>) -> bool {
    matches!(edit, Some(Edit::DropEnded))
}

/// Whether it is an edit that puts an exchange with this text.
fn puts_text(edit: Option<&Edit>, text: &[u8]) -> bool {
    match edit {
        Some(Edit::PutExchange(exchange)) => exchange.text.bytes() == text,
        _ => false,
    }
}

fn change_calls(change: &Change) -> [Call; 3] {
    let first = is_drop_ended(change.edit_at(0));
    let second = puts_text(change.edit_at(1), b"CSM(");
    [
        Call::number("len", change.len() as u64, 2),
        Call::answer("edit_at 0", first, true),
        Call::answer("edit_at 1", second, true),
    ]
}

fn copy_rows(alloc: Global, table: &mut Table, peer: Ident) -> Result<(), NoMemory> {
    let empty = Change::new(alloc).is_empty();
    table.row(&[Call::answer("is_empty", empty, true)])?;
    let copy = two_edits(alloc, peer)?;
    add_rows(table, &change_calls(&copy))?;
    let edits = copy.into_edits().len();
    table.row(&[Call::number("into_edits", edits as u64, 2)])
}

/// The recipient in the full name of a key that a party shares with a peer.
fn recipient(peer: &Ident, name: &KeyName, own: &Ident) -> Ident {
    let key = KeyRec {
        peer: *peer,
        name: *name,
        value: 5,
        status: KeyStatus::Live,
    };
    key.full_name(own).recipient
}

/// Whether the full name of a key has the recipient's name, at its originator and at the recipient. ABAB, which gave the key
/// its name, and ABABABAB, the recipient, expand alike.
fn recipient_agrees() -> Option<(bool, bool)> {
    let name = name(b"ABAB.ABAB.K1.7")?;
    let once = ident(b"ABAB")?;
    let twice = ident(b"ABABABAB")?;
    let at_originator = recipient(&twice, &name, &once).bytes() == twice.bytes();
    let at_recipient = recipient(&once, &name, &twice).bytes() == twice.bytes();
    Some((at_originator, at_recipient))
}

/// The seed behind a change that is done, or given up.
fn seed(alloc: Global, change: Change, is_done: bool) -> Option<u64>
    requires fitting { AreFitting change }
    requires goes_on { HasNoBegin change }
{
    let prepared = begun(alloc, b"BANKA", Role::Bank)?.prepare(change).ok()?;
    let state = if is_done {
        prepared.finish()
    } else {
        prepared.cancel()
    };
    Some(state.generator().v)
}

fn seed_rows(alloc: Global, table: &mut Table) -> Result<(), NoMemory> {
    let mut change = Change::new(alloc);
    change.push(Edit::SetGen(5))?;
    change.push(Edit::SetGen(6))?;
    let copy = change.copy(alloc)?;
    let calls = [
        Call::option("cancel", seed(alloc, copy, false), Some(1)),
        Call::option("finish", seed(alloc, change, true), Some(6)),
    ];
    add_rows(table, &calls)
}

/// Changes that are copied, done or given up, and full names.
pub(crate) fn copies(alloc: Global, table: &mut Table) -> Result<(), NoMemory> {
    match ident(b"BANKB") {
        Some(peer) => copy_rows(alloc, table, peer)?,
        None => no_party(table)?,
    }
    match recipient_agrees() {
        Some((at_originator, at_recipient)) => add_rows(
            table,
            &[
                Call::answer("recipient at the originator", at_originator, true),
                Call::answer("recipient at itself", at_recipient, true),
            ],
        )?,
        None => no_party(table)?,
    }
    seed_rows(alloc, table)
}
