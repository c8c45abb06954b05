// The bodies of a ledger's journal, written and read.
ghost use Rattle.std.specs.Prelude.{◌≡◌, ◌∷◌, ◌++◌, [], List, None, option_map, IfSome, IfOk, OnOk};
ghost use Rattle.change_code.specs.Code.{two};
ghost use Rattle.key_journal.specs.Journal.{IsBody};
ghost use Rattle.pay_auth.specs.declared.entry.Entry.{Entry as TheEntry};
ghost use Rattle.pay_auth.specs.Bodies.{entry_code, entries_code, body_of, IsLedgerBody};
ghost use Rattle.pay_auth.specs.Forms.{entry_form, IsEntriesRead};
ghost use Rattle.change_code.specs.Reading.{IsPieceRead};

use crate::entries::Entries;
use crate::entry::{Entry, law_entry};
use change_code::{EditCode, Reader, put_half_word, put_ident, put_name, put_side, put_word};
use std::alloc::Global;
use x_base::{NoMemory, Text};

/// The byte with which each body begins.
const LEDGER: u8 = b'L';

/// Four bytes for a length, the kind of a body, and how many entries come.
fn head_behind(alloc: Global, entries: u16) -> Result<Text, NoMemory>
    ensures { IfOk result (λ t. t ≡ 0 ∷ 0 ∷ 0 ∷ 0 ∷ 76 ∷ two entries) }
{
    let mut code = EditCode::new();
    code.put(&[0, 0, 0, 0, LEDGER]);
    put_half_word(&mut code, entries);
    let mut out = Text::new(alloc);
    out.push(code.bytes())?;
    Ok(out)
}

fn put_entry(out: &mut Text, entry: &Entry) -> Result<(), NoMemory>
    ensures { OnOk result (out.new ≡ out.old ++ entry_code entry.now) }
{
    let mut code = EditCode::new();
    put_ident(&mut code, &entry.peer);
    put_name(&mut code, &entry.name);
    put_side(&mut code, entry.side);
    put_word(&mut code, entry.last.value());
    out.push(code.bytes())
}

/// Four bytes for a length, and the body that puts one entry.
#[tactic(auto, using(crate::proofs::Sizing::one_small))]
pub(crate) fn entry_behind(alloc: Global, entry: &Entry) -> Result<Text, NoMemory>
    ensures text { IfOk result (λ t. t ≡ 0 ∷ 0 ∷ 0 ∷ 0 ∷ body_of (entry.now ∷ [])) }
    ensures body { IfOk result (λ _. IsLedgerBody (body_of (entry.now ∷ [])) (entry.now ∷ [])) }
    ensures small { IfOk result (λ _. IsBody (body_of (entry.now ∷ []))) }
{
    law_entry(entry);
    let mut out = head_behind(alloc, 1)?;
    put_entry(&mut out, entry)?;
    Ok(out)
}

fn put_entries(out: &mut Text, entries: &Entries) -> Result<(), NoMemory>
    ensures { OnOk result (out.new ≡ out.old ++ entries_code entries.now) }
{
    for i in 0..entries.len() {
        match entries.at(i) {
            Some(entry) => put_entry(out, entry)?,
            None => unreachable!(),
        }
    }
    Ok(())
}

/// Four bytes for a length, and the body that puts all entries.
#[tactic(auto, using(crate::proofs::Sizing::body_small))]
pub(crate) fn entries_behind(alloc: Global, entries: &Entries) -> Result<Text, NoMemory>
    ensures text { IfOk result (λ t. t ≡ 0 ∷ 0 ∷ 0 ∷ 0 ∷ body_of entries.now) }
    ensures body { IfOk result (λ _. IsLedgerBody (body_of entries.now) entries.now) }
    ensures small { IfOk result (λ _. IsBody (body_of entries.now)) }
{
    entries.law_entries();
    let mut out = head_behind(alloc, entries.len() as u16)?;
    put_entries(&mut out, entries)?;
    Ok(out)
}

fn read_entry(reader: &mut Reader<'_>) -> Option<Entry>
    ensures { IsPieceRead entry_form reader.old reader.new result }
{
    let peer = reader.ident()?;
    let name = reader.key_name()?;
    let side = reader.side()?;
    let last = reader.count()?;
    Some(Entry {
        peer,
        name,
        side,
        last,
    })
}

/// So many entries.
fn read_entries(
    alloc: Global,
    reader: &mut Reader<'_>,
    n: u16,
) -> Result<Option<Vec<Entry>>, NoMemory>
    ensures { IfOk result (λ entries. IsEntriesRead n reader.old reader.new (option_map (λ v. v.items) entries)) }
{
    let mut entries = Vec::with_capacity(alloc, usize::from(n).min(reader.len()))?;
    'reading: for _ in 0..n {
        let Some(entry) = read_entry(reader) else {
            return Ok(None);
        };
        match entries.push(entry) {
            Ok(()) => {}
            Err(_) => return Err(NoMemory),
        }
    }
    Ok(Some(entries))
}

/// The entries behind the first byte of a body, and none where the bytes aren't the rest of a body.
fn read_rest(alloc: Global, reader: &mut Reader<'_>) -> Result<Option<Vec<Entry>>, NoMemory>
    ensures yes { IfOk result (λ entries. IfSome entries (λ v. IsLedgerBody (76 ∷ reader.old) v.items)) }
    ensures no { IfOk result (λ entries. entries ≡ None → (es : List TheEntry) → IsLedgerBody (76 ∷ reader.old) es → ⊥) }
{
    let Some(n) = reader.half_word() else {
        return Ok(None);
    };
    let Some(entries) = read_entries(alloc, reader, n)? else {
        return Ok(None);
    };
    if reader.is_empty() {
        Ok(Some(entries))
    } else {
        Ok(None)
    }
}

/// The entries of a body, and none where the bytes are no body.
pub(crate) fn decode_body(alloc: Global, body: &[u8]) -> Result<Option<Vec<Entry>>, NoMemory>
    ensures yes { IfOk result (λ entries. IfSome entries (λ v. IsLedgerBody body.now v.items)) }
    ensures no { IfOk result (λ entries. entries ≡ None → (es : List TheEntry) → IsLedgerBody body.now es → ⊥) }
{
    let mut reader = Reader::new(body);
    match reader.byte() {
        Some(LEDGER) => read_rest(alloc, &mut reader),
        _ => Ok(None),
    }
}
