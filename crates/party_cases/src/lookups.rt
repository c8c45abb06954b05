// What is found in a party's tables.
use crate::parties::{PAIR, add, begun, ident, label, name, put_link, whole};
use crate::rows::{add_rows, no_party};
use case_table::{Call, Table};
use party_state::{Answer, KeyRec, KeyStatus, LinkRec, Role, Side, State};
use std::alloc::Global;
use x_base::{Ident, KeyName, Label, NoMemory};

/// The next count of a link, where one is found.
fn next(link: Option<&LinkRec>) -> Option<u64> {
    Some(link?.next)
}

/// What is looked for in the tables of the bank with rows of every kind.
#[derive(Clone, Copy)]
struct Wanted {
    peer: Ident,
    own: Ident,
    label: Label,
    ending: Ident,
    third: Ident,
    live: KeyName,
}

fn names_wanted() -> Option<Wanted> {
    Some(Wanted {
        peer: ident(b"BANKB")?,
        own: ident(b"BANKA")?,
        label: label(b"K-2")?,
        ending: ident(b"BANKD")?,
        third: ident(b"BANK-C")?,
        live: name(b"BANKA.BANKA.K1.8")?,
    })
}

fn link_calls(state: &State, wanted: &Wanted) -> [Call; 8] {
    let taking = state.link(&wanted.peer, &wanted.label, Side::Takes);
    let sending = state.link(&wanted.peer, &wanted.label, Side::Sends);
    [
        Call::option("link", next(taking), Some(7)),
        Call::option("link of the other side", next(sending), None),
        Call::number("link_count", state.link_count() as u64, 2),
        Call::option("link_at 1", next(state.link_at(1)), Some(7)),
        Call::option("link_at 2", next(state.link_at(2)), None),
        Call::answer("knows the peer", state.knows(&wanted.peer), true),
        Call::answer("knows itself", state.knows(&wanted.own), false),
        Call::answer("has_pair", state.has_pair(PAIR), true),
    ]
}

/// Whether there is a key, and it has this status.
fn has_status(key: Option<&KeyRec>, status: KeyStatus) -> bool {
    match key {
        Some(key) => key.status == status,
        None => false,
    }
}

fn key_calls(state: &State, wanted: &Wanted) -> [Call; 4] {
    let live = state.key(&wanted.peer, &wanted.live);
    [
        Call::answer("key", has_status(live, KeyStatus::Live), true),
        Call::number("key_count", state.key_count() as u64, 5),
        Call::answer(
            "key_at 2",
            has_status(state.key_at(2), KeyStatus::Held),
            true,
        ),
        Call::answer("role", state.role() == Role::Bank, true),
    ]
}

fn exchange_calls(state: &State, wanted: &Wanted) -> [Call; 4] {
    let ending = state.exchange(&wanted.ending).is_some();
    [
        Call::answer("exchange", ending, true),
        Call::number("exchange_count", state.exchange_count() as u64, 5),
        Call::answer("exchange_at 4", state.exchange_at(4).is_some(), true),
        Call::answer("exchange_at 5", state.exchange_at(5).is_some(), false),
    ]
}

/// The count of an answer, where one is found.
fn cta(answer: Option<&Answer>) -> Option<u64> {
    Some(answer?.cta.value())
}

fn answer_calls(state: &State, wanted: &Wanted) -> [Call; 3] {
    let last = state.answer(&wanted.third, &wanted.peer);
    [
        Call::option("answer", cta(last), Some(4)),
        Call::number("answer_count", state.answer_count() as u64, 2),
        Call::option("answer_at 0", cta(state.answer_at(0)), Some(3)),
    ]
}

/// A link with a centre and one that isn't ready, before the one that can be used.
fn add_three_links(state: &mut State) -> Option<()> {
    add(state, put_link(b"C", Side::Sends, 1, true))?;
    add(state, put_link(b"K1", Side::Sends, 2, false))?;
    add(state, put_link(b"K2", Side::Sends, 3, true))
}

/// Whether the name expands as the party's own does, or as another one of a peer; none where it is no identity.
fn aliases(state: &State, name: &[u8]) -> Option<u64> {
    Some(state.aliases(&ident(name)?).into())
}

/// The first link, and aliases: an identity of four bytes, doubled, expands as before.
fn search_calls(state: &State, peer: &Ident) -> [Call; 3] {
    let first = state.first_link(peer, Side::Sends);
    [
        Call::option("first_link", next(first), Some(3)),
        Call::option(
            "aliases of the doubled name",
            aliases(state, b"ABABABAB"),
            Some(1),
        ),
        Call::option("aliases of another name", aliases(state, b"ABBA"), Some(0)),
    ]
}

fn found_rows(table: &mut Table, state: &State, wanted: &Wanted) -> Result<(), NoMemory> {
    add_rows(table, &link_calls(state, wanted))?;
    add_rows(table, &key_calls(state, wanted))?;
    add_rows(table, &exchange_calls(state, wanted))?;
    add_rows(table, &answer_calls(state, wanted))
}

fn search_rows(alloc: Global, table: &mut Table, peer: &Ident) -> Result<(), NoMemory> {
    let Some(mut state) = begun(alloc, b"ABAB", Role::Bank) else {
        return no_party(table);
    };
    match add_three_links(&mut state) {
        Some(()) => add_rows(table, &search_calls(&state, peer)),
        None => no_party(table),
    }
}

/// Rows that are found.
pub(crate) fn lookups(alloc: Global, table: &mut Table) -> Result<(), NoMemory> {
    let Some(wanted) = names_wanted() else {
        return no_party(table);
    };
    match whole(alloc) {
        Some(state) => found_rows(table, &state, &wanted)?,
        None => no_party(table)?,
    }
    search_rows(alloc, table, &wanted.peer)
}
