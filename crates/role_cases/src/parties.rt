// Parties that are set up for a table.
use crate::words::{ident_of, label_of, number_of, pair_of, role_of, side_of, words_of};
use change_code::{Format, Space};
use member::{Holder, PartyInMemory};
use party_state::{Edit, KeyRec, KeyStatus, LARGEST_NEXT, LinkRec, State, first_state};
use std::alloc::Global;
use x_base::{Count, KeyName};
use x_gen::Gen;
use x_mac::Pair;

/// The generator of each party.
const GENERATOR: Gen = Gen {
    key: Pair {
        left: 0x0123456789ABCDEF,
        right: 0xFEDCBA9876543210,
    },
    v: 1,
};

/// The space of each party, which is never filled.
const SPACE: Space = Space {
    format: Format::One,
    room: u64::MAX,
};

/// The words behind the kind of a line.
type Words<'a> = [&'a str; 5];

fn put_link(state: &mut State, words: Words<'_>) -> Option<()> {
    let [peer, label, side, next, pair] = words;
    let next = number_of(next)?;
    if next < 1 || LARGEST_NEXT < next {
        return None;
    }
    let link = LinkRec {
        peer: ident_of(peer)?,
        label: label_of(label)?,
        side: side_of(side)?,
        pair: pair_of(pair)?,
        next,
        ready: true,
    };
    state.edit(Edit::PutLink(link)).ok()
}

fn drop_link(state: &mut State, words: Words<'_>) -> Option<()> {
    let [peer, label, side, _, _] = words;
    let drop = Edit::DropLink {
        peer: ident_of(peer)?,
        label: label_of(label)?,
        side: side_of(side)?,
    };
    state.edit(drop).ok()
}

/// The record of a key that has ended, at a count.
fn ended_key(words: Words<'_>, count: u64) -> Option<KeyRec> {
    let [peer, originator, label, _, _] = words;
    let originator = ident_of(originator)?;
    Some(KeyRec {
        peer: ident_of(peer)?,
        name: KeyName {
            issuer: originator,
            originator,
            label: label_of(label)?,
            count: Count::of(count)?,
        },
        value: 1,
        status: KeyStatus::Ended,
    })
}

fn put_ended(state: &mut State, words: Words<'_>) -> Option<()> {
    let [_, _, _, first, number] = words;
    let first = number_of(first)?;
    for more in 0..number_of(number)? {
        let key = ended_key(words, first.checked_add(more)?)?;
        state.edit(Edit::PutKey(key)).ok()?;
    }
    Some(())
}

/// The state behind an order that sets a party up; none where it doesn't.
fn state_behind(alloc: Global, party: Option<&PartyInMemory>, line: &str) -> Option<State> {
    let [kind, first, second, third, fourth, fifth] = words_of(line);
    if kind == "party" {
        return first_state(alloc, ident_of(first)?, role_of(second)?, GENERATOR).ok();
    }
    let words = [first, second, third, fourth, fifth];
    let mut state = party?.view().copy(alloc).ok()?;
    match kind {
        "link" => put_link(&mut state, words)?,
        "unlink" => drop_link(&mut state, words)?,
        "ended" => put_ended(&mut state, words)?,
        _ => return None,
    }
    Some(state)
}

/// The party behind an order that sets it up; none where it doesn't.
pub(crate) fn set_up(
    alloc: Global,
    party: Option<&PartyInMemory>,
    line: &str,
) -> Option<PartyInMemory> {
    Some(PartyInMemory::of(state_behind(alloc, party, line)?, SPACE))
}
