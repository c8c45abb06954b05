// How much room a code wants.
use party_state::{Change, Edit, LONGEST_TEXT, State};

/// What stands in front of the edits, their error detection code, and one byte behind it.
const HEAD_AND_END: usize = 8;

/// As many bytes as the code of a key that is put has at most, or a few more.
const ROOM_OF_KEY: usize = 90;

/// The same of an exchange without its text, and with one.
const ROOM_OF_SHORT_EXCHANGE: usize = 120;

const ROOM_OF_EXCHANGE: usize = ROOM_OF_SHORT_EXCHANGE + LONGEST_TEXT;

/// The same of an edit that is neither a key nor an exchange that is put.
const ROOM_OF_OTHER: usize = 64;

/// The same of an edit.
fn room_of(edit: Option<&Edit>) -> usize {
    match edit {
        None => 0,
        Some(Edit::PutExchange(exchange)) => {
            exchange
                .text
                .bytes()
                .len()
                .saturating_add(ROOM_OF_SHORT_EXCHANGE)
        }
        Some(Edit::PutKey(_)) => ROOM_OF_KEY,
        Some(_) => ROOM_OF_OTHER,
    }
}

/// The room for so many bytes and a change behind them, so that its text grows no more.
pub(crate) fn room_behind(front: usize, change: &Change) -> usize {
    let mut room = front.saturating_add(HEAD_AND_END);
    for i in 0..change.len() {
        room = room.saturating_add(room_of(change.edit_at(i)));
    }
    room
}

/// The room for so many bytes and the code of a party behind them.
pub(crate) fn room_behind_whole(front: usize, state: &State) -> usize {
    let others = state
        .link_count()
        .saturating_add(state.answer_count())
        .saturating_add(1);
    front
        .saturating_add(HEAD_AND_END)
        .saturating_add(others.saturating_mul(ROOM_OF_OTHER))
        .saturating_add(state.key_count().saturating_mul(ROOM_OF_KEY))
        .saturating_add(state.exchange_count().saturating_mul(ROOM_OF_EXCHANGE))
}
