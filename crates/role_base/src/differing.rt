// Whether an edit makes a difference to a state.
ghost use Rattle.std.specs.Prelude.{◌≡◌, slice_get};
ghost use Rattle.party_tables.specs.Statuses.{is_ended};
ghost use Rattle.party_state.specs.State.{link_with, record_with, answer_with};
ghost use Rattle.party_tables.specs.Keys.{link_key, record_key, answer_key};
ghost use Rattle.role_base.specs.Differing.{differs, ended_in, has_answer, has_ended, has_link, has_record, same_status};

use party_state::{Answer, Edit, KeyRec, KeyStatus, LinkRec, State};

/// Whether that link stands with these contents.
fn has_link(state: &State, link: &LinkRec) -> bool
    ensures { result ≡ has_link (link_with (link_key link.now) state.now) link.now }
{
    match state.link(&link.peer, &link.label, link.side) {
        Some(old) => {
            old.pair.left == link.pair.left
                && old.pair.right == link.pair.right
                && old.next == link.next
                && (if old.ready { link.ready } else { !link.ready })
        }
        None => false,
    }
}

fn same_status(one: KeyStatus, other: KeyStatus) -> bool
    ensures { result ≡ same_status one other }
{
    one == other
}

/// Whether that record stands with these contents.
fn has_record(state: &State, key: &KeyRec) -> bool
    ensures { result ≡ has_record (record_with (record_key key.now) state.now) key.now }
{
    match state.key(&key.peer, &key.name) {
        Some(old) => old.value == key.value && same_status(old.status, key.status),
        None => false,
    }
}

/// Whether that answer stands with these contents.
fn has_answer(state: &State, answer: &Answer) -> bool
    ensures { result ≡ has_answer (answer_with (answer_key answer.now) state.now) answer.now }
{
    match state.answer(&answer.requester, &answer.ultimate) {
        Some(old) => old.cta == answer.cta && old.value == answer.value,
        None => false,
    }
}

fn is_ended(status: KeyStatus) -> bool
    ensures { result ≡ is_ended status }
{
    matches!(status, KeyStatus::Ended)
}

/// Whether record `i` is that of an ended key.
fn is_ended_at(state: &State, i: usize) -> bool
    ensures { result ≡ ended_in (slice_get state.now.keys i) }
{
    match state.key_at(i) {
        Some(key) => is_ended(key.status),
        None => false,
    }
}

/// Whether the record of an ended key stands.
#[tactic(auto, using(crate::proofs::Filtering::ended_found, crate::proofs::Filtering::ended_more))]
fn has_ended(state: &State) -> bool
    ensures { result ≡ has_ended state.now }
{
    for i in 0..state.key_count() {
        if is_ended_at(state, i) {
            return true;
        }
    }
    false
}

/// Whether the edit makes a difference.
pub fn differs(state: &State, edit: &Edit) -> bool
    ensures { result ≡ differs state.now edit.now }
{
    match edit {
        Edit::PutLink(link) => !has_link(state, link),
        Edit::DropLink { peer, label, side } => state.link(peer, label, *side).is_some(),
        Edit::PutKey(key) => !has_record(state, key),
        Edit::DropEnded => has_ended(state),
        Edit::DropExchange { peer } => state.exchange(peer).is_some(),
        Edit::PutAnswer(answer) => !has_answer(state, answer),
        Edit::SetGen(v) => *v != state.generator().v,
        Edit::Begin { .. } | Edit::PutExchange(_) => true,
    }
}
