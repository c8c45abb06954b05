// A new data key under a link: drawn, encrypted at the link's next count, kept as pending, and sent.
ghost use Rattle.std.specs.Prelude.{◌≡◌, ◌+◌, ◌≤◌, true, length, IfOk};
ghost use Rattle.x_base.specs.Count.{IsCount};
ghost use Rattle.party_tables.specs.declared.key.KeyStatus.TheVariants.{Pending};
ghost use Rattle.party_state.specs.Verdicts.{all_refuse};
ghost use Rattle.party_tables.specs.Ranges.{longest_text};
ghost use Rattle.role_base.specs.Replies.{IsWritten};
ghost use Rattle.role_base.specs.Deciding.{Decides, AcceptsWith};
ghost use Rattle.role_base.specs.Standing.{LinkStands};
ghost use Rattle.role_base.specs.Conditions.{has_key_room};
ghost use Rattle.role_base.specs.Sending.{next_name, data_key_message, data_key_reply, sending_tests, sent_edits, sending, sending_drawn};

use crate::conditions::{has_count, has_key_room};
use crate::decisions::{accept, refusal};
use crate::edits::list_of;
use crate::names::{direct_name, no_extras};
use crate::texts::Written;
use crate::verdicts::{is_accept, verdict_after};
use csm_grammar::{Ksm, KsmBody, Message};
use party_state::{Decision, Edit, Exchange, KeyRec, KeyStatus, Kind, LinkRec, State, Via};
use std::alloc::Global;
use x_base::{Count, FullName, KeyName, NoMemory, Verdict};
use x_gen::Gen;
use x_seal::wrap;

/// The name of the key that goes next under a link, at its next count.
pub fn next_name(state: &State, link: &LinkRec, count: Count) -> KeyName
    requires { count ≡ link.now.next }
    ensures { result ≡ next_name state.now link.now }
{
    direct_name(state.own(), link.label, count)
}

/// The key service message with this key.
fn data_key_message(state: &State, link: &LinkRec, count: Count, key: u64) -> Message
    requires { count ≡ link.now.next }
    ensures { result ≡ data_key_message state.now link.now key }
{
    Message::Ksm(Ksm {
        receiver: link.peer,
        originator: state.own(),
        body: KsmBody::Direct {
            idk2: Some(link.label),
            new: None,
            kd: wrap(link.pair, count, key),
            ctp: count,
        },
        extras: no_extras(),
    })
}

/// The text with this key.
fn data_key_text(
    alloc: Global,
    state: &State,
    link: &LinkRec,
    count: Count,
    key: u64,
) -> Result<Written, NoMemory>
    requires { count ≡ link.now.next }
    ensures written { IfOk result (λ w. IsWritten w (data_key_reply state.now link.now key)) }
    ensures short { IfOk result (λ w. length w.text ≤ longest_text) }
{
    let under = FullName {
        name: next_name(state, link, count),
        recipient: link.peer,
    };
    let message = data_key_message(state, link, count, key);
    Written::coded(alloc, message, under, key)
}

/// The link behind its next count.
pub fn link_after_use(link: &LinkRec, count: Count) -> LinkRec
    requires { count ≡ link.now.next }
    ensures used { result ≡ record link.now { next = link.now.next + 1 } }
    ensures count { IsCount link.now.next }
{
    LinkRec {
        next: count.value() + 1,
        ..*link
    }
}

/// The record of a key that is sent.
pub fn pending(link: &LinkRec, name: KeyName, key: u64) -> KeyRec
    ensures { result ≡ record { peer = link.now.peer; name = name; value = key; status = Pending } }
{
    KeyRec {
        peer: link.peer,
        name,
        value: key,
        status: KeyStatus::Pending,
    }
}

/// A key that was drawn is sent.
fn send_key(
    alloc: Global,
    state: &State,
    link: &LinkRec,
    count: Count,
    key: u64,
    after: &Gen,
) -> Result<Decision, NoMemory>
    requires at_next { count ≡ link.now.next }
    requires stands { LinkStands state.now link.now }
    requires room { has_key_room state.now (record { peer = link.now.peer; name = next_name state.now link.now }) ≡ true }
    ensures { AcceptsWith state.now (sent_edits state.now link.now key after.now.v) (Some (data_key_reply state.now link.now key)) result }
{
    let written = data_key_text(alloc, state, link, count, key)?;
    let name = next_name(state, link, count);
    let label = link.label;
    let exchange = Exchange {
        peer: link.peer,
        kind: Kind::KeySent {
            name,
            via: Via::Direct { label, new: None },
        },
        text: written.text.copy(alloc)?,
    };
    let edits = [
        Edit::SetGen(after.v),
        Edit::PutLink(link_after_use(link, count)),
        Edit::PutKey(pending(link, name, key)),
        Edit::PutExchange(exchange),
    ];
    accept(alloc, state, list_of(alloc, edits)?, Some(written))
}

fn sending_tests(
    state: &State,
    link: &LinkRec,
    count: Count,
    drawn: &Option<(u64, Gen)>,
) -> [(bool, Verdict); 3]
    requires { count ≡ link.now.next }
    ensures { result ≡ sending_tests state.now link.now drawn.now }
{
    let room = has_key_room(state, &link.peer, &next_name(state, link, count));
    [
        (has_count(link), Verdict::CountSpent),
        (room, Verdict::KeysFull),
        (drawn.is_some(), Verdict::WeakDraws),
    ]
}

/// What is decided behind the tests that come before, with what is drawn.
#[tactic(auto, using(crate::proofs::Failing::drawn_room))]
fn send_drawn(
    alloc: Global,
    state: &State,
    front: &[(bool, Verdict)],
    link: &LinkRec,
    count: Count,
    drawn: Option<(u64, Gen)>,
) -> Result<Decision, NoMemory>
    requires at_next { count ≡ link.now.next }
    requires stands { LinkStands state.now link.now }
    requires refuse { all_refuse front.now ≡ true }
    ensures { Decides state.now (sending_drawn state.now front.now link.now drawn) result }
{
    let verdict = verdict_after(front, &sending_tests(state, link, count, &drawn));
    match drawn {
        None => Ok(refusal(verdict)),
        Some((key, after)) => {
            if is_accept(&verdict) {
                send_key(alloc, state, link, count, key, &after)
            } else {
                Ok(refusal(verdict))
            }
        }
    }
}

/// What is decided where a new data key is to go under the link, at a moment in microseconds since 1970, behind the tests that come
/// before. The only error is want of memory.
pub fn send(
    alloc: Global,
    state: &State,
    front: &[(bool, Verdict)],
    link: &LinkRec,
    moment: u64,
) -> Result<Decision, NoMemory>
    requires stands { LinkStands state.now link.now }
    requires refuse { all_refuse front.now ≡ true }
    ensures { Decides state.now (sending state.now front.now link.now moment) result }
{
    match Count::of(link.next) {
        Some(count) => {
            let drawn = state.generator().draw_good(moment).ok();
            send_drawn(alloc, state, front, link, count, drawn)
        }
        None => Ok(refusal(verdict_after(front, &[(false, Verdict::CountSpent)]))),
    }
}
