// Starting with a new key-encrypting key, under the link in use, and a data key under it.
ghost use Rattle.std.specs.Prelude.{◌≡◌, ◌+◌, ◌≤◌, true, length, IfOk, Some, [], ◌∷◌};
ghost use Rattle.x_base.specs.Count.{IsCount};
ghost use Rattle.party_tables.specs.declared.key.KeyStatus.TheVariants.{Pending};
ghost use Rattle.party_state.specs.declared.edit.Edit.TheVariants.{SetGen, PutLink, PutKey, PutExchange};
ghost use Rattle.party_tables.specs.Keys.{sends};
ghost use Rattle.party_tables.specs.Ranges.{longest_text};
ghost use Rattle.party_state.specs.Verdicts.{all_refuse};
ghost use Rattle.role_base.specs.Conditions.{has_key_room, has_link_room};
ghost use Rattle.role_base.specs.Deciding.{Decides, AcceptsWith};
ghost use Rattle.role_base.specs.Replies.{IsWritten};
ghost use Rattle.role_base.specs.Sending.{next_name};
ghost use Rattle.role_base.specs.Standing.{LinkStands};
ghost use Rattle.bank_orders.specs.Draws.{kk_drawn};
ghost use Rattle.bank_orders.specs.StartKk.{sealed_kk, is_free, kk_tests, kk_message, kk_reply, fresh_link, kk_edits, kk_sending, start_kk};

use crate::draws::{KkDrawn, kk_drawn};
use crate::start::{sending_link, start_tests};
use csm_grammar::{Ksm, KsmBody, Message, NewKk};
use party_state::{Decision, Edit, Exchange, Kind, LinkRec, State, Via, law_accept};
use role_base::{
    Written, accept, first_count, has_count, has_key_room, has_link_room, is_accept, is_of_centre,
    link_after_use, list_of, next_name, no_extras, pending, refusal, verdict_after, verdict_of,
};
use std::alloc::Global;
use x_base::{Count, FullName, Ident, KeyName, Label, NoMemory, Side, Verdict};
use x_mac::Pair;
use x_seal::wrap;

/// The new key-encrypting key that is wanted: its label, and whether both halves are one key.
#[derive(Clone, Copy)]
pub struct Wanted {
    pub label: Label,
    pub single: bool,
}

/// One half of a new pair under a link at a count, or both.
fn sealed_kk(pair: Pair, count: Count, single: bool, new: Pair) -> NewKk
    ensures { result ≡ sealed_kk pair count single new }
{
    let left = wrap(pair, count, new.left);
    if single {
        NewKk::Single(left)
    } else {
        NewKk::Double(left, wrap(pair, count, new.right))
    }
}

/// Whether the label is no centre's, and no link for sending to the peer has it.
fn is_free(state: &State, peer: &Ident, new: &Label) -> bool
    ensures { result ≡ is_free state.now peer.now new.now }
{
    !is_of_centre(new) && state.link(peer, new, Side::Sends).is_none()
}

fn kk_tests(
    state: &State,
    link: &LinkRec,
    count: Count,
    new: &Label,
    drawn: &Option<KkDrawn>,
) -> [(bool, Verdict); 5]
    requires { count ≡ link.now.next }
    ensures { result ≡ kk_tests state.now link.now new.now drawn.now }
{
    let peer = &link.peer;
    let room = has_key_room(state, peer, &next_name(state, link, count));
    [
        (has_count(link), Verdict::CountSpent),
        (is_free(state, peer, new), Verdict::LabelTaken),
        (
            has_link_room(state, peer, new, Side::Sends),
            Verdict::LinksFull,
        ),
        (room, Verdict::KeysFull),
        (drawn.is_some(), Verdict::WeakDraws),
    ]
}

/// The key service message with both keys.
fn kk_message(
    state: &State,
    link: &LinkRec,
    count: Count,
    wanted: &Wanted,
    drawn: &KkDrawn,
) -> Message
    requires { count ≡ link.now.next }
    ensures { result ≡ kk_message state.now link.now wanted.now.label wanted.now.single drawn.now }
{
    let new = sealed_kk(link.pair, count, wanted.single, drawn.pair);
    Message::Ksm(Ksm {
        receiver: link.peer,
        originator: state.own(),
        body: KsmBody::Direct {
            idk2: Some(link.label),
            new: Some((wanted.label, new)),
            kd: wrap(drawn.pair, first_count(), drawn.key),
            ctp: count,
        },
        extras: no_extras(),
    })
}

fn kk_text(
    alloc: Global,
    state: &State,
    link: &LinkRec,
    count: Count,
    wanted: &Wanted,
    drawn: &KkDrawn,
) -> Result<Written, NoMemory>
    requires { count ≡ link.now.next }
    ensures written { IfOk result (λ w. IsWritten w (kk_reply state.now link.now wanted.now.label wanted.now.single drawn.now)) }
    ensures short { IfOk result (λ w. length w.text ≤ longest_text) }
{
    let under = FullName {
        name: next_name(state, link, count),
        recipient: link.peer,
    };
    let message = kk_message(state, link, count, wanted, drawn);
    Written::coded(alloc, message, under, drawn.key)
}

/// The link of the new key-encrypting key: its recipient doesn't hold it yet, and its first count
/// is used.
fn fresh_link(link: &LinkRec, label: Label, pair: Pair) -> LinkRec
    ensures { result ≡ fresh_link link.now label pair }
{
    LinkRec {
        peer: link.peer,
        label,
        side: Side::Sends,
        pair,
        next: 2,
        ready: false,
    }
}

/// The generator goes on, the link's count is used, the new link and the data key's record are there,
/// and the exchange stands.
fn kk_changes(
    link: &LinkRec,
    count: Count,
    label: Label,
    drawn: &KkDrawn,
    name: KeyName,
    exchange: Exchange,
) -> [Edit; 5]
    requires { count ≡ link.now.next }
    ensures edits { result ≡ SetGen drawn.now.v ∷ PutLink (record link.now { next = link.now.next + 1 }) ∷ PutLink (fresh_link link.now label drawn.now.pair)
        ∷ PutKey (record { peer = link.now.peer; name = name; value = drawn.now.key; status = Pending }) ∷ PutExchange exchange ∷ [] }
    ensures count { IsCount link.now.next }
{
    [
        Edit::SetGen(drawn.v),
        Edit::PutLink(link_after_use(link, count)),
        Edit::PutLink(fresh_link(link, label, drawn.pair)),
        Edit::PutKey(pending(link, name, drawn.key)),
        Edit::PutExchange(exchange),
    ]
}

/// The keys that were drawn are sent.
fn send_kk(
    alloc: Global,
    state: &State,
    link: &LinkRec,
    count: Count,
    wanted: &Wanted,
    drawn: &KkDrawn,
) -> Result<Decision, NoMemory>
    requires at_next { count ≡ link.now.next }
    requires stands { LinkStands state.now link.now }
    requires place { has_link_room state.now (sends link.now.peer wanted.now.label) ≡ true }
    requires room { has_key_room state.now (record { peer = link.now.peer; name = next_name state.now link.now }) ≡ true }
    ensures { AcceptsWith state.now (kk_edits state.now link.now wanted.now.label wanted.now.single drawn.now) (Some (kk_reply state.now link.now wanted.now.label wanted.now.single drawn.now)) result }
{
    let written = kk_text(alloc, state, link, count, wanted, drawn)?;
    let name = next_name(state, link, count);
    let label = link.label;
    let new = Some(wanted.label);
    let exchange = Exchange {
        peer: link.peer,
        kind: Kind::KeySent {
            name,
            via: Via::Direct { label, new },
        },
        text: written.text.copy(alloc)?,
    };
    let changes = kk_changes(link, count, wanted.label, drawn, name, exchange);
    accept(alloc, state, list_of(alloc, changes)?, Some(written))
}

/// What is decided behind the tests that come before, with what is drawn.
fn kk_decided(
    alloc: Global,
    state: &State,
    front: &[(bool, Verdict)],
    link: &LinkRec,
    count: Count,
    wanted: &Wanted,
    drawn: Option<KkDrawn>,
) -> Result<Decision, NoMemory>
    requires at_next { count ≡ link.now.next }
    requires stands { LinkStands state.now link.now }
    requires refuse { all_refuse front.now ≡ true }
    ensures { Decides state.now (kk_sending state.now front.now link.now wanted.now.label wanted.now.single drawn) result }
{
    // Tells what an accepted verdict says of the tests.
    law_accept();
    let verdict = verdict_after(front, &kk_tests(state, link, count, &wanted.label, &drawn));
    match drawn {
        None => Ok(refusal(verdict)),
        Some(keys) => {
            if is_accept(&verdict) {
                send_kk(alloc, state, link, count, wanted, &keys)
            } else {
                Ok(refusal(verdict))
            }
        }
    }
}

/// What is decided where a new key-encrypting key is to go under the link, behind the tests that
/// come before.
fn kk_under(
    alloc: Global,
    state: &State,
    front: &[(bool, Verdict)],
    link: &LinkRec,
    wanted: &Wanted,
    moment: u64,
) -> Result<Decision, NoMemory>
    requires stands { LinkStands state.now link.now }
    requires refuse { all_refuse front.now ≡ true }
    ensures { Decides state.now (kk_sending state.now front.now link.now wanted.now.label wanted.now.single (kk_drawn state.now.generator moment wanted.now.single)) result }
{
    match Count::of(link.next) {
        Some(count) => {
            let drawn = kk_drawn(&state.generator(), moment, wanted.single);
            kk_decided(alloc, state, front, link, count, wanted, drawn)
        }
        None => Ok(refusal(verdict_after(front, &[(false, Verdict::CountSpent)]))),
    }
}

/// What a bank decides where a new key-encrypting key is to be sent to a peer, under the link with
/// that label or the first one, and a data key under it.
#[tactic(auto, using(role_base::proofs::Kept::is_refused))]
pub(crate) fn start_kk(
    alloc: Global,
    state: &State,
    peer: &Ident,
    label: &Option<Label>,
    wanted: &Wanted,
    moment: u64,
) -> Result<Decision, NoMemory>
    ensures { Decides state.now (start_kk state.now peer.now label.now wanted.now.label wanted.now.single moment) result }
{
    let found = sending_link(state, peer, label);
    let front = start_tests(state, peer, &found);
    match found {
        Some(link) => kk_under(alloc, state, &front, &link, wanted, moment),
        None => Ok(refusal(verdict_of(&front))),
    }
}
