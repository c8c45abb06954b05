// Two new data keys under a link, in one key service message: drawn, encrypted at the link's next two
// counts, kept as pending, and sent.
ghost use Rattle.std.specs.Prelude.{◌≡◌, ◌+◌, ◌≤◌, true, false, length, IfOk, IfSome, Some, None};
ghost use Rattle.x_base.specs.Count.{IsCount};
ghost use Rattle.party_tables.specs.Names.{name_behind};
ghost use Rattle.party_tables.specs.Ranges.{IsNextCount, longest_text};
ghost use Rattle.party_state.specs.Verdicts.{all_refuse};
ghost use Rattle.role_base.specs.Conditions.{has_two_counts, has_room_for_two};
ghost use Rattle.role_base.specs.Deciding.{Decides, AcceptsWith};
ghost use Rattle.role_base.specs.Replies.{IsWritten};
ghost use Rattle.role_base.specs.Sending.{next_name};
ghost use Rattle.role_base.specs.Standing.{LinkStands};
ghost use Rattle.bank_arrivals.specs.SendingTwins.{twins_drawn, twins_message, twins_reply, first_key, second_key, twins_tests, twins_edits, twins_sending, twins_sending_drawn};

use crate::draws::{TwinsDrawn, twins_drawn};
use csm_grammar::{Ksm, KsmBody, Message};
use party_state::{Decision, Edit, Exchange, Kind, LinkRec, RecordKey, State};
use role_base::{
    Written, accept, count_behind, has_room_for_two, has_two_counts, is_accept, list_of, next_name,
    no_extras, pending, refusal, verdict_after,
};
use std::alloc::Global;
use x_base::{Count, FullName, KeyName, NoMemory, Verdict};
use x_seal::wrap;

/// The next count of a link, where the one behind it is left too.
#[tactic(auto, using(crate::proofs::TwinsSent::two_left, crate::proofs::TwinsSent::none_left))]
fn two_counts(link: &LinkRec) -> Option<Count>
    requires { IsNextCount link.now.next }
    ensures next { IfSome result (λ count. count ≡ link.now.next) }
    ensures behind { IfSome result (λ count. IsCount (count + 1)) }
    ensures spent { result ≡ None → has_two_counts link.now ≡ false }
{
    if has_two_counts(link) {
        Count::of(link.next)
    } else {
        None
    }
}

/// The name of the second key.
fn second_name(state: &State, link: &LinkRec, count: Count) -> KeyName
    requires at_next { count ≡ link.now.next }
    requires behind { IsCount (count + 1) }
    ensures { result ≡ name_behind (next_name state.now link.now) }
{
    KeyName {
        count: count_behind(count),
        ..next_name(state, link, count)
    }
}

/// The key service message with these keys.
fn twins_message(state: &State, link: &LinkRec, count: Count, drawn: &TwinsDrawn) -> Message
    requires at_next { count ≡ link.now.next }
    requires behind { IsCount (count + 1) }
    ensures { result ≡ twins_message state.now link.now drawn.now }
{
    Message::Ksm(Ksm {
        receiver: link.peer,
        originator: state.own(),
        body: KsmBody::Twin {
            idk2: Some(link.label),
            first: wrap(link.pair, count, drawn.first),
            second: wrap(link.pair, count_behind(count), drawn.second),
            ctp: count,
        },
        extras: no_extras(),
    })
}

/// The text with these keys, closed under the exclusive-or of the two.
fn twins_text(
    alloc: Global,
    state: &State,
    link: &LinkRec,
    count: Count,
    drawn: &TwinsDrawn,
) -> Result<Written, NoMemory>
    requires at_next { count ≡ link.now.next }
    requires behind { IsCount (count + 1) }
    ensures written { IfOk result (λ w. IsWritten w (twins_reply state.now link.now drawn.now)) }
    ensures short { IfOk result (λ w. length w.text ≤ longest_text) }
{
    let under = FullName {
        name: next_name(state, link, count),
        recipient: link.peer,
    };
    let message = twins_message(state, link, count, drawn);
    Written::coded(alloc, message, under, drawn.first ^ drawn.second)
}

/// The link behind its next two counts.
fn used_twice(link: &LinkRec, count: Count) -> LinkRec
    requires { count ≡ link.now.next }
    ensures used { result ≡ record link.now { next = link.now.next + 2 } }
    ensures count { IsCount link.now.next }
{
    LinkRec {
        next: count.value() + 2,
        ..*link
    }
}

/// Two keys that were drawn are sent.
fn send_twins(
    alloc: Global,
    state: &State,
    link: &LinkRec,
    count: Count,
    drawn: &TwinsDrawn,
) -> Result<Decision, NoMemory>
    requires at_next { count ≡ link.now.next }
    requires behind { IsCount (count + 1) }
    requires stands { LinkStands state.now link.now }
    requires room { has_room_for_two state.now (first_key state.now link.now) (second_key state.now link.now) ≡ true }
    ensures { AcceptsWith state.now (twins_edits state.now link.now drawn.now) (Some (twins_reply state.now link.now drawn.now)) result }
{
    let written = twins_text(alloc, state, link, count, drawn)?;
    let name = next_name(state, link, count);
    let second = second_name(state, link, count);
    let exchange = Exchange {
        peer: link.peer,
        kind: Kind::PairSent { name },
        text: written.text.copy(alloc)?,
    };
    let edits = [
        Edit::SetGen(drawn.v),
        Edit::PutLink(used_twice(link, count)),
        Edit::PutKey(pending(link, name, drawn.first)),
        Edit::PutKey(pending(link, second, drawn.second)),
        Edit::PutExchange(exchange),
    ];
    accept(alloc, state, list_of(alloc, edits)?, Some(written))
}

fn twins_tests(
    state: &State,
    link: &LinkRec,
    count: Count,
    drawn: &Option<TwinsDrawn>,
) -> [(bool, Verdict); 3]
    requires at_next { count ≡ link.now.next }
    requires behind { IsCount (count + 1) }
    ensures { result ≡ twins_tests state.now link.now drawn.now }
{
    let first = RecordKey {
        peer: link.peer,
        name: next_name(state, link, count),
    };
    let second = RecordKey {
        peer: link.peer,
        name: second_name(state, link, count),
    };
    [
        (has_two_counts(link), Verdict::CountSpent),
        (has_room_for_two(state, &first, &second), Verdict::KeysFull),
        (drawn.is_some(), Verdict::WeakDraws),
    ]
}

/// What is decided behind the tests that come before, with what is drawn.
#[tactic(auto, using(role_base::proofs::Failing::drawn_room))]
fn send_drawn(
    alloc: Global,
    state: &State,
    front: &[(bool, Verdict)],
    link: &LinkRec,
    count: Count,
    drawn: &Option<TwinsDrawn>,
) -> Result<Decision, NoMemory>
    requires at_next { count ≡ link.now.next }
    requires behind { IsCount (count + 1) }
    requires stands { LinkStands state.now link.now }
    requires refuse { all_refuse front.now ≡ true }
    ensures { Decides state.now (twins_sending_drawn state.now front.now link.now drawn.now) result }
{
    let verdict = verdict_after(front, &twins_tests(state, link, count, drawn));
    match drawn {
        None => Ok(refusal(verdict)),
        Some(keys) => {
            if is_accept(&verdict) {
                send_twins(alloc, state, link, count, keys)
            } else {
                Ok(refusal(verdict))
            }
        }
    }
}

/// What is decided where two new data keys are to go under the link, behind the tests that come
/// before.
pub(crate) fn send_two(
    alloc: Global,
    state: &State,
    front: &[(bool, Verdict)],
    link: &LinkRec,
    moment: u64,
) -> Result<Decision, NoMemory>
    requires stands { LinkStands state.now link.now }
    requires refuse { all_refuse front.now ≡ true }
    ensures { Decides state.now (twins_sending state.now front.now link.now moment) result }
{
    match two_counts(link) {
        Some(count) => {
            let drawn = twins_drawn(&state.generator(), moment);
            send_drawn(alloc, state, front, link, count, &drawn)
        }
        None => Ok(refusal(verdict_after(front, &[(false, Verdict::CountSpent)]))),
    }
}
