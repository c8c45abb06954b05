// A key for an ultimate recipient goes to a translation centre.
ghost use Rattle.std.specs.Prelude.{◌≡◌, ◌+◌, ◌≤◌, length, IfOk, Some, [], ◌∷◌};
ghost use Rattle.x_base.specs.Count.{IsCount};
ghost use Rattle.party_state.specs.declared.edit.Edit.TheVariants.{SetGen, PutLink, PutExchange};
ghost use Rattle.party_tables.specs.Ranges.{longest_text};
ghost use Rattle.role_base.specs.Deciding.{Decides, AcceptsWith};
ghost use Rattle.role_base.specs.Replies.{IsWritten};
ghost use Rattle.role_base.specs.Standing.{LinkStands};
ghost use Rattle.x_gen.specs.Gen.{good_draw};
ghost use Rattle.bank_orders.specs.Translate.{translate_tests, translate_message, translate_reply, translate_edits, translate_drawn, translate};

use crate::ask::centre_front;
use csm_grammar::{Message, Rfs};
use party_state::{Decision, Edit, Exchange, Kind, LinkRec, State};
use role_base::{
    Written, accept, centre_label, direct_name, has_count, is_accept, link_after_use, link_with,
    list_of, refusal, verdict_after,
};
use std::alloc::Global;
use x_base::{Count, FullName, Ident, NoMemory, Side, Verdict};
use x_gen::Gen;
use x_seal::wrap;

/// The tests of a link with a centre, and of what is drawn.
fn translate_tests(link: &LinkRec, drawn: &Option<(u64, Gen)>) -> [(bool, Verdict); 3]
    ensures { result ≡ translate_tests link.now drawn.now }
{
    [
        (true, Verdict::UnknownKk),
        (has_count(link), Verdict::CountSpent),
        (drawn.is_some(), Verdict::WeakDraws),
    ]
}

/// The request for service with this key.
fn translate_message(
    state: &State,
    centre: &Ident,
    ultimate: &Ident,
    link: &LinkRec,
    count: Count,
    key: u64,
) -> Message
    requires { count ≡ link.now.next }
    ensures { result ≡ translate_message state.now centre.now ultimate.now link.now key }
{
    Message::Rfs(Rfs {
        receiver: *centre,
        originator: state.own(),
        ultimate: *ultimate,
        kd: wrap(link.pair, count, key),
        cta: count,
    })
}

fn translate_text(
    alloc: Global,
    state: &State,
    centre: &Ident,
    ultimate: &Ident,
    link: &LinkRec,
    count: Count,
    key: u64,
) -> Result<Written, NoMemory>
    requires { count ≡ link.now.next }
    ensures written { IfOk result (λ w. IsWritten w (translate_reply state.now centre.now ultimate.now link.now key)) }
    ensures short { IfOk result (λ w. length w.text ≤ longest_text) }
{
    let under = FullName {
        name: direct_name(state.own(), centre_label(), count),
        recipient: *centre,
    };
    let message = translate_message(state, centre, ultimate, link, count, key);
    Written::coded(alloc, message, under, key)
}

/// The generator goes on, the link's count is used, and the exchange stands.
fn translate_changes(link: &LinkRec, count: Count, after: &Gen, exchange: Exchange) -> [Edit; 3]
    requires { count ≡ link.now.next }
    ensures edits { result ≡ SetGen after.now.v ∷ PutLink (record link.now { next = link.now.next + 1 }) ∷ PutExchange exchange ∷ [] }
    ensures count { IsCount link.now.next }
{
    [
        Edit::SetGen(after.v),
        Edit::PutLink(link_after_use(link, count)),
        Edit::PutExchange(exchange),
    ]
}

/// The key that was drawn goes to the centre.
fn send_for_translation(
    alloc: Global,
    state: &State,
    centre: &Ident,
    ultimate: &Ident,
    link: &LinkRec,
    count: Count,
    drawn: &(u64, Gen),
) -> Result<Decision, NoMemory>
    requires at_next { count ≡ link.now.next }
    requires stands { LinkStands state.now link.now }
    ensures { AcceptsWith state.now (translate_edits state.now centre.now ultimate.now link.now drawn.now.0 drawn.now.1.v) (Some (translate_reply state.now centre.now ultimate.now link.now drawn.now.0)) result }
{
    let written = translate_text(alloc, state, centre, ultimate, link, count, drawn.0)?;
    let exchange = Exchange {
        peer: *centre,
        kind: Kind::Translating {
            ultimate: *ultimate,
            value: drawn.0,
            cta: count,
        },
        text: written.text.copy(alloc)?,
    };
    let changes = translate_changes(link, count, &drawn.1, exchange);
    accept(alloc, state, list_of(alloc, changes)?, Some(written))
}

/// What is decided with what is drawn, where a link with the centre stands.
fn translate_drawn(
    alloc: Global,
    state: &State,
    centre: &Ident,
    ultimate: &Ident,
    link: &LinkRec,
    count: Count,
    drawn: Option<(u64, Gen)>,
) -> Result<Decision, NoMemory>
    requires at_next { count ≡ link.now.next }
    requires stands { LinkStands state.now link.now }
    ensures { Decides state.now (translate_drawn state.now centre.now ultimate.now link.now drawn) result }
{
    let front = centre_front(state, centre, ultimate);
    let verdict = verdict_after(&front, &translate_tests(link, &drawn));
    match drawn {
        None => Ok(refusal(verdict)),
        Some(key) => {
            if is_accept(&verdict) {
                send_for_translation(alloc, state, centre, ultimate, link, count, &key)
            } else {
                Ok(refusal(verdict))
            }
        }
    }
}

/// What is decided where the key is to go under the link with the centre.
fn translate_under(
    alloc: Global,
    state: &State,
    centre: &Ident,
    ultimate: &Ident,
    link: &LinkRec,
    moment: u64,
) -> Result<Decision, NoMemory>
    requires { LinkStands state.now link.now }
    ensures { Decides state.now (translate_drawn state.now centre.now ultimate.now link.now (good_draw state.now.generator moment)) result }
{
    match Count::of(link.next) {
        Some(count) => {
            let drawn = state.generator().draw_good(moment).ok();
            translate_drawn(alloc, state, centre, ultimate, link, count, drawn)
        }
        None => {
            let front = centre_front(state, centre, ultimate);
            Ok(refusal(verdict_after(&front, &[(false, Verdict::CountSpent)])))
        }
    }
}

/// What a bank decides where a translation centre is asked to pass a new key on to an ultimate
/// recipient.
#[tactic(auto, using(role_base::proofs::Kept::is_refused))]
pub(crate) fn translate(
    alloc: Global,
    state: &State,
    centre: &Ident,
    ultimate: &Ident,
    moment: u64,
) -> Result<Decision, NoMemory>
    ensures { Decides state.now (translate state.now centre.now ultimate.now moment) result }
{
    match link_with(state, centre, &centre_label(), Side::Sends) {
        Some(link) => translate_under(alloc, state, centre, ultimate, &link, moment),
        None => {
            let front = centre_front(state, centre, ultimate);
            Ok(refusal(verdict_after(&front, &[(false, Verdict::UnknownKk)])))
        }
    }
}
