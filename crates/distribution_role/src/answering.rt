// The answer to a request: a drawn key, for the requester and for the ultimate recipient.
ghost use Rattle.std.specs.Prelude.{◌≡◌, ◌++◌, ◌∷◌, ◌&&◌, [], true, cond, is_some, Some, None, IfOk};
ghost use Rattle.x_base.specs.declared.verdict.Verdict.TheVariants.{WeakDraws};
ghost use Rattle.x_gen.specs.Gen.{good_draw};
ghost use Rattle.party_tables.specs.Ranges.{IsNextCount};
ghost use Rattle.party_state.specs.Verdicts.{verdict_of, tests_pass, all_refuse};
ghost use Rattle.role_base.specs.Replies.{IsWritten};
ghost use Rattle.role_base.specs.Conditions.{has_count};
ghost use Rattle.role_base.specs.Deciding.{decision_of, accepting};
ghost use Rattle.distribution_role.specs.Answering.{links_of, rtr_of, answer_under, answer_reply, answer_edits, answering};

use csm_grammar::{Message, Rtr};
use party_state::{Answer, AnswerKey, Decision, Edit, LinkRec, State};
use role_base::{
    Written, accept, centre_label, direct_name, early_refusal, has_count, is_accept, link_behind,
    list_of, no_extras, refusal, verdict_after,
};
use std::alloc::Global;
use x_base::{Count, FullName, Ident, NoMemory, Verdict};
use x_gen::Gen;
use x_seal::{seal, wrap};

/// The links under which a key goes to both, each with its next count.
#[derive(Clone, Copy)]
pub struct RecipientLinks {
    pub requester: LinkRec,
    pub cta: Count,
    pub ultimate: LinkRec,
    pub ctb: Count,
}

fn rtr_of(state: &State, asked: &AnswerKey, links: &RecipientLinks, key: u64) -> Rtr
    requires cta { links.now.cta ≡ links.now.requester.next }
    requires ctb { links.now.ctb ≡ links.now.ultimate.next }
    ensures { result ≡ rtr_of state.now asked.now.requester asked.now.ultimate links.now.requester links.now.ultimate key }
{
    let (from, to) = (&asked.requester, &asked.ultimate);
    Rtr {
        receiver: *from,
        originator: state.own(),
        ultimate: *to,
        kd: Some((wrap(links.requester.pair, links.cta, key), links.cta)),
        kdu: seal(links.ultimate.pair, from, to, links.ctb, key),
        ctb: links.ctb,
        extras: no_extras(),
    }
}

/// The full name of the key as it is sent to the requester.
pub(crate) fn answer_under(state: &State, requester: Ident, cta: Count) -> FullName
    ensures { result ≡ answer_under state.now requester cta }
{
    FullName {
        name: direct_name(state.own(), centre_label(), cta),
        recipient: requester,
    }
}

fn answer_text(
    alloc: Global,
    state: &State,
    asked: &AnswerKey,
    links: &RecipientLinks,
    key: u64,
) -> Result<Written, NoMemory>
    requires cta { links.now.cta ≡ links.now.requester.next }
    requires ctb { links.now.ctb ≡ links.now.ultimate.next }
    ensures { IfOk result (λ w. IsWritten w (answer_reply state.now asked.now.requester asked.now.ultimate links.now.requester links.now.ultimate key)) }
{
    let under = answer_under(state, asked.requester, links.cta);
    let message = Message::Rtr(rtr_of(state, asked, links, key));
    Written::coded(alloc, message, under, key)
}

/// Both counts are used, and the key is kept as the last answer.
fn answer_edits(
    alloc: Global,
    asked: &AnswerKey,
    links: &RecipientLinks,
    key: u64,
    v: u64,
) -> Result<Vec<Edit>, NoMemory>
    requires cta { links.now.cta ≡ links.now.requester.next }
    requires ctb { links.now.ctb ≡ links.now.ultimate.next }
    ensures { IfOk result (λ edits. edits.items ≡ answer_edits asked.now.requester asked.now.ultimate links.now.requester links.now.ultimate key v) }
{
    let answer = Answer {
        requester: asked.requester,
        ultimate: asked.ultimate,
        cta: links.cta,
        value: key,
    };
    let edits = [
        Edit::SetGen(v),
        Edit::PutLink(link_behind(&links.requester, links.cta)),
        Edit::PutLink(link_behind(&links.ultimate, links.ctb)),
        Edit::PutAnswer(answer),
    ];
    list_of(alloc, edits)
}

/// A key that was drawn is sent.
fn answer_with(
    alloc: Global,
    state: &State,
    asked: &AnswerKey,
    links: &RecipientLinks,
    key: u64,
    v: u64,
) -> Result<Decision, NoMemory>
    requires cta { links.now.cta ≡ links.now.requester.next }
    requires ctb { links.now.ctb ≡ links.now.ultimate.next }
    ensures { IfOk result (λ d. d ≡ accepting state.now
        (answer_edits asked.now.requester asked.now.ultimate links.now.requester links.now.ultimate key v)
        (Some (answer_reply state.now asked.now.requester asked.now.ultimate links.now.requester links.now.ultimate key))) }
{
    let written = answer_text(alloc, state, asked, links, key)?;
    let edits = answer_edits(alloc, asked, links, key, v)?;
    accept(alloc, state, edits, Some(written))
}

/// The verdict behind the tests that come before, with what is drawn.
fn verdict_behind(tests: &[(bool, Verdict)], drawn: &Option<(u64, Gen)>) -> Verdict
    ensures { result ≡ verdict_of (tests.now ++ (is_some drawn.now, WeakDraws) ∷ []) }
{
    verdict_after(tests, &[(drawn.is_some(), Verdict::WeakDraws)])
}

/// What is decided behind the tests that come before, with what is drawn.
fn answer_drawn(
    alloc: Global,
    state: &State,
    tests: &[(bool, Verdict)],
    asked: &AnswerKey,
    links: &RecipientLinks,
    drawn: Option<(u64, Gen)>,
) -> Result<Decision, NoMemory>
    requires cta { links.now.cta ≡ links.now.requester.next }
    requires ctb { links.now.ctb ≡ links.now.ultimate.next }
    ensures { IfOk result (λ d. d ≡ decision_of state.now (answering state.now asked.now.requester asked.now.ultimate tests.now links.now.requester links.now.ultimate drawn)) }
{
    let verdict = verdict_behind(tests, &drawn);
    match drawn {
        None => Ok(refusal(verdict)),
        Some((key, after)) => {
            if is_accept(&verdict) {
                answer_with(alloc, state, asked, links, key, after.v)
            } else {
                Ok(refusal(verdict))
            }
        }
    }
}

/// Both links with their next counts, where both have one left.
fn counted(requester: &LinkRec, ultimate: &LinkRec) -> Option<RecipientLinks>
    requires requester { IsNextCount requester.now.next }
    requires ultimate { IsNextCount ultimate.now.next }
    ensures { result ≡ cond (has_count requester.now && has_count ultimate.now)
        (Some (links_of requester.now ultimate.now)) None }
{
    if !(has_count(requester) && has_count(ultimate)) {
        return None;
    }
    let cta = Count::of(requester.next)?;
    let ctb = Count::of(ultimate.next)?;
    Some(RecipientLinks {
        requester: *requester,
        cta,
        ultimate: *ultimate,
        ctb,
    })
}

fn draw(state: &State, moment: u64) -> Option<(u64, Gen)>
    ensures { result ≡ good_draw state.now.generator moment }
{
    state.generator().draw_good(moment).ok()
}

/// What is decided where a drawn key is to go to the requester and to the ultimate recipient, behind
/// the tests that come before, which test that both links have a count left.
pub(crate) fn answer(
    alloc: Global,
    state: &State,
    tests: &[(bool, Verdict)],
    asked: &AnswerKey,
    requester: &LinkRec,
    ultimate: &LinkRec,
    moment: u64,
) -> Result<Decision, NoMemory>
    requires requester { IsNextCount requester.now.next }
    requires ultimate { IsNextCount ultimate.now.next }
    requires refuse { all_refuse tests.now ≡ true }
    requires counted { tests_pass tests.now ≡ true → (has_count requester.now && has_count ultimate.now) ≡ true }
    ensures { IfOk result (λ d. d ≡ decision_of state.now (answering state.now asked.now.requester asked.now.ultimate tests.now requester.now ultimate.now (good_draw state.now.generator moment))) }
{
    let found = counted(requester, ultimate);
    match found {
        Some(links) => {
            let drawn = draw(state, moment);
            answer_drawn(alloc, state, tests, asked, &links, drawn)
        }
        None => Ok(early_refusal(tests)),
    }
}
