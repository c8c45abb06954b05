// Decisions, from a verdict or from edits and a reply.
ghost use Rattle.std.specs.Prelude.{◌≡◌, true, false, IfOk, IsTrue, Option, None};
ghost use Rattle.party_state.specs.Verdicts.{verdict_of};
ghost use Rattle.party_state.specs.Rows.{Reply};
ghost use Rattle.role_base.specs.Differing.{differing};
ghost use Rattle.role_base.specs.Deciding.{RefusesEarly, refusal_of, accepting};
ghost use Rattle.role_base.specs.Replies.{AreWritten};

use crate::differing::differs;
use crate::texts::Written;
use crate::verdicts::verdict_of;
use party_state::{Change, Decision, Edit, Edits, State};
use std::alloc::Global;
use x_base::{NoMemory, Verdict};

/// Refused, with nothing written.
pub fn refusal(verdict: Verdict) -> Decision
    ensures { result ≡ refusal_of verdict }
{
    Decision {
        change: Edits::none(),
        reply: None,
        under: None,
        verdict,
    }
}

/// Refused, where one of the tests fails that stand before a code's.
pub fn early_refusal(tests_before_code: &[(bool, Verdict)]) -> Decision
    ensures { RefusesEarly tests_before_code.now result }
{
    refusal(verdict_of(tests_before_code))
}

/// Whether each of the edits makes a difference.
#[tactic(auto, using(crate::proofs::Filtering::differing_none, crate::proofs::Filtering::differing_more))]
fn all_differ(state: &State, edits: &[Edit]) -> bool
    ensures { IsTrue result → differing state.now edits.now ≡ edits.now }
{
    for edit in edits {
        if !differs(state, edit) {
            return false;
        }
    }
    true
}

/// Those of the edits that make a difference.
#[tactic(auto, using(crate::proofs::Filtering::differing_none, crate::proofs::Filtering::differing_more, crate::proofs::Filtering::differing_same))]
fn differing(alloc: Global, state: &State, edits: Vec<Edit>) -> Result<Change, NoMemory>
    ensures { IfOk result (λ change. change ≡ differing state.now edits.items) }
{
    if all_differ(state, edits.as_slice()) {
        return Ok(Change::of(edits));
    }
    let mut change = Change::with_capacity(alloc, edits.len())?;
    for edit in edits {
        if differs(state, &edit) {
            change.push(edit)?;
        }
    }
    Ok(change)
}

/// Accepted, with those of the edits that make a difference, and the reply.
pub fn accept(
    alloc: Global,
    state: &State,
    edits: Vec<Edit>,
    reply: Option<Written>,
) -> Result<Decision, NoMemory>
    ensures { IfOk result (λ d. (r : Option Reply) → AreWritten reply r → d ≡ accepting state.now edits.items r) }
{
    let change = Edits::of(differing(alloc, state, edits)?);
    let (reply, under) = match reply {
        Some(written) => (Some(written.text), written.under),
        None => (None, None),
    };
    Ok(Decision {
        change,
        reply,
        under,
        verdict: Verdict::Accept,
    })
}
