// The error service message that answers a refused message with a key.
ghost use Rattle.std.specs.Prelude.{◌≡◌, IfOk, option_map};
ghost use Rattle.party_state.specs.Rows.Reply.{Coded};
ghost use Rattle.role_base.specs.Errors.{error_letter, expected_count, error_message, error_for, coded_under};
ghost use Rattle.role_base.specs.Errors.{TellsCount, answering};
ghost use Rattle.role_base.specs.Replies.{IsWritten};

use crate::decisions::refusal;
use crate::texts::Written;
use csm_grammar::{Esm, Message};
use party_state::{Decision, Edits, Lead, State};
use std::alloc::Global;
use x_base::{Count, Ident, NoMemory, Text, Verdict};

/// The counts that an error message names, each under the tag of the message that it answers.
#[derive(Clone, Copy)]
pub struct ErrorCounts {
    pub ctp: Option<Count>,
    pub cta: Option<Count>,
    pub ctb: Option<Count>,
}

/// The letter of a refusal that is answered.
fn error_letter(verdict: &Verdict) -> Option<&'static [u8]>
    ensures { option_map (λ letter. letter.now) result ≡ error_letter verdict.now }
{
    match verdict {
        Verdict::CountLow(_) => Some(b"C"),
        Verdict::CountSpent => Some(b"S"),
        Verdict::LabelTaken => Some(b"L"),
        Verdict::SameKey => Some(b"K"),
        Verdict::LinksFull => Some(b"N"),
        Verdict::KeysFull => Some(b"F"),
        _ => None,
    }
}

/// The expected count, where it is named.
fn expected_count(verdict: &Verdict) -> Option<Count>
    requires { TellsCount verdict.now }
    ensures { result ≡ expected_count verdict.now }
{
    match verdict {
        Verdict::CountLow(expected) => Count::of(*expected),
        _ => None,
    }
}

/// The error message with this letter, closed under the key that came.
fn error_text(
    alloc: Global,
    state: &State,
    originator: Ident,
    counts: ErrorCounts,
    verdict: &Verdict,
    letter: &[u8],
    lead: &Lead,
) -> Result<Written, NoMemory>
    requires { TellsCount verdict.now }
    ensures { IfOk result (λ w. IsWritten w (Coded (error_message state.now originator counts letter.now (expected_count verdict.now)) lead.now.under lead.now.value)) }
{
    let mut erf = Text::new(alloc);
    erf.push(letter)?;
    let message = Message::Esm(Esm {
        receiver: originator,
        originator: state.own(),
        erf,
        ctp: counts.ctp,
        cta: counts.cta,
        ctb: counts.ctb,
        ctr: expected_count(verdict),
    });
    Written::coded(alloc, message, lead.under, lead.value)
}

/// Refused, and answered under the key that came where the verdict is one that is answered.
pub fn error_answer(
    alloc: Global,
    state: &State,
    originator: Ident,
    counts: ErrorCounts,
    verdict: Verdict,
    lead: &Lead,
) -> Result<Decision, NoMemory>
    requires { TellsCount verdict }
    ensures { IfOk result (λ d. d ≡ answering verdict (coded_under lead.now.under lead.now.value (error_for state.now originator counts verdict))) }
{
    let Some(letter) = error_letter(&verdict) else {
        return Ok(refusal(verdict));
    };
    let written = error_text(alloc, state, originator, counts, &verdict, letter, lead)?;
    Ok(Decision {
        change: Edits::none(),
        reply: Some(written.text),
        under: written.under,
        verdict,
    })
}
