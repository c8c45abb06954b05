// Asking a distribution centre again, with the count that the ultimate recipient expects.
ghost use Rattle.std.specs.Prelude.{◌≡◌, IfOk};
ghost use Rattle.role_base.specs.Replies.{IsWritten, AreWritten};
ghost use Rattle.bank_arrivals.specs.AskingAgain.{retry_by, retry_of, ers_message, ers_reply, asked_again, again_reply};

use crate::error_message::ErrorSubject;
use csm_grammar::{Ers, Esm, Message};
use party_state::{Edit, Exchange, Kind, State, Via};
use role_base::{Written, centre_label, direct_name, list_of};
use std::alloc::Global;
use x_base::{Count, FullName, Ident, NoMemory};

/// What the centre is asked: the count of the answer that it gave, and the count that the ultimate
/// recipient expects.
#[derive(Clone, Copy)]
pub struct Retry {
    pub centre: Ident,
    pub cta: Count,
    pub ctr: Count,
}

/// The centre of a key that went this way, where no exchange with it stands.
fn retry_by(state: &State, via: &Via, ctr: Option<Count>) -> Option<Retry>
    ensures { result ≡ retry_by state.now via.now ctr }
{
    match via {
        Via::Distribution { centre, cta } => {
            let ctr = ctr?;
            if state.exchange(centre).is_none() {
                Some(Retry {
                    centre: *centre,
                    cta: *cta,
                    ctr,
                })
            } else {
                None
            }
        }
        Via::Direct { .. } | Via::Translation { .. } => None,
    }
}

/// What a centre is to be asked, where the error message names a count.
pub(crate) fn retry_of(state: &State, subject: &ErrorSubject, ctr: Option<Count>) -> Option<Retry>
    ensures { result ≡ retry_of state.now subject.now ctr }
{
    match subject {
        ErrorSubject::SentKey(sent) => retry_by(state, &sent.via, ctr),
        ErrorSubject::SentTwins(_) | ErrorSubject::Translated(..) => None,
    }
}

fn ers_message(
    alloc: Global,
    state: &State,
    message: &Esm,
    retry: &Retry,
) -> Result<Message, NoMemory>
    ensures { IfOk result (λ m. m ≡ ers_message state.now message.now retry.now) }
{
    let ultimate = message.originator;
    let erf = message.erf.copy(alloc)?;
    Ok(Message::Ers(Ers {
        receiver: retry.centre,
        originator: state.own(),
        ultimate,
        ctr: retry.ctr,
        erf,
    }))
}

/// The text that asks the centre, under the key that it gave.
fn ers_text(
    alloc: Global,
    state: &State,
    message: &Esm,
    value: u64,
    retry: &Retry,
) -> Result<Written, NoMemory>
    ensures { IfOk result (λ w. IsWritten w (ers_reply state.now message.now value retry.now)) }
{
    let under = FullName {
        name: direct_name(retry.centre, centre_label(), retry.cta),
        recipient: state.own(),
    };
    let request = ers_message(alloc, state, message, retry)?;
    Written::coded(alloc, request, under, value)
}

/// The edits and the text with which a centre is asked again, where one is.
pub(crate) fn asked_again(
    alloc: Global,
    state: &State,
    message: &Esm,
    value: u64,
    again: &Option<Retry>,
) -> Result<(Vec<Edit>, Option<Written>), NoMemory>
    ensures edits { IfOk result (λ asked. asked.0.items ≡ asked_again state.now message.now value again.now) }
    ensures text { IfOk result (λ asked. AreWritten asked.1 (again_reply state.now message.now value again.now)) }
{
    let Some(retry) = again else {
        return Ok((Vec::new(alloc), None));
    };
    let written = ers_text(alloc, state, message, value, retry)?;
    let exchange = Exchange {
        peer: retry.centre,
        kind: Kind::Asked {
            ultimate: message.originator,
        },
        text: written.text.copy(alloc)?,
    };
    let edits = list_of(alloc, [Edit::PutExchange(exchange)])?;
    Ok((edits, Some(written)))
}
