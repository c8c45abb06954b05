// What is given up where an error message arrives, and the count that it names.
ghost use Rattle.std.specs.Prelude.{◌≡◌, ◌++◌, ◌∷◌, IfOk};
ghost use Rattle.party_state.specs.declared.edit.Edit.TheVariants.{DropExchange};
ghost use Rattle.bank_arrivals.specs.Esm.{is_renewed, via_link, subject_link, raised, subject_ended};

use crate::error_message::ErrorSubject;
use csm_grammar::Esm;
use party_state::{Edit, KeyRec, KeyStatus, LinkRec, State, Via};
use role_base::{Twins, centre_label, dropped, joined, list_of, new_link};
use std::alloc::Global;
use x_base::{Count, Ident, Label, NoMemory, Side};

/// Whether a new key-encrypting key has the label of the link under which it went.
fn is_renewed(label: &Label, new: &Option<Label>) -> bool
    ensures { result ≡ is_renewed label.now new.now }
{
    match new {
        Some(new) => *new == *label,
        None => false,
    }
}

/// The link under which a key went. There is none where the new key-encrypting key has the label of
/// that very link, which is dropped.
fn via_link(state: &State, peer: &Ident, via: &Via) -> Option<LinkRec>
    ensures { result ≡ via_link state.now peer.now via.now }
{
    match via {
        Via::Direct { label, new } => {
            if is_renewed(label, new) {
                None
            } else {
                state.link(peer, label, Side::Sends).copied()
            }
        }
        Via::Distribution { .. } | Via::Translation { .. } => None,
    }
}

/// The link whose count the partner names.
fn subject_link(state: &State, peer: &Ident, subject: &ErrorSubject) -> Option<LinkRec>
    ensures { result ≡ subject_link state.now peer.now subject.now }
{
    match subject {
        ErrorSubject::SentKey(sent) => via_link(state, peer, &sent.via),
        ErrorSubject::SentTwins(twins) => {
            state
                .link(peer, &twins.first.name.label, Side::Sends)
                .copied()
        }
        ErrorSubject::Translated(..) => state.link(peer, &centre_label(), Side::Sends).copied(),
    }
}

/// The count goes on where it is named.
fn raised(alloc: Global, link: Option<LinkRec>, ctr: Option<Count>) -> Result<Vec<Edit>, NoMemory>
    ensures { IfOk result (λ edits. edits.items ≡ raised link ctr) }
{
    let (Some(link), Some(ctr)) = (link, ctr) else {
        return Ok(Vec::new(alloc));
    };
    let next = link.next.max(ctr.value());
    list_of(alloc, [Edit::PutLink(LinkRec { next, ..link })])
}

fn subject_ended(
    alloc: Global,
    state: &State,
    peer: &Ident,
    subject: &ErrorSubject,
) -> Result<Vec<Edit>, NoMemory>
    ensures { IfOk result (λ edits. edits.items ≡ subject_ended state.now peer.now subject.now) }
{
    match subject {
        ErrorSubject::SentKey(sent) => {
            let status = KeyStatus::Ended;
            let key = list_of(alloc, [Edit::PutKey(KeyRec { status, ..sent.key })])?;
            joined(dropped(alloc, new_link(state, peer, &sent.via))?, key)
        }
        ErrorSubject::SentTwins(Twins { first, second }) => {
            let status = KeyStatus::Ended;
            let first = Edit::PutKey(KeyRec { status, ..*first });
            let second = Edit::PutKey(KeyRec { status, ..*second });
            list_of(alloc, [first, second])
        }
        ErrorSubject::Translated(..) => Ok(Vec::new(alloc)),
    }
}

/// What was sent is given up, and what follows is asked again.
pub(crate) fn error_edits(
    alloc: Global,
    state: &State,
    message: &Esm,
    subject: &ErrorSubject,
    asked: Vec<Edit>,
) -> Result<Vec<Edit>, NoMemory>
    ensures { let peer = message.now.originator in IfOk result (λ edits. edits.items ≡
        raised (subject_link state.now peer subject.now) message.now.ctr ++ (subject_ended state.now peer subject.now ++ DropExchange peer ∷ asked.items)) }
{
    let peer = message.originator;
    let over = list_of(alloc, [Edit::DropExchange { peer }])?;
    let behind = joined(over, asked)?;
    let ended = joined(subject_ended(alloc, state, &peer, subject)?, behind)?;
    let link = subject_link(state, &peer, subject);
    joined(raised(alloc, link, message.ctr)?, ended)
}
