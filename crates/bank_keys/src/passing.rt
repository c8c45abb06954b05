// The key of a centre's answer goes on to the ultimate recipient.
ghost use Rattle.std.specs.Prelude.{◌≡◌, ◌≤◌, ◌++◌, true, Some, length, IfSome, IfOk};
ghost use Rattle.party_state.specs.declared.edit.Edit.TheVariants.{PutLink};
ghost use Rattle.party_tables.specs.declared.link.LinkRec.{LinkRec as TheLink};
ghost use Rattle.party_tables.specs.Ranges.{longest_text};
ghost use Rattle.role_base.specs.Texts.{text_of};
ghost use Rattle.role_base.specs.Conditions.{has_key_room};
ghost use Rattle.role_base.specs.Replies.{IsWritten};
ghost use Rattle.role_base.specs.Storable.{IsKeepable};
ghost use Rattle.role_base.specs.Deciding.{AcceptsWith};
ghost use Rattle.bank_keys.specs.Rtr.{centre_name, centre_key, rtr_front, rtr_rest, centre_ksm, passed_reply, used_edits, passed_on};

use csm_grammar::{Ksm, KsmBody, Message, Rtr};
use party_state::{Decision, Edit, Exchange, KeyRec, KeyStatus, Kind, LinkRec, State, Via};
use role_base::{
    Written, accept, centre_label, has_key_room, is_for, joined, list_of, no_extras, record_of,
};
use std::alloc::Global;
use x_base::{FullName, KeyName, NoMemory, Text, Verdict};

/// The name of the key, by the count for the ultimate recipient.
fn centre_name(state: &State, message: &Rtr) -> KeyName
    ensures { result ≡ centre_name state.now message.now }
{
    KeyName {
        issuer: message.originator,
        originator: state.own(),
        label: centre_label(),
        count: message.ctb,
    }
}

/// The tests before the code's, but for the link's.
pub(crate) fn rtr_front(state: &State, message: &Rtr, stands: bool) -> [(bool, Verdict); 4]
    ensures { result ≡ rtr_front state.now message.now stands }
{
    [
        (
            is_for(state, &message.receiver, &message.originator),
            Verdict::NotForMe,
        ),
        (state.knows(&message.originator), Verdict::UnknownPeer),
        (stands, Verdict::NoExchange),
        (
            state.exchange(&message.ultimate).is_none(),
            Verdict::Outstanding,
        ),
    ]
}

/// The tests behind the code's and the count's.
pub(crate) fn rtr_rest(state: &State, message: &Rtr) -> [(bool, Verdict); 2]
    ensures { result ≡ rtr_rest state.now message.now }
{
    let name = centre_name(state, message);
    [
        (
            record_of(state, &message.ultimate, &name).is_none(),
            Verdict::SameKey,
        ),
        (
            has_key_room(state, &message.ultimate, &name),
            Verdict::KeysFull,
        ),
    ]
}

/// The key service message that takes the key on.
fn centre_ksm(state: &State, message: &Rtr) -> Ksm
    ensures { result ≡ centre_ksm state.now message.now }
{
    Ksm {
        receiver: message.ultimate,
        originator: state.own(),
        body: KsmBody::Centre {
            centre: message.originator,
            kdu: message.kdu,
            ctb: message.ctb,
        },
        extras: no_extras(),
    }
}

fn passed_text(alloc: Global, state: &State, message: &Rtr, value: u64) -> Result<Written, NoMemory>
    ensures written { IfOk result (λ w. IsWritten w (passed_reply state.now message.now value)) }
    ensures short { IfOk result (λ w. length w.text ≤ longest_text) }
{
    let under = FullName {
        name: centre_name(state, message),
        recipient: message.ultimate,
    };
    let sent = Message::Ksm(centre_ksm(state, message));
    Written::coded(alloc, sent, under, value)
}

/// The key is pending, and the exchange with the centre gives way to one with the ultimate
/// recipient.
fn passed_on(
    alloc: Global,
    state: &State,
    message: &Rtr,
    value: u64,
    via: Via,
    text: Text,
) -> Result<Vec<Edit>, NoMemory>
    requires { text ≡ text_of (passed_reply state.now message.now value) }
    ensures { IfOk result (λ edits. edits.items ≡ passed_on state.now message.now value via) }
{
    let key = KeyRec {
        peer: message.ultimate,
        name: centre_name(state, message),
        value,
        status: KeyStatus::Pending,
    };
    let name = centre_name(state, message);
    let exchange = Exchange {
        peer: message.ultimate,
        kind: Kind::KeySent { name, via },
        text,
    };
    let gone = Edit::DropExchange {
        peer: message.originator,
    };
    list_of(
        alloc,
        [Edit::PutKey(key), gone, Edit::PutExchange(exchange)],
    )
}

/// The link that brought the key, where one did.
fn used_edits(alloc: Global, used: Option<LinkRec>) -> Result<Vec<Edit>, NoMemory>
    ensures { IfOk result (λ edits. edits.items ≡ used_edits used) }
{
    match used {
        Some(link) => list_of(alloc, [Edit::PutLink(link)]),
        None => Ok(Vec::new(alloc)),
    }
}

/// The key goes on.
pub(crate) fn pass_on(
    alloc: Global,
    state: &State,
    message: &Rtr,
    used: Option<LinkRec>,
    value: u64,
    via: Via,
) -> Result<Decision, NoMemory>
    requires used { IfSome used (λ (l : TheLink). IsKeepable state.now (PutLink l)) }
    requires room { has_key_room state.now (centre_key state.now message.now) ≡ true }
    ensures { AcceptsWith state.now (used_edits used ++ passed_on state.now message.now value via) (Some (passed_reply state.now message.now value)) result }
{
    let written = passed_text(alloc, state, message, value)?;
    let text = written.text.copy(alloc)?;
    let links = used_edits(alloc, used)?;
    let edits = joined(links, passed_on(alloc, state, message, value, via, text)?)?;
    accept(alloc, state, edits, Some(written))
}
