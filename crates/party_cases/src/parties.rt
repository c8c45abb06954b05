// A bank with rows of every kind, and what it is made of.
ghost use Rattle.std.specs.Prelude.{IfSome};
ghost use Rattle.party_tables.specs.Ranges.{IsFittingKind, IsNextCount};
ghost use Rattle.party_state.specs.Ranges.{IsFitting, IsNoBegin};

use party_state::{
    Answer, Edit, Exchange, KeyRec, KeyStatus, Kind, LinkRec, Role, Side, State, Via, first_state,
    name_behind,
};
use std::alloc::Global;
use x_base::{Count, Ident, KeyName, Label, Text};
use x_gen::Gen;
use x_mac::Pair;

pub(crate) const PAIR: Pair = Pair {
    left: 0x1122334455667788,
    right: 0x8877665544332211,
};

pub(crate) fn ident(name: &[u8]) -> Option<Ident> {
    Ident::read(name).ok()
}

pub(crate) fn label(name: &[u8]) -> Option<Label> {
    Label::read(name).ok()
}

pub(crate) fn name(bytes: &[u8]) -> Option<KeyName> {
    KeyName::read(bytes).ok()
}

/// The edit that puts a link with BANKB.
pub(crate) fn put_link(name: &[u8], side: Side, next: u64, ready: bool) -> Option<Edit>
    requires { IsNextCount next }
    ensures fitting { IfSome result IsFitting }
    ensures goes_on { IfSome result IsNoBegin }
{
    let peer = ident(b"BANKB")?;
    let label = label(name)?;
    Some(Edit::PutLink(LinkRec {
        peer,
        label,
        side,
        pair: PAIR,
        next,
        ready,
    }))
}

/// The edit that puts the record of a key that is shared with BANKB.
pub(crate) fn put_key(bytes: &[u8], status: KeyStatus) -> Option<Edit>
    ensures fitting { IfSome result IsFitting }
    ensures goes_on { IfSome result IsNoBegin }
{
    let peer = ident(b"BANKB")?;
    let name = name(bytes)?;
    Some(Edit::PutKey(KeyRec {
        peer,
        name,
        value: 0x0123456789ABCDEF,
        status,
    }))
}

/// The edit that puts an exchange without a text.
fn put_exchange(alloc: Global, peer: &[u8], kind: Kind) -> Option<Edit>
    requires { IsFittingKind kind }
    ensures fitting { IfSome result IsFitting }
    ensures goes_on { IfSome result IsNoBegin }
{
    let peer = ident(peer)?;
    Some(Edit::PutExchange(Exchange {
        peer,
        kind,
        text: Text::new(alloc),
    }))
}

/// The edit that puts an exchange in which a centre was asked for a key with this recipient.
pub(crate) fn put_asked(alloc: Global, peer: &[u8], ultimate: &[u8]) -> Option<Edit>
    ensures fitting { IfSome result IsFitting }
    ensures goes_on { IfSome result IsNoBegin }
{
    let ultimate = ident(ultimate)?;
    put_exchange(alloc, peer, Kind::Asked { ultimate })
}

fn put_translating(alloc: Global) -> Option<Edit>
    ensures fitting { IfSome result IsFitting }
    ensures goes_on { IfSome result IsNoBegin }
{
    let ultimate = ident(b"BANK-C")?;
    let cta = Count::of(12)?;
    let value = 5;
    let kind = Kind::Translating {
        ultimate,
        value,
        cta,
    };
    put_exchange(alloc, b"CKTX", kind)
}

fn put_sent(alloc: Global) -> Option<Edit>
    ensures fitting { IfSome result IsFitting }
    ensures goes_on { IfSome result IsNoBegin }
{
    let name = name(b"BANKA.BANKA.K1.7")?;
    let centre = ident(b"CKTX")?;
    let via = Via::Translation { centre };
    put_exchange(alloc, b"BANKB", Kind::KeySent { name, via })
}

fn put_pair(alloc: Global) -> Option<Edit>
    ensures fitting { IfSome result IsFitting }
    ensures goes_on { IfSome result IsNoBegin }
{
    let name = name(b"BANKA.BANKA.K1.10")?;
    name_behind(&name)?;
    put_exchange(alloc, b"BANKE", Kind::PairSent { name })
}

/// The edit that puts an exchange in which the key with this name ends.
pub(crate) fn put_ending(alloc: Global, peer: &[u8], bytes: &[u8]) -> Option<Edit>
    ensures fitting { IfSome result IsFitting }
    ensures goes_on { IfSome result IsNoBegin }
{
    let name = name(bytes)?;
    put_exchange(alloc, peer, Kind::Ending { name })
}

/// The edit that puts an answer.
pub(crate) fn put_answer(requester: &[u8], ultimate: &[u8], cta: u64) -> Option<Edit>
    ensures fitting { IfSome result IsFitting }
    ensures goes_on { IfSome result IsNoBegin }
{
    let requester = ident(requester)?;
    let ultimate = ident(ultimate)?;
    let cta = Count::of(cta)?;
    Some(Edit::PutAnswer(Answer {
        requester,
        ultimate,
        cta,
        value: 5,
    }))
}

pub(crate) fn begun(alloc: Global, own: &[u8], role: Role) -> Option<State> {
    let generator = Gen { key: PAIR, v: 1 };
    first_state(alloc, ident(own)?, role, generator).ok()
}

/// Does an edit more; none where there is no edit, or no memory for it.
pub(crate) fn add(state: &mut State, edit: Option<Edit>) -> Option<()>
    requires fitting { IfSome edit IsFitting }
    requires goes_on { IfSome edit IsNoBegin }
{
    state.edit(edit?).ok()
}

const KEYS: [(&[u8], KeyStatus); 5] = [
    (b"BANKA.BANKA.K1.007", KeyStatus::Pending),
    (b"BANKA.BANKA.K1.8", KeyStatus::Live),
    (b"BANKB.BANKB.K-2.8", KeyStatus::Held),
    (b"BANKA.BANKA.K1.9", KeyStatus::Closing),
    (b"CKDX.BANKA.C.10", KeyStatus::Ended),
];

fn add_keys(state: &mut State) -> Option<()> {
    for (bytes, status) in KEYS {
        add(state, put_key(bytes, status))?;
    }
    Some(())
}

fn add_every_kind(alloc: Global, state: &mut State) -> Option<()> {
    let sends = put_link(b"K1", Side::Sends, 100_000_000_000_000, true);
    add(state, sends)?;
    add(state, put_link(b"K-2", Side::Takes, 7, false))?;
    add_keys(state)?;
    add(state, put_asked(alloc, b"CKDX", b"BANK-C"))?;
    add(state, put_translating(alloc))?;
    add(state, put_sent(alloc))?;
    add(state, put_ending(alloc, b"BANKD", b"BANKA.BANKA.K1.9"))?;
    add(state, put_pair(alloc))?;
    add(state, put_answer(b"BANKB", b"BANK-C", 3))?;
    add(state, put_answer(b"BANK-C", b"BANKB", 4))
}

/// The bank with rows of every kind.
pub(crate) fn whole(alloc: Global) -> Option<State> {
    let mut state = begun(alloc, b"BANKA", Role::Bank)?;
    add_every_kind(alloc, &mut state)?;
    Some(state)
}
