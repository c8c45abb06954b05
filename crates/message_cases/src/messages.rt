// Messages of each form, to be written.
use crate::texts::text_of;
use csm_grammar::{
    Dsm, Ers, Esm, Extras, Ksm, KsmBody, Message, NewKk, Rfs, Rsi, Rsm, Rtr, Service,
};
use std::alloc::Global;
use x_base::{Count, Ident, KeyName, Label, NoMemory, Text};

/// The counts that most messages have.
#[derive(Clone, Copy)]
pub(crate) struct Counts {
    pub(crate) one: Count,
    two: Count,
    three: Count,
    last: Count,
}

/// The names and counts that the messages have.
#[derive(Clone, Copy)]
pub(crate) struct Names {
    banka: Ident,
    pub(crate) bankb: Ident,
    pub(crate) ckdx: Ident,
    pub(crate) cktx: Ident,
    k1: Label,
    k2: Label,
    pub(crate) key_of_bank: KeyName,
    key_of_centre: KeyName,
    pub(crate) counts: Counts,
}

fn ident(name: &[u8]) -> Option<Ident> {
    Ident::read(name).ok()
}

fn label(name: &[u8]) -> Option<Label> {
    Label::read(name).ok()
}

fn read_counts() -> Option<Counts> {
    Some(Counts {
        one: Count::of(1)?,
        two: Count::of(2)?,
        three: Count::of(3)?,
        last: Count::of(99_999_999_999_999)?,
    })
}

pub(crate) fn read_names() -> Option<Names> {
    Some(Names {
        banka: ident(b"BANKA")?,
        bankb: ident(b"BANKB")?,
        ckdx: ident(b"CKDX")?,
        cktx: ident(b"CKTX")?,
        k1: label(b"K1")?,
        k2: label(b"K2")?,
        key_of_bank: KeyName::read(b"BANKA.BANKA.K1.1").ok()?,
        key_of_centre: KeyName::read(b"CKDX.BANKB.K2.40").ok()?,
        counts: read_counts()?,
    })
}

pub(crate) fn no_extras() -> Extras {
    Extras {
        iv: None,
        edk: None,
        p: None,
    }
}

pub(crate) fn extras(alloc: Global, p: &[u8]) -> Result<Extras, NoMemory> {
    Ok(Extras {
        iv: Some(text_of(alloc, b"x")?),
        edk: Some(text_of(alloc, b"y")?),
        p: Some(text_of(alloc, p)?),
    })
}

/// A request to a bank, or to a centre for an ultimate recipient.
pub(crate) fn rsi(names: &Names, receiver: Ident, ultimate: Option<Ident>) -> Message {
    Message::Rsi(Rsi {
        receiver,
        originator: names.banka,
        service: Service::Kd,
        ultimate,
    })
}

pub(crate) fn rfs(names: &Names) -> Message {
    Message::Rfs(Rfs {
        receiver: names.cktx,
        originator: names.banka,
        ultimate: names.bankb,
        kd: 0xC2A5290756D949F4,
        cta: names.counts.one,
    })
}

/// An answer of a centre, with the key of the requester or without one.
pub(crate) fn rtr(names: &Names, originator: Ident, kd: Option<(u64, Count)>) -> Message {
    Message::Rtr(Rtr {
        receiver: names.banka,
        originator,
        ultimate: names.bankb,
        kd,
        kdu: 0x5A30EC553E7570DE,
        ctb: names.counts.one,
        extras: no_extras(),
    })
}

fn ksm(names: &Names, body: KsmBody, extras: Extras) -> Message {
    Message::Ksm(Ksm {
        receiver: names.bankb,
        originator: names.banka,
        body,
        extras,
    })
}

pub(crate) fn one_key(names: &Names) -> Message {
    let body = KsmBody::Direct {
        idk2: Some(names.k1),
        new: None,
        kd: 0xC2A5290756D949F4,
        ctp: names.counts.one,
    };
    ksm(names, body, no_extras())
}

pub(crate) fn with_double_key(names: &Names) -> Message {
    let pair = NewKk::Double(0x20E2F5F31394D5D9, 0xD8B9C215F0EE3FD9);
    let body = KsmBody::Direct {
        idk2: Some(names.k1),
        new: Some((names.k2, pair)),
        kd: 0x4D679520638F1F1A,
        ctp: names.counts.two,
    };
    ksm(names, body, no_extras())
}

pub(crate) fn with_single_key(names: &Names, extras: Extras) -> Message {
    let key = NewKk::Single(0x20E2F5F31394D5D9);
    let body = KsmBody::Direct {
        idk2: None,
        new: Some((names.k2, key)),
        kd: 0x4D679520638F1F1A,
        ctp: names.counts.last,
    };
    ksm(names, body, extras)
}

pub(crate) fn of_centre(names: &Names) -> Message {
    let body = KsmBody::Centre {
        centre: names.ckdx,
        kdu: 0x5A30EC553E7570DE,
        ctb: names.counts.one,
    };
    ksm(names, body, no_extras())
}

pub(crate) fn two_keys(names: &Names) -> Message {
    let body = KsmBody::Twin {
        idk2: Some(names.k1),
        first: 0x95109DA43EB39D13,
        second: 0xB31CCC37FC41E528,
        ctp: names.counts.three,
    };
    ksm(names, body, no_extras())
}

pub(crate) fn rsm(names: &Names, idd: Option<KeyName>, extras: Extras) -> Message {
    Message::Rsm(Rsm {
        receiver: names.banka,
        originator: names.bankb,
        idd,
        extras,
    })
}

pub(crate) fn ers(names: &Names, erf: Text) -> Message {
    Message::Ers(Ers {
        receiver: names.ckdx,
        originator: names.banka,
        ultimate: names.bankb,
        ctr: names.counts.three,
        erf,
    })
}

pub(crate) fn esm(names: &Names, erf: Text) -> Message {
    Message::Esm(Esm {
        receiver: names.banka,
        originator: names.bankb,
        erf,
        ctp: Count::of(1),
        cta: Count::of(20),
        ctb: Count::of(300),
        ctr: Count::of(4000),
    })
}

pub(crate) fn dsm(names: &Names) -> Message {
    Message::Dsm(Dsm {
        receiver: names.bankb,
        originator: names.banka,
        idd: names.key_of_bank,
        ida: Some(names.key_of_centre),
    })
}
