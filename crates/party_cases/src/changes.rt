// The edits of the tables of codes.
ghost use Rattle.std.specs.Prelude.{◌+◌, IfOk};
ghost use Rattle.x_base.specs.Count.{IsCount};
ghost use Rattle.party_tables.specs.Ranges.{IsFittingKind};
ghost use Rattle.party_state.specs.Ranges.{IsFitting};

use crate::names::{Names, names_of};
use party_state::{
    Answer, Edit, Exchange, KeyRec, KeyStatus, Kind, LinkRec, Role, Side, Via, name_behind,
};
use std::alloc::Global;
use x_base::{KeyName, Text};
use x_disk::DiskErr;
use x_gen::Gen;
use x_mac::Pair;

const PAIR: Pair = Pair {
    left: 0x0123456789ABCDEC,
    right: 0xFEDCBA9876543213,
};

/// The names of the table of edits.
pub(crate) fn names_of_edits() -> Option<Names> {
    names_of("BANKB", "K-2", "BANKA.BANKA.K1.7")
}

/// The edit of that row.
pub(crate) fn edit_of(row: usize, names: &Names) -> Edit
    ensures { IsFitting result }
{
    let Names { peer, label, name } = *names;
    match row {
        0 => Edit::Begin {
            own: peer,
            role: Role::Distribution,
            generator: Gen { key: PAIR, v: 1 },
        },
        1 => Edit::PutLink(LinkRec {
            peer,
            label,
            side: Side::Takes,
            pair: PAIR,
            next: 100_000_000_000_000,
            ready: true,
        }),
        2 => Edit::DropLink {
            peer,
            label,
            side: Side::Sends,
        },
        3 => Edit::PutKey(KeyRec {
            peer,
            name,
            value: 5,
            status: KeyStatus::Held,
        }),
        4 => Edit::DropEnded,
        5 => Edit::DropExchange { peer },
        6 => Edit::PutAnswer(Answer {
            requester: peer,
            ultimate: name.issuer,
            cta: name.count,
            value: 6,
        }),
        7 => Edit::SetGen(0x1122334455667788),
        _ => Edit::SetGen(1),
    }
}

fn via_of(row: usize, name: &KeyName) -> Via {
    let label = name.label;
    let centre = name.issuer;
    let cta = name.count;
    match row {
        3 => Via::Direct {
            label,
            new: Some(label),
        },
        4 => Via::Direct { label, new: None },
        5 => Via::Distribution { centre, cta },
        _ => Via::Translation { centre },
    }
}

fn kind_of(row: usize, name: &KeyName) -> Kind
    requires { IsCount (name.now.count + 1) }
    ensures { IsFittingKind result }
{
    let ultimate = name.originator;
    match row {
        0 => Kind::Asked { ultimate },
        1 => Kind::Translating {
            ultimate,
            value: 5,
            cta: name.count,
        },
        2 => Kind::Ending { name: *name },
        7 => Kind::PairSent { name: *name },
        _ => Kind::KeySent {
            name: *name,
            via: via_of(row, name),
        },
    }
}

/// The edit of that row of the table of exchanges.
pub(crate) fn exchange_of(alloc: Global, row: usize) -> Result<Edit, DiskErr>
    ensures { IfOk result IsFitting }
{
    let Some(Names { peer, name, .. }) = names_of("BANK", "K", "INST.ORIG.K.9") else {
        return Err(DiskErr::Fault);
    };
    if name_behind(&name).is_none() {
        return Err(DiskErr::Fault);
    }
    let mut text = Text::new(alloc);
    text.push(b"CS")?;
    let kind = kind_of(row, &name);
    Ok(Edit::PutExchange(Exchange { peer, kind, text }))
}
