// What the types of a row's parts fix, stated by calls that do nothing.
ghost use Rattle.x_base.specs.Count.{IsCount};
ghost use Rattle.x_base.specs.KeyName.{IsKeyName};
ghost use Rattle.x_base.specs.Names.{IsIdent, IsLabel};
ghost use Rattle.party_tables.specs.Ranges.{IsPair, IsNextCount, IsLink, IsRecord, IsVia, IsKind, IsFittingKind, IsExchange, IsFittingExchange, IsCentreAnswer};

use crate::answer::Answer;
use crate::exchange::{Exchange, Kind, Via};
use crate::key::KeyRec;
use crate::link::LinkRec;
use x_base::{Count, Ident, KeyName, Label};
use x_mac::Pair;

/// An identity. It does nothing.
pub fn law_ident(ident: &Ident)
    ensures { IsIdent ident.now }
{
    ident.bytes();
}

/// A label. It does nothing.
pub fn law_label(label: &Label)
    ensures { IsLabel label.now }
{
    label.bytes();
}

fn law_count(count: &Count)
    ensures { IsCount count.now }
{
    count.value();
}

/// A pair. It does nothing.
pub fn law_pair(pair: &Pair)
    ensures { IsPair pair.now }
{
    let _left = pair.left;
    let _right = pair.right;
}

fn law_name(name: &KeyName)
    ensures { IsKeyName name.now }
{
    law_ident(&name.issuer);
    law_ident(&name.originator);
    law_label(&name.label);
    law_count(&name.count);
}

/// A link. It does nothing.
pub fn law_link(link: &LinkRec)
    ensures { IsNextCount link.now.next → IsLink link.now }
{
    law_ident(&link.peer);
    law_label(&link.label);
    law_pair(&link.pair);
}

/// A key record. It does nothing.
pub fn law_record(key: &KeyRec)
    ensures { IsRecord key.now }
{
    law_ident(&key.peer);
    law_name(&key.name);
    let _value = key.value;
}

fn law_via(via: &Via)
    ensures { IsVia via.now }
{
    match via {
        Via::Direct { label, new } => {
            law_label(label);
            if let Some(new) = new {
                law_label(new);
            }
        }
        Via::Distribution { centre, cta } => {
            law_ident(centre);
            law_count(cta);
        }
        Via::Translation { centre } => {
            law_ident(centre);
        }
    }
}

fn law_kind(kind: &Kind)
    ensures { IsFittingKind kind.now → IsKind kind.now }
{
    match kind {
        Kind::Asked { ultimate } => {
            law_ident(ultimate);
        }
        Kind::Translating {
            ultimate,
            value,
            cta,
        } => {
            law_ident(ultimate);
            let _value = *value;
            law_count(cta);
        }
        Kind::KeySent { name, via } => {
            law_name(name);
            law_via(via);
        }
        Kind::Ending { name } | Kind::PairSent { name } => law_name(name),
    }
}

/// An exchange. It does nothing.
pub fn law_exchange(exchange: &Exchange)
    ensures { IsFittingExchange exchange.now → IsExchange exchange.now }
{
    law_ident(&exchange.peer);
    law_kind(&exchange.kind);
}

/// An answer. It does nothing.
pub fn law_answer(answer: &Answer)
    ensures { IsCentreAnswer answer.now }
{
    law_ident(&answer.requester);
    law_ident(&answer.ultimate);
    law_count(&answer.cta);
    let _value = answer.value;
}
