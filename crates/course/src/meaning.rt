// What is to be done at a line.
ghost use Rattle.std.specs.Prelude.{◌≡◌, ◌-◌, List, ℕ, true, false, Some, IfNone, IfSome, IfOk, OnErr, option_map, slice_get};
ghost use Rattle.x_base.specs.Names.{IsIdent, IsLabel};
ghost use Rattle.world_laws.specs.Events.{IsCommand};
ghost use Rattle.course.specs.LineEvents.{IsNoEvent, text_back};
ghost use Rattle.course.specs.Parts.{HasLineEvent};
ghost use Rattle.course.specs.Meanings.{HeardOf, IsLineAct, IsNoOrder, arriving, is_arrival, order_in};

use crate::act::LineAct;
use crate::arriving::{arrived, input_bytes, returned};
use csm_feed::{Unheard, hear};
use csm_grammar::Arrival;
use fact_book::Texts;
use party_state::{Command, Input};
use scenario::Line;
use std::alloc::Global;
use world_laws::law_hearing;
use x_base::{Ident, Label, NoMemory};

fn start_kk(peer: &Ident, label: &Label, new: &Label, single: bool) -> Command
    ensures command { result ≡ Command.StartKk peer.now (Some label.now) new.now single }
    ensures formed { IsLabel new.now }
{
    new.bytes();
    Command::StartKk {
        peer: *peer,
        label: Some(*label),
        new: *new,
        single,
    }
}

fn translate(centre: &Ident, ultimate: &Ident) -> Command
    ensures command { result ≡ Command.Translate centre.now ultimate.now }
    ensures formed { IsIdent ultimate.now }
{
    ultimate.bytes();
    Command::Translate {
        centre: *centre,
        ultimate: *ultimate,
    }
}

fn start(peer: &Ident, label: &Option<Label>) -> Command
    ensures { result ≡ Command.Start peer.now label.now }
{
    Command::Start {
        peer: *peer,
        label: *label,
    }
}

fn ask(peer: &Ident, ultimate: &Option<Ident>) -> Command
    ensures { result ≡ Command.Ask peer.now ultimate.now }
{
    Command::Ask {
        peer: *peer,
        ultimate: *ultimate,
    }
}

/// The party and its command, of a line that gives one.
fn order_of(line: &Line) -> Option<(Ident, Command)>
    ensures order { result ≡ order_in line.now }
    ensures formed { IfSome result (λ order. IsCommand order.1) }
    ensures none { IfNone result (IsNoOrder line.now) }
{
    match line {
        Line::Start { party, peer, label } => Some((*party, start(peer, label))),
        Line::StartKk {
            party,
            peer,
            label,
            new,
            single,
        } => Some((*party, start_kk(peer, label, new, *single))),
        Line::Ask {
            party,
            peer,
            ultimate,
        } => Some((*party, ask(peer, ultimate))),
        Line::Translate {
            party,
            centre,
            ultimate,
        } => Some((*party, translate(centre, ultimate))),
        Line::Resend { party, peer } => Some((*party, Command::Resend { peer: *peer })),
        Line::End { party, peer, name } => Some((
            *party,
            Command::End {
                peer: *peer,
                name: *name,
            },
        )),
        Line::Drop { party, peer } => Some((*party, Command::Drop { peer: *peer })),
        Line::Purge { party } => Some((*party, Command::Purge)),
        _ => None,
    }
}

/// The `k`-th text, from 1.
fn text_of(texts: &Texts, k: u32) -> Option<&[u8]>
    ensures { option_map (λ t. t.now) result ≡ slice_get texts.now (k - 1) }
{
    texts.get(k.saturating_sub(1) as usize)
}

/// The `j`-th text, counted back from the last one, from 1.
fn text_back(texts: &Texts, j: u32) -> Option<&[u8]>
    ensures { option_map (λ t. t.now) result ≡ text_back j texts.now }
{
    let j = j as usize;
    if j <= texts.len() {
        texts.get(texts.len() - j)
    } else {
        None
    }
}

/// Whether bytes may arrive at a line.
fn is_arrival(line: &Line) -> bool
    ensures value { result ≡ is_arrival line.now }
    ensures none { result ≡ false → IsNoOrder line.now → IsNoEvent line.now }
{
    matches!(
        line,
        Line::Pass { .. } | Line::Recent { .. } | Line::Bytes { .. }
    )
}

/// The bytes that arrive at a line, if there are any, where these texts were written.
fn bytes_at<'a>(texts: &'a Texts, line: &'a Line) -> Option<&'a [u8]>
    ensures { option_map (λ b. b.now) result ≡ arriving line.now texts.now }
{
    match line {
        Line::Pass { k, .. } => text_of(texts, *k),
        Line::Recent { j } => text_back(texts, *j),
        Line::Bytes { bytes, .. } => Some(bytes.bytes()),
        _ => None,
    }
}

/// What is to be done at a line, where this is heard of the bytes that arrive.
fn act_of(line: &Line, heard: Result<Arrival, Unheard>) -> LineAct
    requires { is_arrival line.now ≡ true }
    ensures { (texts : List (List ℕ)) (bytes : List ℕ) → arriving line.now texts ≡ Some bytes → HeardOf bytes heard → IsLineAct line.now texts result }
{
    match line {
        Line::Pass { party, .. } => arrived(party, heard),
        Line::Bytes { party, .. } => arrived(party, heard),
        Line::Recent { .. } => returned(heard),
        _ => unreachable!(),
    }
}

/// What is heard of the first bytes, as many as an input may have.
fn hear_front(alloc: Global, bytes: &[u8]) -> Result<Result<Arrival, Unheard>, NoMemory>
    ensures { IfOk result (λ heard. HeardOf bytes.now heard) }
{
    hear(alloc, input_bytes(bytes))
}

/// What is to be done at a line, where these texts were written; nothing is answered of a line that is no event.
pub fn act_at(alloc: Global, line: &Line, texts: &Texts) -> Result<Option<LineAct>, NoMemory>
    ensures meant { IfOk result (λ o. IfSome o (λ act. IsLineAct line.now texts.now act)) }
    ensures none { IfOk result (λ o. IfNone o (IsNoEvent line.now)) }
    ensures makes_event { OnErr result (HasLineEvent line.now texts.now) }
{
    law_hearing();
    if let Some((party, command)) = order_of(line) {
        return Ok(Some(LineAct::Give {
            party,
            input: Input::Ordered(command),
        }));
    }
    if !is_arrival(line) {
        return Ok(None);
    }
    let Some(bytes) = bytes_at(texts, line) else {
        return Ok(Some(LineAct::Nothing));
    };
    let heard = hear_front(alloc, bytes)?;
    Ok(Some(act_of(line, heard)))
}
