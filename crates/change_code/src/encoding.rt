// Writing the code of a change.
ghost use Rattle.std.specs.Prelude.{◌≡◌, ◌≤◌, ◌<◌, ◌+◌, ◌++◌, ◌∷◌, length, drop, OnOk, IfOk};
ghost use Rattle.party_tables.specs.Ranges.{longest_text};
ghost use Rattle.party_state.specs.Ranges.{IsFitting, AreFitting};
ghost use Rattle.party_state.specs.declared.edit.Edit.TheVariants.{Begin, DropExchange, DropLink, PutAnswer, PutExchange, PutKey, PutLink, SetGen};
ghost use Rattle.change_code.specs.Code.{IsCode, two, via_code, kind_code, edit_code, edits_code, number_of, closing, code_of_change, most_edits};

use crate::edit_code::EditCode;
use crate::format::Format;
use crate::room::room_behind;
use crate::writing::{
    put_flag, put_generator, put_half_word, put_ident, put_label, put_maybe, put_name, put_pair,
    put_role, put_side, put_status, put_word,
};
use party_state::{Answer, Change, Edit, Exchange, KeyRec, Kind, LinkRec, Via};
use std::alloc::Global;
use x_base::{Ident, Label, NoMemory, Role, Side, Text};
use x_gen::Gen;
use x_mac::edc;

fn put_via(out: &mut EditCode, via: &Via)
    requires room { length out.old + 36 ≤ 128 }
    ensures code { out.new ≡ out.old ++ via_code via.now }
    ensures most { length out.new ≤ length out.old + 36 }
{
    match via {
        Via::Direct { label, new } => {
            out.put_byte(1);
            put_label(out, label);
            put_maybe(out, *new);
        }
        Via::Distribution { centre, cta } => {
            out.put_byte(2);
            put_ident(out, centre);
            put_word(out, cta.value());
        }
        Via::Translation { centre } => {
            out.put_byte(3);
            put_ident(out, centre);
        }
    }
}

fn put_kind(out: &mut EditCode, kind: &Kind)
    requires room { length out.old + 96 ≤ 128 }
    ensures code { out.new ≡ out.old ++ kind_code kind.now }
    ensures most { length out.new ≤ length out.old + 96 }
{
    match kind {
        Kind::Asked { ultimate } => {
            out.put_byte(1);
            put_ident(out, ultimate);
        }
        Kind::Translating {
            ultimate,
            value,
            cta,
        } => {
            out.put_byte(2);
            put_ident(out, ultimate);
            put_word(out, *value);
            put_word(out, cta.value());
        }
        Kind::KeySent { name, via } => {
            out.put_byte(3);
            put_name(out, name);
            put_via(out, via);
        }
        Kind::Ending { name } => {
            out.put_byte(4);
            put_name(out, name);
        }
        Kind::PairSent { name } => {
            out.put_byte(5);
            put_name(out, name);
        }
    }
}

/// The party begins.
pub(crate) fn put_begin(
    out: &mut Text,
    own: &Ident,
    role: Role,
    generator: Gen,
) -> Result<(), NoMemory>
    ensures { OnOk result (out.new ≡ out.old ++ edit_code (Begin own.now role generator)) }
{
    let mut code = EditCode::new();
    code.put_byte(1);
    put_ident(&mut code, own);
    put_role(&mut code, role);
    put_generator(&mut code, generator);
    out.push(code.bytes())
}

/// A link that is put.
pub(crate) fn put_link_edit(out: &mut Text, link: &LinkRec) -> Result<(), NoMemory>
    ensures { OnOk result (out.new ≡ out.old ++ edit_code (PutLink link.now)) }
{
    let mut code = EditCode::new();
    code.put_byte(2);
    put_ident(&mut code, &link.peer);
    put_label(&mut code, &link.label);
    put_side(&mut code, link.side);
    put_pair(&mut code, link.pair);
    put_word(&mut code, link.next);
    put_flag(&mut code, link.ready);
    out.push(code.bytes())
}

fn put_drop_link(out: &mut Text, peer: &Ident, label: &Label, side: Side) -> Result<(), NoMemory>
    ensures { OnOk result (out.new ≡ out.old ++ edit_code (DropLink peer.now label.now side)) }
{
    let mut code = EditCode::new();
    code.put_byte(3);
    put_ident(&mut code, peer);
    put_label(&mut code, label);
    put_side(&mut code, side);
    out.push(code.bytes())
}

/// A key that is put.
pub(crate) fn put_key_edit(out: &mut Text, key: &KeyRec) -> Result<(), NoMemory>
    ensures { OnOk result (out.new ≡ out.old ++ edit_code (PutKey key.now)) }
{
    let mut code = EditCode::new();
    code.put_byte(4);
    put_ident(&mut code, &key.peer);
    put_name(&mut code, &key.name);
    put_word(&mut code, key.value);
    put_status(&mut code, key.status);
    out.push(code.bytes())
}

/// An exchange that is put.
pub(crate) fn put_exchange_edit(out: &mut Text, exchange: &Exchange) -> Result<(), NoMemory>
    requires { length exchange.now.text ≤ longest_text }
    ensures { OnOk result (out.new ≡ out.old ++ edit_code (PutExchange exchange.now)) }
{
    let mut code = EditCode::new();
    code.put_byte(6);
    put_ident(&mut code, &exchange.peer);
    put_kind(&mut code, &exchange.kind);
    put_half_word(&mut code, exchange.text.bytes().len() as u16);
    out.push(code.bytes())?;
    out.push(exchange.text.bytes())
}

fn put_drop_exchange(out: &mut Text, peer: &Ident) -> Result<(), NoMemory>
    ensures { OnOk result (out.new ≡ out.old ++ edit_code (DropExchange peer.now)) }
{
    let mut code = EditCode::new();
    code.put_byte(7);
    put_ident(&mut code, peer);
    out.push(code.bytes())
}

/// An answer that is put.
pub(crate) fn put_answer_edit(out: &mut Text, answer: &Answer) -> Result<(), NoMemory>
    ensures { OnOk result (out.new ≡ out.old ++ edit_code (PutAnswer answer.now)) }
{
    let mut code = EditCode::new();
    code.put_byte(8);
    put_ident(&mut code, &answer.requester);
    put_ident(&mut code, &answer.ultimate);
    put_word(&mut code, answer.cta.value());
    put_word(&mut code, answer.value);
    out.push(code.bytes())
}

fn put_set_gen(out: &mut Text, v: u64) -> Result<(), NoMemory>
    ensures { OnOk result (out.new ≡ out.old ++ edit_code (SetGen v)) }
{
    let mut code = EditCode::new();
    code.put_byte(9);
    put_word(&mut code, v);
    out.push(code.bytes())
}

fn put_edit(out: &mut Text, edit: &Edit) -> Result<(), NoMemory>
    requires { IsFitting edit.now }
    ensures { OnOk result (out.new ≡ out.old ++ edit_code edit.now) }
{
    match edit {
        Edit::Begin {
            own,
            role,
            generator,
        } => put_begin(out, own, *role, *generator),
        Edit::PutLink(link) => put_link_edit(out, link),
        Edit::DropLink { peer, label, side } => put_drop_link(out, peer, label, *side),
        Edit::PutKey(key) => put_key_edit(out, key),
        Edit::DropEnded => out.push(&[5]),
        Edit::PutExchange(exchange) => put_exchange_edit(out, exchange),
        Edit::DropExchange { peer } => put_drop_exchange(out, peer),
        Edit::PutAnswer(answer) => put_answer_edit(out, answer),
        Edit::SetGen(v) => put_set_gen(out, *v),
    }
}

/// The most edits of a change that has a code.
pub const MOST_EDITS: u16 = 65_535;

fn put_edits(out: &mut Text, change: &Change) -> Result<(), NoMemory>
    requires { AreFitting change.now }
    ensures { OnOk result (out.new ≡ out.old ++ edits_code change.now) }
{
    for i in 0..change.len() {
        match change.edit_at(i) {
            Some(edit) => put_edit(out, edit)?,
            None => unreachable!(),
        }
    }
    Ok(())
}

/// Bytes, and behind them the number of a format and how many edits come, in a text with so much room.
pub(crate) fn headed(
    alloc: Global,
    room: usize,
    front: &[u8],
    format: Format,
    edits: u16,
) -> Result<Text, NoMemory>
    ensures { IfOk result (λ text. text ≡ front.now ++ (number_of format ∷ two edits)) }
{
    let mut code = EditCode::new();
    code.put_byte(format.number());
    put_half_word(&mut code, edits);
    let mut out = Text::with_capacity(alloc, room)?;
    out.push(front)?;
    out.push(code.bytes())?;
    Ok(out)
}

/// Closes the text that stands behind so many bytes.
#[tactic(auto, unfolding(crate::specs::Code::four))]
pub(crate) fn put_closing(out: &mut Text, front: usize, format: Format) -> Result<(), NoMemory>
    requires { front ≤ length out.old }
    ensures { OnOk result (out.new ≡ out.old ++ closing format (drop front out.old)) }
{
    match format {
        Format::One => Ok(()),
        Format::Two => {
            let code = edc(&out.bytes()[front..]);
            out.push(&code.to_be_bytes())
        }
    }
}

/// Bytes, and behind them the code in a format of a change of at most 65,535 edits, in which each `next` is from 1 to 10^14,
/// each text has at most 1,024 bytes, and the count of a `PairSent` is below `LIMIT`.
pub fn encode_behind(
    alloc: Global,
    front: &[u8],
    format: Format,
    change: &Change,
) -> Result<Text, NoMemory>
    requires few { length change.now ≤ most_edits }
    requires fitting { AreFitting change.now }
    ensures code { IfOk result (λ text. text ≡ front.now ++ code_of_change format change.now) }
    ensures is_code { IsCode format (code_of_change format change.now) change.now }
{
    change.law_in_range();
    let room = room_behind(front.len(), change);
    let mut out = headed(alloc, room, front, format, change.len() as u16)?;
    put_edits(&mut out, change)?;
    put_closing(&mut out, front.len(), format)?;
    Ok(out)
}
