// Parts of messages that are read, and entries of the class table.
use crate::rows::add_rows;
use case_table::{Call, Table};
use csm_grammar::{
    Arrival, Form, KsmBody, Message, Need, ReadRefusal, Rsi, Service, Shut, Tag, class_table,
};
use csm_read::{read, read_arrival};
use std::alloc::Global;
use x_base::NoMemory;

/// A request with other bytes behind it.
const REQUEST: &[u8] = b"CSM(MCL/RSI RCV/BANKB ORG/BANKA SVR/KD EDC/6C5A 8EFC )CSM(";

/// A message with two data keys.
const TWO_KEYS: &[u8] =
    b"CSM(MCL/KSM RCV/BANKB ORG/BANKA KD/0123456789ABCDEe KD/0123456789abcdef CTP/007 MAC/00000000)";

fn request_calls(rsi: &Rsi) -> [Call; 4] {
    let receiver = rsi.receiver.bytes() == b"BANKB".as_slice();
    let originator = rsi.originator.bytes() == b"BANKA".as_slice();
    [
        Call::answer("receiver", receiver, true),
        Call::answer("originator", originator, true),
        Call::answer("service", rsi.service == Service::Kd, true),
        Call::answer("ultimate", rsi.ultimate.is_some(), false),
    ]
}

fn arrival_calls(arrival: &Arrival) -> [Call; 3] {
    let shut = arrival.parsed.shut == Shut::Edc(0x6C5A8EFC);
    let auth = arrival.auth() == b"CSM(MCL/RSI RCV/BANKB ORG/BANKA SVR/KD ".as_slice();
    let length = arrival.text.bytes().len();
    [
        Call::answer("shut", shut, true),
        Call::answer("auth", auth, true),
        Call::number("text", length as u64, 54),
    ]
}

fn arrival_rows(table: &mut Table, arrival: &Arrival) -> Result<(), NoMemory> {
    add_rows(table, &arrival_calls(arrival))?;
    match &arrival.parsed.message {
        Message::Rsi(rsi) => add_rows(table, &request_calls(rsi)),
        _ => table.row(&[Call::answer("a request", false, true)]),
    }
}

/// Two keys and the count of the first, where it is a key service message with two data keys.
fn keys_of(message: &Message) -> Option<(u64, u64, u64)> {
    let Message::Ksm(ksm) = message else {
        return None;
    };
    match &ksm.body {
        KsmBody::Twin {
            first,
            second,
            ctp,
            ..
        } => Some((*first, *second, ctp.value())),
        _ => None,
    }
}

fn two_key_rows(table: &mut Table, message: &Message) -> Result<(), NoMemory> {
    let Some((first, second, ctp)) = keys_of(message) else {
        return table.row(&[Call::answer("two keys", false, true)]);
    };
    let calls = [
        Call::number("first", first, 0x0123456789ABCDEE),
        Call::number("second", second, 0x0123456789ABCDEF),
        Call::number("ctp", ctp, 7),
    ];
    add_rows(table, &calls)
}

fn class_calls() -> [Call; 5] {
    let classes = class_table();
    let edc = classes.need(Form::F11, Tag::Edc) == Need::Optional;
    let key = classes.need(Form::F13, Tag::Kd) == Need::Required;
    let of_two = classes.times(Form::F13, Tag::Kd);
    let of_one = classes.times(Form::F5, Tag::Kd);
    let label = classes.times(Form::F13, Tag::Idk1);
    [
        Call::answer("EDC in form 11 is optional", edc, true),
        Call::answer("KD in form 13 is required", key, true),
        Call::number("KD in form 13", of_two.into(), 2),
        Call::number("KD in form 5", of_one.into(), 1),
        Call::number("IDK1 in form 13", label.into(), 0),
    ]
}

fn request_rows(alloc: Global, table: &mut Table) -> Result<(), NoMemory> {
    match read_arrival(alloc, REQUEST) {
        Ok(arrival) => arrival_rows(table, &arrival),
        Err(ReadRefusal::NoMemory) => Err(NoMemory),
        Err(_) => table.row(&[Call::answer("the request is read", false, true)]),
    }
}

fn key_rows(alloc: Global, table: &mut Table) -> Result<(), NoMemory> {
    match read(alloc, TWO_KEYS) {
        Ok(parsed) => two_key_rows(table, &parsed.message),
        Err(ReadRefusal::NoMemory) => Err(NoMemory),
        Err(_) => table.row(&[Call::answer("two keys are read", false, true)]),
    }
}

/// The parts of messages, and entries of the class table.
pub(crate) fn parts(alloc: Global, table: &mut Table) -> Result<(), NoMemory> {
    request_rows(alloc, table)?;
    key_rows(alloc, table)?;
    add_rows(table, &class_calls())
}
