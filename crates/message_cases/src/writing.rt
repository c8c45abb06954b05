// Messages that are written, of each form and with each closing. The codes were made by another program.
use crate::messages::{
    Names, dsm, ers, esm, extras, no_extras, of_centre, one_key, read_names, rfs, rsi, rsm, rtr,
    two_keys, with_double_key, with_single_key,
};
use crate::texts::text_of;
use case_table::{Call, Table};
use csm_grammar::{Message, Shut};
use csm_write::{Closing, write};
use std::alloc::Global;
use std::str::from_utf8;
use x_base::{NoMemory, Text};

/// The closing under the key for which the codes were made.
const MAC: Closing = Closing::Mac(0x7FD0388551613B61);

/// A closing with the digits of another code.
const STATED: Closing = Closing::Stated(Shut::Mac(0x1A2B3C4D));

/// A closing with the code under two keys.
const UNDER_BOTH: Closing = Closing::Stated(Shut::Mac(0xC29E05B6));

const NO_CODE: Closing = Closing::Stated(Shut::Edc(0));

fn written_text(alloc: Global, message: Message, closing: Closing) -> Result<Text, NoMemory> {
    write(alloc, &message, &closing)
}

fn add_row(
    alloc: Global,
    table: &mut Table,
    message: Message,
    closing: Closing,
    wanted: &str,
) -> Result<(), NoMemory> {
    let text = written_text(alloc, message, closing)?;
    table.text_row(
        "write",
        from_utf8(text.bytes()).unwrap_or("no text"),
        wanted,
    )
}

fn requests(alloc: Global, table: &mut Table, names: &Names) -> Result<(), NoMemory> {
    let text = "CSM(MCL/RSI RCV/BANKB ORG/BANKA SVR/KD EDC/6C5A8EFC)";
    let asked = rsi(names, names.bankb, None);
    add_row(alloc, table, asked, Closing::Edc, text)?;
    let text = "CSM(MCL/RSI RCV/CKDX ORG/BANKA SVR/KD IDU/BANKB EDC/EB2F5E53)";
    let asked = rsi(names, names.ckdx, Some(names.bankb));
    add_row(alloc, table, asked, Closing::Edc, text)?;
    let text = "CSM(MCL/RFS RCV/CKTX ORG/BANKA IDU/BANKB KD/C2A5290756D949F4 CTA/1 MAC/7BC5794E)";
    add_row(alloc, table, rfs(names), MAC, text)?;
    let text = "CSM(MCL/RTR RCV/BANKA ORG/CKTX IDU/BANKB KDU/5A30EC553E7570DE CTB/1 MAC/5A1E9BEC)";
    add_row(alloc, table, rtr(names, names.cktx, None), MAC, text)?;
    let text =
        "CSM(MCL/RTR RCV/BANKA ORG/CKDX IDU/BANKB KD/C2A5290756D949F4 KDU/5A30EC553E7570DE CTA/1 CTB/1 MAC/389355D2)";
    let kd = Some((0xC2A5290756D949F4, names.counts.one));
    add_row(alloc, table, rtr(names, names.ckdx, kd), MAC, text)
}

fn keys(alloc: Global, table: &mut Table, names: &Names) -> Result<(), NoMemory> {
    let text = "CSM(MCL/KSM RCV/BANKB ORG/BANKA IDK2/K1 KD/C2A5290756D949F4 CTP/1 MAC/8F270CC6)";
    add_row(alloc, table, one_key(names), MAC, text)?;
    let text =
        "CSM(MCL/KSM RCV/BANKB ORG/BANKA IDK1/K2 IDK2/K1 *KK/20E2F5F31394D5D9D8B9C215F0EE3FD9 KD/4D679520638F1F1A CTP/2 MAC/1B5F45AC)";
    add_row(alloc, table, with_double_key(names), MAC, text)?;
    let text =
        "CSM(MCL/KSM RCV/BANKB ORG/BANKA IDK1/K2 KK/20E2F5F31394D5D9 KD/4D679520638F1F1A CTP/99999999999999 IV/x EDK/y P/a.b-c* MAC/6ADD3A2A)";
    let extras = extras(alloc, b"a.b-c*")?;
    add_row(alloc, table, with_single_key(names, extras), MAC, text)?;
    let text = "CSM(MCL/KSM RCV/BANKB ORG/BANKA IDC/CKDX KDU/5A30EC553E7570DE CTB/1 MAC/583244FE)";
    add_row(alloc, table, of_centre(names), MAC, text)?;
    let text =
        "CSM(MCL/KSM RCV/BANKB ORG/BANKA IDK2/K1 KD/95109DA43EB39D13 KD/B31CCC37FC41E528 CTP/3 MAC/C29E05B6)";
    add_row(alloc, table, two_keys(names), UNDER_BOTH, text)
}

fn answers(alloc: Global, table: &mut Table, names: &Names) -> Result<(), NoMemory> {
    let text = "CSM(MCL/RSM RCV/BANKA ORG/BANKB MAC/1A2B3C4D)";
    let answer = rsm(names, None, no_extras());
    add_row(alloc, table, answer, STATED, text)?;
    let text = "CSM(MCL/RSM RCV/BANKA ORG/BANKB IDD/BANKA.BANKA.K1.1 IV/x EDK/y P/z MAC/DAE91B47)";
    let answer = rsm(names, Some(names.key_of_bank), extras(alloc, b"z")?);
    add_row(alloc, table, answer, MAC, text)?;
    let text =
        "CSM(MCL/DSM RCV/BANKB ORG/BANKA IDD/BANKA.BANKA.K1.1 IDA/CKDX.BANKB.K2.40 MAC/0BC9B6D6)";
    add_row(alloc, table, dsm(names), MAC, text)
}

fn errors(alloc: Global, table: &mut Table, names: &Names) -> Result<(), NoMemory> {
    let text = "CSM(MCL/ERS RCV/CKDX ORG/BANKA IDU/BANKB CTR/3 ERF/C MAC/6BB95327)";
    add_row(alloc, table, ers(names, text_of(alloc, b"C")?), MAC, text)?;
    let text =
        "CSM(MCL/ESM RCV/BANKA ORG/BANKB CTP/1 CTA/20 CTB/300 CTR/4000 ERF/C.F MAC/34E585FC)";
    add_row(alloc, table, esm(names, text_of(alloc, b"C.F")?), MAC, text)?;
    let text =
        "CSM(MCL/ESM RCV/BANKA ORG/BANKB CTP/1 CTA/20 CTB/300 CTR/4000 ERF/C.F EDC/AC7DE21B)";
    add_row(
        alloc,
        table,
        esm(names, text_of(alloc, b"C.F")?),
        Closing::Edc,
        text,
    )?;
    let text =
        "CSM(MCL/ESM RCV/BANKA ORG/BANKB CTP/1 CTA/20 CTB/300 CTR/4000 ERF/C.F EDC/00000000)";
    add_row(
        alloc,
        table,
        esm(names, text_of(alloc, b"C.F")?),
        NO_CODE,
        text,
    )
}

/// Messages that are written.
pub(crate) fn written(alloc: Global, table: &mut Table) -> Result<(), NoMemory> {
    let Some(names) = read_names() else {
        return table.row(&[Call::answer("the names are read", false, true)]);
    };
    requests(alloc, table, &names)?;
    keys(alloc, table, &names)?;
    answers(alloc, table, &names)?;
    errors(alloc, table, &names)
}
