// Writing payments and receipts.
ghost use Rattle.std.specs.Prelude.{◌≡◌, ◌++◌, codes, IfOk, OnOk};
ghost use Rattle.std.specs.Fmt.{decimal};
ghost use Rattle.x_base.specs.KeyName.{written};
ghost use Rattle.x_mac.specs.Code.{mac_of};
ghost use Rattle.csm_write.specs.Canon.{code_digits};
ghost use Rattle.pay_auth.specs.Texts.{pay_auth_text, pay_text};
ghost use Rattle.pay_auth.specs.Decisions.{receipt};

use crate::pay::Pay;
use csm_write::code_digits;
use itoa::Buffer;
use std::alloc::Global;
use x_base::{Count, NoMemory, Text};
use x_mac::mac;

/// As many bytes as a payment has at most, and more.
const ROOM: usize = 192;

/// A value behind the bytes in front of it.
fn put_field(out: &mut Text, front: &[u8], value: &[u8]) -> Result<(), NoMemory>
    ensures { OnOk result (out.new ≡ out.old ++ (front.now ++ value.now)) }
{
    out.push(front)?;
    out.push(value)
}

/// A count in decimal digits behind the bytes in front of it.
fn put_count(out: &mut Text, front: &[u8], count: &Count) -> Result<(), NoMemory>
    ensures { OnOk result (out.new ≡ out.old ++ (front.now ++ decimal count.now)) }
{
    let mut digits = Buffer::new();
    put_field(out, front, digits.format(count.value()).as_bytes())
}

/// The parties of a payment and its key, each behind its tag.
fn put_parties(out: &mut Text, pay: &Pay) -> Result<(), NoMemory>
    ensures { OnOk result (out.new ≡ out.old ++ (codes "PAY(FROM/" ++ (pay.now.from ++ (codes " TO/" ++ (pay.now.to ++ (codes " KEY/" ++ written pay.now.key)))))) }
{
    put_field(out, b"PAY(FROM/", pay.from.bytes())?;
    put_field(out, b" TO/", pay.to.bytes())?;
    out.push(b" KEY/")?;
    pay.key.write(out)
}

/// The authenticated text of a payment.
fn put_auth(out: &mut Text, pay: &Pay) -> Result<(), NoMemory>
    ensures { OnOk result (out.new ≡ out.old ++ pay_auth_text pay.now) }
{
    put_parties(out, pay)?;
    put_count(out, b" NUM/", &pay.number)?;
    put_count(out, b" AMT/", &pay.amount)?;
    out.push(b" ")
}

/// The code of a payment, and its end.
fn put_code(out: &mut Text, code: u32) -> Result<(), NoMemory>
    ensures { OnOk result (out.new ≡ out.old ++ (codes "MAC/" ++ (code_digits code ++ codes ")"))) }
{
    put_field(out, b"MAC/", &code_digits(code))?;
    out.push(b")")
}

/// The text of a payment, with its code under a key of 64 bits, without LF.
pub fn write_pay(alloc: Global, pay: &Pay, key: u64) -> Result<Text, NoMemory>
    ensures { IfOk result (λ text. text ≡ pay_text pay.now (mac_of key (pay_auth_text pay.now))) }
{
    let mut out = Text::with_capacity(alloc, ROOM)?;
    put_auth(&mut out, pay)?;
    let code = mac(key, out.bytes());
    put_code(&mut out, code)?;
    Ok(out)
}

/// What is told of a payment that is taken in.
pub(crate) fn write_receipt(alloc: Global, pay: &Pay) -> Result<Text, NoMemory>
    ensures { IfOk result (λ text. text ≡ receipt pay.now) }
{
    let mut out = Text::new(alloc);
    put_field(&mut out, b"PAID ", pay.from.bytes())?;
    put_count(&mut out, b" ", &pay.number)?;
    put_count(&mut out, b" ", &pay.amount)?;
    Ok(out)
}
