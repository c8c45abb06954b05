// A payment, and what it answers.
use pay_auth::PayRefusal;
use std::str::from_utf8;
use x_base::{Count, Ident, KeyName, Text};

/// A payment of BANKA's, and what is told where it is taken in. Its code was made outside of this repository.
pub(crate) const PAYMENT: &str =
    "PAY(FROM/BANKA TO/BANKB KEY/BANKA.BANKA.K1.1 NUM/1 AMT/2500 MAC/89908F4E)";

const RECEIPT: &str = "PAID BANKA 1 2500";

/// What BANKB does.
#[derive(Clone, Copy)]
pub(crate) enum Payment {
    /// Pays 7 out to BANKA.
    Out,
    /// Takes BANKA's payment in.
    In,
}

/// The names in a payment of BANKB's to BANKA, and its amount.
#[derive(Clone, Copy)]
pub(crate) struct Names {
    pub(crate) own: Ident,
    pub(crate) peer: Ident,
    pub(crate) ledger: Ident,
    pub(crate) name: KeyName,
    pub(crate) amount: Count,
}

pub(crate) fn read_names() -> Option<Names> {
    Some(Names {
        own: Ident::read(b"BANKB").ok()?,
        peer: Ident::read(b"BANKA").ok()?,
        ledger: Ident::read(b"LEDB").ok()?,
        name: KeyName::read(b"BANKA.BANKA.K1.1").ok()?,
        amount: Count::of(7)?,
    })
}

/// What became of a payment.
#[derive(Clone, Copy)]
pub(crate) enum Answer {
    /// The number that it has, where it is paid out; 1 where it is taken in; or the expected one, where it is refused.
    Number(u64),
    /// A disk failed.
    Stopped,
    Otherwise,
}

/// The number of a payment of BANKB's.
fn number_of(text: &str) -> Option<u64> {
    let behind = text.strip_prefix("PAY(FROM/BANKB TO/BANKA KEY/BANKA.BANKA.K1.1 NUM/")?;
    let (number, _) = behind.split_once(" AMT/7 MAC/")?;
    number.parse::<u64>().ok()
}

/// The answer where a text is told.
pub(crate) fn told(payment: Payment, text: &Text) -> Answer {
    let text = from_utf8(text.bytes()).unwrap_or("");
    let number = match payment {
        Payment::In if text == RECEIPT => Some(1),
        Payment::In => None,
        Payment::Out => number_of(text),
    };
    match number {
        Some(number) => Answer::Number(number),
        None => Answer::Otherwise,
    }
}

/// The answer where a test fails.
pub(crate) fn refused(cause: PayRefusal) -> Answer {
    match cause {
        PayRefusal::PayLow(expected) => Answer::Number(expected),
        _ => Answer::Otherwise,
    }
}
