// Reading a payment.
ghost use Rattle.std.specs.Prelude.{◌≡◌, MatchOption, MatchResult};
ghost use Rattle.pay_auth.specs.Scanning.{IsScanned, StopsPay, IsWholePay, ident_field, name_form, count_field, mac_form, pay_form};
ghost use Rattle.pay_auth.specs.Texts.{IsNoPay, without_line_end};

use crate::pay::{Pay, PayParsed};
use crate::refusal::BadPay;
use crate::scanner::Scanner;
use x_base::{Count, Ident, KeyName};

impl<'a> Scanner<'a> {
    /// An identity behind its tag.
    fn ident_behind(&mut self, tag: &[u8]) -> Option<Ident>
        ensures { IsScanned (ident_field tag.now) self.old self.new result }
    {
        self.literal(tag)?;
        self.ident(b' ')
    }

    /// A count behind its tag.
    fn count_behind(&mut self, tag: &[u8]) -> Option<Count>
        ensures { IsScanned (count_field tag.now) self.old self.new result }
    {
        self.literal(tag)?;
        self.count(b' ')
    }

    /// A key name, and the blank behind it.
    fn name(&mut self) -> Option<KeyName>
        ensures { IsScanned name_form self.old self.new result }
    {
        let issuer = self.ident(b'.')?;
        let originator = self.ident(b'.')?;
        let label = self.label(b'.')?;
        let count = self.count(b' ')?;
        Some(KeyName {
            issuer,
            originator,
            label,
            count,
        })
    }

    /// All before the tag MAC.
    fn payment(&mut self) -> Option<Pay>
        ensures { IsScanned pay_form self.old self.new result }
    {
        let from = self.ident_behind(b"PAY(FROM/")?;
        let to = self.ident_behind(b"TO/")?;
        self.literal(b"KEY/")?;
        let key = self.name()?;
        let number = self.count_behind(b"NUM/")?;
        let amount = self.count_behind(b"AMT/")?;
        Some(Pay {
            from,
            to,
            key,
            number,
            amount,
        })
    }

    /// The code behind its tag.
    fn mac(&mut self) -> Option<u32>
        ensures { IsScanned mac_form self.old self.new result }
    {
        self.literal(b"MAC/")?;
        self.code(b')')
    }
}

/// The bytes without one LF at their end.
fn without_line_end(bytes: &[u8]) -> &[u8]
    ensures { result.now ≡ without_line_end bytes.now }
{
    let Some((last, front)) = bytes.split_last() else {
        return bytes;
    };
    if *last == b'\n' { front } else { bytes }
}

/// The payment in front of a scanner, with its code, where nothing is behind it; and how many bytes of it are authenticated.
fn whole(scanner: &mut Scanner<'_>) -> Option<PayParsed>
    ensures { MatchOption result (StopsPay scanner.old scanner.new) (λ r. IsWholePay scanner.old r.pay r.mac r.auth_len) }
{
    let all = scanner.len();
    let pay = scanner.payment()?;
    let auth_len = all - scanner.len();
    let mac = scanner.mac()?;
    if scanner.len() > 0 {
        return None;
    }
    Some(PayParsed { pay, mac, auth_len })
}

/// Reads the payment that is all of the bytes, without one LF at their end; it takes no memory. Comes with `BadPay` exactly
/// where they are none, and with the length of their longest prefix that is a prefix of a payment.
pub fn read_pay(bytes: &[u8]) -> Result<PayParsed, BadPay>
    ensures { MatchResult result (λ r. IsWholePay (without_line_end bytes.now) r.pay r.mac r.auth_len) (λ bad. IsNoPay (without_line_end bytes.now) bad.0) }
{
    let bytes = without_line_end(bytes);
    let mut scanner = Scanner::new(bytes);
    match whole(&mut scanner) {
        Some(parsed) => Ok(parsed),
        None => Err(BadPay((bytes.len() - scanner.len()) as u64)),
    }
}
