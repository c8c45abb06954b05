// A payment is taken in.
ghost use Rattle.std.specs.Prelude.{◌≡◌, Some, None, IfOk, IfErr, OnOk};
ghost use Rattle.pay_auth.specs.Decisions.{in_refusal, number_refusal, PassesIn, RefusesIn, TakesIn};
ghost use Rattle.pay_auth.specs.Texts.{pay_auth_text};
ghost use Rattle.pay_auth.specs.Turns.{IsPayTurn};

use crate::entries::Entries;
use crate::entry::{Entry, EntryKey};
use crate::ledger::Ledger;
use crate::live::live_value;
use crate::pay::{Pay, PayParsed};
use crate::reading::read_pay;
use crate::refusal::{BadPay, PayRefusal};
use crate::turn::PayTurn;
use crate::writing::write_receipt;
use party_state::State;
use std::alloc::Global;
use x_base::{LIMIT, Side};
use x_disk::Disk;
use x_mac::mac;

/// Whether each test of a payment holds; or the first that fails. `auth` is the authenticated text.
fn test_pay(
    state: &State,
    entries: &Entries,
    parsed: &PayParsed,
    auth: &[u8],
) -> Result<(), PayRefusal>
    requires { auth.now ≡ pay_auth_text parsed.now.pay }
    ensures passes { OnOk result (in_refusal state.now entries.now parsed.now.pay parsed.now.mac ≡ None) }
    ensures fails { IfErr result (λ cause. in_refusal state.now entries.now parsed.now.pay parsed.now.mac ≡ Some cause) }
{
    let pay = &parsed.pay;
    let own = state.own();
    if pay.to != own || pay.from == own {
        return Err(PayRefusal::NotForMe);
    }
    let Some(value) = live_value(state, &pay.from, &pay.key) else {
        return Err(PayRefusal::UnknownKey);
    };
    if mac(value, auth) != parsed.mac {
        return Err(PayRefusal::BadMac);
    }
    test_number(entries, pay)
}

/// Whether the number of a payment is above the last one, and there is place for its entry.
fn test_number(entries: &Entries, pay: &Pay) -> Result<(), PayRefusal>
    ensures passes { OnOk result (number_refusal entries.now pay.now ≡ None) }
    ensures fails { IfErr result (λ cause. number_refusal entries.now pay.now ≡ Some cause) }
{
    let key = EntryKey {
        peer: pay.from,
        name: pay.key,
        side: Side::Takes,
    };
    let last = entries.last(&key);
    if last == LIMIT {
        return Err(PayRefusal::CountSpent);
    }
    if pay.number.value() <= last {
        return Err(PayRefusal::PayLow(last + 1));
    }
    if entries.is_full_for(&key) {
        return Err(PayRefusal::LedgerFull);
    }
    Ok(())
}

/// The payment that the bytes spell, where no test fails; or the first that fails.
fn tested(state: &State, entries: &Entries, bytes: &[u8]) -> Result<Pay, PayRefusal>
    ensures passes { IfOk result (λ pay. PassesIn state.now bytes.now entries.now pay) }
    ensures fails { IfErr result (RefusesIn state.now bytes.now entries.now) }
{
    let parsed = match read_pay(bytes) {
        Ok(parsed) => parsed,
        Err(BadPay(place)) => return Err(PayRefusal::BadPay(place)),
    };
    test_pay(state, entries, &parsed, &bytes[..parsed.auth_len])?;
    Ok(parsed.pay)
}

impl<D: Disk> Ledger<D> {
    /// Takes a payment in: keeps its number, and then hands out `PAID`, who paid, the number and the amount. The tests are,
    /// in this order: 46 where the bytes, without one LF at their end, are no payment; 21 where it is for another party or
    /// from this one; 27 where its key isn't live or held; 28 where its code differs; 31 where the key's numbers are spent;
    /// 47 where the number isn't above the last one; 48 where an entry is needed and the ledger has as many as it can have.
    pub fn accept(self, alloc: Global, state: &State, bytes: &[u8]) -> PayTurn<D>
        ensures { IsPayTurn D.told self (RefusesIn state.now bytes.now) (TakesIn state.now bytes.now) result }
    {
        let pay = match tested(state, self.standing.state(), bytes) {
            Ok(pay) => pay,
            Err(cause) => {
                return PayTurn::Refused {
                    ledger: self,
                    cause,
                };
            }
        };
        let Ok(out) = write_receipt(alloc, &pay) else {
            return PayTurn::NoMemory(self);
        };
        let entry = Entry {
            peer: pay.from,
            name: pay.key,
            side: Side::Takes,
            last: pay.number,
        };
        self.keep(alloc, entry, out)
    }
}
