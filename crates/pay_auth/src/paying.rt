// A payment is paid out.
ghost use Rattle.std.specs.Prelude.{◌≡◌, Some, None, IfOk, IfErr};
ghost use Rattle.pay_auth.specs.Decisions.{live_value, out_refusal, out_pay, RefusesOut, PaysOut};
ghost use Rattle.pay_auth.specs.Turns.{IsPayTurn};

use crate::entries::Entries;
use crate::entry::{Entry, EntryKey};
use crate::ledger::Ledger;
use crate::live::live_value;
use crate::pay::Pay;
use crate::refusal::PayRefusal;
use crate::turn::PayTurn;
use crate::writing::write_pay;
use party_state::State;
use std::alloc::Global;
use x_base::{Count, Ident, KeyName, Side};
use x_disk::Disk;

/// The payment that comes next, and the value of its key; or the first test that fails.
fn next_pay(
    state: &State,
    entries: &Entries,
    peer: &Ident,
    name: &KeyName,
    amount: Count,
) -> Result<(Pay, u64), PayRefusal>
    ensures passes { IfOk result (λ p. (out_refusal state.now entries.now peer.now name.now ≡ None) × (p.0 ≡ out_pay state.now entries.now peer.now name.now amount) × (live_value peer.now name.now state.now ≡ Some p.1)) }
    ensures fails { IfErr result (λ cause. out_refusal state.now entries.now peer.now name.now ≡ Some cause) }
{
    let Some(value) = live_value(state, peer, name) else {
        return Err(PayRefusal::UnknownKey);
    };
    let key = EntryKey {
        peer: *peer,
        name: *name,
        side: Side::Sends,
    };
    let Some(number) = Count::of(entries.last(&key) + 1) else {
        return Err(PayRefusal::CountSpent);
    };
    if entries.is_full_for(&key) {
        return Err(PayRefusal::LedgerFull);
    }
    let pay = Pay {
        from: state.own(),
        to: *peer,
        key: *name,
        number,
        amount,
    };
    Ok((pay, value))
}

impl<D: Disk> Ledger<D> {
    /// Pays an amount to a peer under a key that is live or held: keeps the number of the payment, which is the one behind the last,
    /// and then hands its text out. The tests are, in this order: 27 where the key isn't live or held, 31 where its numbers
    /// are spent, 48 where an entry is needed and the ledger has as many as it can have.
    pub fn pay(
        self,
        alloc: Global,
        state: &State,
        peer: &Ident,
        name: &KeyName,
        amount: Count,
    ) -> PayTurn<D>
        ensures { IsPayTurn D.told self (RefusesOut state.now peer.now name.now) (PaysOut state.now peer.now name.now amount) result }
    {
        let (pay, value) = match next_pay(state, self.standing.state(), peer, name, amount) {
            Ok(next) => next,
            Err(cause) => {
                return PayTurn::Refused {
                    ledger: self,
                    cause,
                };
            }
        };
        let Ok(out) = write_pay(alloc, &pay, value) else {
            return PayTurn::NoMemory(self);
        };
        let entry = Entry {
            peer: pay.to,
            name: pay.key,
            side: Side::Sends,
            last: pay.number,
        };
        self.keep(alloc, entry, out)
    }
}
