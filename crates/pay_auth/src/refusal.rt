ghost use Rattle.std.specs.Prelude.{◌≡◌};

use thiserror::Error;

/// These bytes are no payment; the place is the length of their longest prefix that is a prefix of a payment.
#[derive(Clone, Copy, Debug, Error)]
#[error("bad payment at {0}")]
pub struct BadPay(pub u64);

/// Why nothing is paid out or taken in.
#[derive(Clone, Copy, Debug, Error)]
pub enum PayRefusal {
    /// The bytes are no payment; the place is the length of their longest prefix that is a prefix of a payment.
    #[error("bad payment at {0}")]
    BadPay(u64),
    /// The payment is for another party, or from this one.
    #[error("not for this party")]
    NotForMe,
    /// No key of that name is live or held here.
    #[error("unknown key")]
    UnknownKey,
    /// The authentication code differs.
    #[error("bad code")]
    BadMac,
    /// No number is left under the key.
    #[error("numbers spent")]
    CountSpent,
    /// The number isn't above the last one that was taken; this one, or a higher one, is expected.
    #[error("number below {0}")]
    PayLow(u64),
    /// The ledger has as many entries as it can have.
    #[error("ledger full")]
    LedgerFull,
}

impl PayRefusal {
    ghost use Rattle.pay_auth.specs.Refusals.{pay_number};

    /// The number of the refusal in a status line (this project's profile).
    pub fn number(&self) -> u32
        ensures { result ≡ pay_number self.now }
    {
        match self {
            PayRefusal::BadPay(_) => 46,
            PayRefusal::NotForMe => 21,
            PayRefusal::UnknownKey => 27,
            PayRefusal::BadMac => 28,
            PayRefusal::CountSpent => 31,
            PayRefusal::PayLow(_) => 47,
            PayRefusal::LedgerFull => 48,
        }
    }
}
