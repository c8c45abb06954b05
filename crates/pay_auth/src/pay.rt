use x_base::{Count, Ident, KeyName};

/// A payment under a key that two parties share (this project's profile).
#[derive(Clone, Copy)]
pub struct Pay {
    /// Who pays.
    pub from: Ident,
    /// Who is paid.
    pub to: Ident,
    /// The key under which the payment is authenticated.
    pub key: KeyName,
    /// The number of the payment under this key, from 1 on.
    pub number: Count,
    /// How much is paid, in units that the two parties agree on.
    pub amount: Count,
}

/// A payment as it was read.
#[derive(Clone, Copy)]
pub struct PayParsed {
    pub pay: Pay,
    /// The code that the text carries.
    pub mac: u32,
    /// How many bytes of the text are authenticated: those before the tag MAC.
    pub auth_len: usize,
}
