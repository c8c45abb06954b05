/// What a party is (ANSI X9.17's environments: point to point, distribution centre, translation
/// centre).
#[derive(Clone, Copy, Debug, PartialEq, Eq)]
pub enum Role {
    /// A bank: it shares keys with its partners, by itself or through centres.
    Bank,
    /// A key distribution centre.
    Distribution,
    /// A key translation centre.
    Translation,
}

/// Which end of a key-encrypting key a party is.
#[derive(Clone, Copy, Debug, PartialEq, Eq, Hash)]
pub enum Side {
    /// The originating side, which alone encrypts under it.
    Sends,
    /// The receiving side.
    Takes,
}
