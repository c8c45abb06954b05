// How much a party holds.

/// The most links of a party.
pub const MOST_LINKS: usize = 64;

/// The most key records of a party.
pub const MOST_KEYS: usize = 1024;
