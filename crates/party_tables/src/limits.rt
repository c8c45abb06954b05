// How much the parts of a row hold.

/// The most bytes in the text of an exchange.
pub const LONGEST_TEXT: usize = 1024;

/// The next count of a link behind the last count.
pub const LARGEST_NEXT: u64 = 100_000_000_000_000;
