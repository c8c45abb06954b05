// The places and lengths of a journal's file.

/// Where the first area begins.
pub(crate) const FIRST_START: u64 = 16;

/// Where the second area begins, which is where the first one ends.
pub(crate) const SECOND_START: u64 = 8_388_616;

/// The length of an area.
pub(crate) const AREA_SIZE: u64 = 8_388_600;

/// The length of the largest body.
pub const LARGEST_BODY: u64 = 4_194_304;
