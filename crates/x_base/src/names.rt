// The bytes that identities and labels are made of.
ghost use Rattle.std.specs.Prelude.{◌≡◌};
ghost use Rattle.x_base.specs.Names.{is_name_byte};

/// The length of the longest identity and the longest label, in bytes.
pub(crate) const LONGEST: usize = 16;

/// Whether identities and labels may have this byte.
pub(crate) fn is_name_byte(byte: u8) -> bool
    ensures { result ≡ is_name_byte byte }
{
    matches!(byte, b'A'..=b'Z' | b'0'..=b'9' | b'-')
}
