// Bytes around a byte.

fn place_of(bytes: &[u8], wanted: u8) -> Option<usize> {
    bytes.iter().position(|byte| *byte == wanted)
}

/// What stands before the first such byte, and behind it.
pub(crate) fn parted(bytes: &[u8], byte: u8) -> Option<(&[u8], &[u8])> {
    let at = place_of(bytes, byte)?;
    if at < bytes.len() {
        Some((&bytes[..at], &bytes[at + 1..]))
    } else {
        None
    }
}
