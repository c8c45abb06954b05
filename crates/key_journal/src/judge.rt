// What lies at a gate.
ghost use Rattle.std.specs.Prelude.{◌≡◌, ◌+◌, ◌-◌, ◌≤◌, ◌<◌, ◌∷◌, min, length, take};
ghost use Rattle.x_disk.specs.Disk.{disk_size};
ghost use Rattle.key_journal.specs.Journal.{four_bytes};
ghost use Rattle.key_journal.specs.Judged.{judged, IfBody, IsSized};

use crate::layout::LARGEST_BODY;

/// What lies at a gate within the file.
#[derive(Clone, Copy)]
pub(crate) enum Judged {
    /// The gate isn't open.
    Closed,
    /// A frame whose body has so many bytes.
    Frame(u64),
    /// A frame that is damaged.
    Damaged,
}

/// Judges the bytes from the gate on, of which there are at least five unless the file ends before.
pub(crate) fn judge(front: &[u8], gate: u64, end: u64, size: u64) -> Judged
    requires some { gate < size }
    requires front { min 5 (size - gate) ≤ length front.now }
    requires within { gate + length front.now ≤ size }
    requires small { gate ≤ disk_size }
    ensures value { result ≡ judged front.now gate end size }
    ensures sized { IfBody result (IsSized gate end size) }
    ensures bytes { IfBody result (λ n. take 5 front.now ≡ 1 ∷ four_bytes n) }
{
    if front[0] != 1 {
        return Judged::Closed;
    }
    if front.len() < 5 {
        return Judged::Damaged;
    }
    let n = u64::from(u32::from_be_bytes([front[1], front[2], front[3], front[4]]));
    if 1 <= n && n <= LARGEST_BODY && gate + 6 + n <= size && gate + 6 + n <= end {
        Judged::Frame(n)
    } else {
        Judged::Damaged
    }
}
