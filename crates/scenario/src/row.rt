// The first line of bytes.
ghost use Rattle.std.specs.Prelude.{◌≡◌, ◌≢◌, ◌+◌, ◌<◌, ◌∷◌, ◌==◌, [], length};
ghost use Rattle.std.specs.List.{position};
ghost use Rattle.scenario.specs.Rows.{rows_of, size_of};

fn line_feed(bytes: &[u8]) -> Option<usize>
    ensures { result ≡ position (λ b. b == 10) bytes.now }
{
    bytes.iter().position(|byte| *byte == b'\n')
}

/// The first line of bytes without the line feed that ends it, whether one does, and what stands behind.
#[tactic(auto, using(crate::proofs::Cutting::ended_row, crate::proofs::Cutting::last_row))]
pub fn first_row(bytes: &[u8]) -> (&[u8], bool, &[u8])
    requires { bytes.now ≢ [] }
    ensures rows { rows_of bytes.now ≡ record { line = result.0.now; ended = result.1 } ∷ rows_of result.2.now }
    ensures size { size_of (record { line = result.0.now; ended = result.1 }) + length result.2.now ≡ length bytes.now }
    ensures shorter { length result.2.now < length bytes.now }
{
    match line_feed(bytes) {
        Some(at) => (&bytes[..at], true, &bytes[at + 1..]),
        None => (bytes, false, &[]),
    }
}
