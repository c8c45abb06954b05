// Tokens of a message, as they are judged.
ghost use Rattle.std.specs.Prelude.{◌≡◌, ◌&&◌, ◌||◌, ◌==◌, ◌<◌, true, false, length, take, slice_index, position, MatchOption};
ghost use Rattle.std.specs.List.{list_all, list_any};
ghost use Rattle.csm_grammar.specs.Values.{is_hex};
ghost use Rattle.csm_read.specs.Units.{is_half, tag_text, contents_text};
ghost use Rattle.csm_read.specs.Judging.{is_plain};
ghost use Rattle.csm_read.specs.Scanning.{IsRun, IsUnit, RunsOut};

use csm_grammar::is_separator;
use hex::FromHex;

/// Whether the byte ends no token: it is neither a separator nor `)`.
pub fn is_plain(byte: u8) -> bool
    ensures { result ≡ is_plain byte }
{
    !(byte == b')' || is_separator(byte))
}

/// How many bytes stand before the first separator or `)`.
#[tactic(auto, using(std::proofs::lemmas::List::Folds::list_all_more))]
fn run_len(bytes: &[u8]) -> Option<usize>
    ensures { MatchOption result (list_all is_plain bytes.now ≡ true) (IsRun bytes.now) }
{
    for (i, byte) in bytes.iter().enumerate() {
        if !is_plain(*byte) {
            return Some(i);
        }
    }
    None
}

/// Whether the bytes are four hexadecimal digits.
fn are_four_digits(bytes: &[u8]) -> bool
    ensures { result ≡ is_hex 4 bytes.now }
{
    <[u8; 2] as FromHex>::from_hex(bytes).is_ok()
}

fn slash(token: &[u8]) -> Option<usize>
    ensures { result ≡ position (λ b. b == 47) token.now }
{
    token.iter().position(|byte| *byte == b'/')
}

/// What stands before the first `/`, and what behind it.
pub fn parts(token: &[u8]) -> Option<(&[u8], &[u8])>
    ensures { MatchOption result
        (list_any (λ b. b == 47) token.now ≡ false)
        (λ p. (list_any (λ b. b == 47) token.now ≡ true) × (p.0.now ≡ tag_text token.now) × (p.1.now ≡ contents_text token.now)) }
{
    match slash(token) {
        Some(at) => {
            let (name, behind) = token.split_at(at);
            let (_, contents) = behind.split_at(1);
            Some((name, contents))
        }
        None => None,
    }
}

/// Whether the token is half a code.
fn is_half(token: &[u8]) -> bool
    ensures { result ≡ is_half token.now }
{
    match parts(token) {
        Some((name, digits)) => {
            (name == b"MAC".as_slice() || name == b"EDC".as_slice()) && are_four_digits(digits)
        }
        None => false,
    }
}

/// Whether half a code stands in front, before a blank.
fn waits(bytes: &[u8], len: usize) -> bool
    requires { len < length bytes.now }
    ensures { result ≡ (is_half (take len bytes.now) && (slice_index bytes.now len == 32)) }
{
    if len != 8 {
        return false;
    }
    if bytes[len] != b' ' {
        return false;
    }
    is_half(&bytes[..len])
}

/// How many bytes the token in front has, the second half of a code among them. It has none where a
/// separator or `)` stands in front, and there is no answer where the bytes end before it can be judged.
pub fn unit_len(bytes: &[u8]) -> Option<usize>
    ensures { MatchOption result (RunsOut bytes.now) (IsUnit bytes.now) }
{
    let len = run_len(bytes)?;
    if !waits(bytes, len) {
        return Some(len);
    }
    let (_, behind) = bytes.split_at(len + 1);
    let more = run_len(behind)?;
    if are_four_digits(&behind[..more]) {
        Some(len + 1 + more)
    } else {
        Some(len)
    }
}
