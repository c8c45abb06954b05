ghost use Rattle.std.specs.Prelude.{◌≡◌, ◌≤◌, length, drop};
ghost use Rattle.std.specs.List.{prefix_len, list_all};
ghost use Rattle.csm_grammar.specs.Spelling.{is_separator};
ghost use Rattle.csm_read.specs.Judging.{is_plain};
ghost use Rattle.csm_feed.specs.Streams.{IsBegun};

use csm_grammar::is_separator;
use csm_read::is_plain;

/// How many separators come first.
#[tactic(auto, using(crate::proofs::Spans::span_within, crate::proofs::Spans::span_begun))]
pub fn leading_separators(bytes: &[u8]) -> usize
    ensures value { result ≡ prefix_len is_separator bytes.now }
    ensures within { result ≤ length bytes.now }
    ensures begun { IsBegun (drop result bytes.now) }
{
    bytes.iter().take_while(|byte| is_separator(**byte)).count()
}

/// Whether no separator and no `)` is among the bytes.
pub fn are_plain(bytes: &[u8]) -> bool
    ensures { result ≡ list_all is_plain bytes.now }
{
    bytes.iter().all(|byte| is_plain(*byte))
}
