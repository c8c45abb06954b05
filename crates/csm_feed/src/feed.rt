ghost use Rattle.std.specs.Prelude.{◌≡◌, ◌+◌, ◌≢◌, ◌≤◌, ◌<◌, ◌↔◌, ◌^◌, ◌-◌, ℕ, List, [], length, take, Some, None, Err, IfOk, IsOk, IsTrue};
ghost use Rattle.csm_grammar.specs.declared.arrival.Arrival.{Arrival};
ghost use Rattle.csm_grammar.specs.declared.refusal.ReadRefusal.{ReadRefusal};
ghost use Rattle.csm_read.specs.Faults.{IsFault};
ghost use Rattle.csm_feed.specs.declared.next.Next.{Next};
ghost use Rattle.csm_feed.specs.Streams.{AreMessages, IsWaiting};
ghost use Rattle.csm_feed.specs.HeldBytes.{Feeding, IsKept};
ghost use Rattle.csm_feed.specs.Feeding.{pushed, IsFull, gap_before, with_bytes, without, Answers, ComesAs, Fed, Feeds, HandsOut, Exhausts};

use crate::next::Next;
use crate::separators::{are_plain, leading_separators};
use csm_grammar::ReadRefusal;
use csm_read::{
    law_fault_ends, law_fault_stays, law_fault_within, law_one_answer, law_unended_stays,
    read_arrival,
};
use std::alloc::Global;
use std::marker::Model;
use x_base::NoMemory;

/// How many bytes a feed holds: those of the longest message, and one more.
pub const HELD: usize = 1025;

/// Messages from a stream of bytes that comes in pieces.
///
/// Separators before a message are taken and not held. A feed takes 2^64 - 1 bytes at most. What is
/// held is read again only when a token of it may have ended.
#[derive(Drop)]
pub struct Feed {
    held: Vec<u8>,
    // so many of the bytes held are known to be only not ended
    unended: usize,
    before: u64,
    refusal: Option<ReadRefusal>,
}

impl Model for Feed {
    ghost use Rattle.std.specs.Prelude.{◌≤◌};
    ghost use Rattle.std.specs.Vec.{vec_capacity};
    ghost use Rattle.csm_feed.specs.HeldBytes.{Feeding, IsKept, IsKnown, held_limit};

    ghost Value = { Feeding };

    ghost view = { λ f. record { held = f.held.items; before = f.before; refusal = f.refusal } };

    ghost invariant = { λ f. IsKept (record { held = f.held.items; before = f.before; refusal = f.refusal }) × (held_limit ≤ vec_capacity f.held) × IsKnown f.unended f.held.items };
}

impl Feed {
    /// A feed that holds nothing. It takes all its memory here.
    pub fn new(alloc: Global) -> Result<Feed, NoMemory>
        ensures empty { IfOk result (λ f. f ≡ record { held = []; before = 0; refusal = None }) }
        ensures fed { IfOk result (λ f. Fed f [] []) }
    {
        let held = Vec::with_capacity(alloc, HELD)?;
        Ok(Feed {
            held,
            unended: 0,
            before: 0,
            refusal: None,
        })
    }

    /// Takes the bytes that fit, and answers how many.
    pub fn push(&mut self, piece: &[u8]) -> usize
        ensures within { result ≤ length piece.now }
        ensures takes { self.new ≡ with_bytes self.old (take result piece.now) }
        ensures most { result < length piece.now → IsFull self.new }
        ensures fed { Feeds self.old (take result piece.now) self.new }
    {
        law_fault_stays();
        let piece = countable(piece, self.before + self.held.len() as u64);
        let (separators, text) = piece.split_at(self.gap(piece));
        let (fitting, _) = text.split_at(text.len().min(HELD - self.held.len()));
        match self.held.extend_from_slice(fitting) {
            Ok(()) => self.before += separators.len() as u64,
            Err(_) => unreachable!(),
        }
        separators.len() + fitting.len()
    }

    fn gap(&self, piece: &[u8]) -> usize
        ensures value { result ≡ gap_before self.now.held piece.now }
        ensures within { result ≤ length piece.now }
    {
        let begun = !self.held.is_empty();
        if begun { 0 } else { leading_separators(piece) }
    }

    /// The next message, if what is held begins with one. Its bytes are released, and the
    /// separators behind them.
    ///
    /// A refusal stays. Without memory nothing changes.
    pub fn next(&mut self, alloc: Global) -> Next
        ensures answers { Answers self.old result self.new }
        ensures comes { ComesAs self.old result }
        ensures memory { result ≢ Next.Refused ReadRefusal.NoMemory }
        ensures fed { HandsOut self.old result self.new }
        ensures whole { Exhausts self.old result }
    {
        law_one_answer();
        law_fault_ends();
        self.answer(alloc)
    }

    fn answer(&mut self, alloc: Global) -> Next
        ensures kept { IsKept self.old }
        ensures answers { Answers self.old result self.new }
    {
        law_fault_ends();
        if let Some(refusal) = self.refusal {
            return Next::Refused(refusal);
        }
        if self.held.is_empty() || self.is_unended() {
            return self.wait();
        }
        match read_arrival(alloc, self.held.as_slice()) {
            Ok(arrival) => {
                self.release(arrival.parsed.len);
                Next::Message(arrival)
            }
            Err(ReadRefusal::NoMemory) => Next::NoMemory,
            Err(ReadRefusal::Unended(_)) => self.wait(),
            Err(reason) => self.refuse(reason),
        }
    }

    /// Whether what is held is known to be only not ended, without reading it.
    #[tactic(auto, using(crate::proofs::Waiting::known_waiting))]
    fn is_unended(&self) -> bool
        ensures { IsTrue result → IsWaiting self.now.held }
    {
        law_unended_stays();
        if self.unended < 4 || self.held.len() >= HELD {
            return false;
        }
        let (_, behind) = self.held.as_slice().split_at(self.unended);
        are_plain(behind)
    }

    #[tactic(auto, using(crate::proofs::Waiting::known_all))]
    fn wait(&mut self) -> Next
        requires { IsWaiting self.old.held }
        ensures answer { result ≡ Next.NotYet }
        ensures same { self.new ≡ self.old }
    {
        self.unended = self.held.len();
        Next::NotYet
    }

    #[tactic(auto, using(crate::proofs::Waiting::known_none))]
    fn release(&mut self, len: usize)
        requires unrefused { self.old.refusal ≡ None }
        requires within { len ≤ length self.old.held }
        ensures { self.new ≡ without len self.old }
    {
        let (_, behind) = self.held.as_slice().split_at(len);
        let gone = len + leading_separators(behind);
        if gone < self.held.len() {
            self.held.drain(..gone);
        } else {
            self.held.clear();
        }
        self.unended = 0;
        self.before += gone as u64;
    }

    fn refuse(&mut self, reason: ReadRefusal) -> Next
        requires something { self.old.held ≢ [] }
        requires fault { IsFault self.old.held reason }
        requires lasting { (n : ℕ) → reason ≢ ReadRefusal.Unended n }
        ensures { Answers self.old result self.new }
    {
        law_fault_within();
        let refusal = reason.moved(self.before);
        self.refusal = Some(refusal);
        Next::Refused(refusal)
    }

    /// The end of the stream: Ok where nothing is held. Otherwise the refusal that was given, or
    /// that the last message doesn't end, at the number of bytes that were pushed.
    pub fn finish(self) -> Result<(), ReadRefusal>
        ensures ok { IsOk result ↔ ((self.held ≡ []) × (self.refusal ≡ None)) }
        ensures given { (r : ReadRefusal) → self.refusal ≡ Some r → result ≡ Err r }
        ensures unended { self.refusal ≡ None → self.held ≢ [] → result ≡ Err (ReadRefusal.Unended (pushed self)) }
        ensures memory { result ≢ Err ReadRefusal.NoMemory }
        ensures whole { (stream : List ℕ) (arrivals : List Arrival) → Fed self stream arrivals → IsOk result → AreMessages stream arrivals }
    {
        law_fault_ends();
        if let Some(refusal) = self.refusal {
            return Err(refusal);
        }
        if self.held.is_empty() {
            return Ok(());
        }
        Err(ReadRefusal::Unended(self.before + self.held.len() as u64))
    }
}

/// The first bytes of the piece, as many as can be counted behind those that were pushed.
fn countable(piece: &[u8], pushed: u64) -> &[u8]
    ensures value { result.now ≡ take (2 ^ 64 - 1 - pushed) piece.now }
    ensures counted { pushed + length result.now < 2 ^ 64 }
{
    let left = u64::MAX - pushed;
    if piece.len() as u64 <= left {
        return piece;
    }
    let (front, _) = piece.split_at(left as usize);
    front
}
