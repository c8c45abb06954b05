// Whether two rows, or two tables, are equal.
ghost use Rattle.std.specs.Prelude.{◌≡◌, ◌↔◌, ◌<◌, IsTrue, length, slice_get};
ghost use Rattle.party_tables.specs.Same as same;

use crate::answer::Answer;
use crate::exchange::{Exchange, Kind};
use crate::key::KeyRec;
use crate::link::LinkRec;
use crate::table::{Row, Table};
use std::hash::Hash;

/// What can be compared with another of its type.
pub trait Same {
    /// Whether the two are equal.
    fn same(&self, other: &Self) -> bool
        ensures { IsTrue result ↔ (self.now ≡ other.now) };
}

fn same_link(one: &LinkRec, other: &LinkRec) -> bool
    ensures { result ≡ same.same_link_rec one.now other.now }
{
    *one == *other
}

fn same_key(one: &KeyRec, other: &KeyRec) -> bool
    ensures { result ≡ same.same_key_rec one.now other.now }
{
    *one == *other
}

fn same_kind(one: &Kind, other: &Kind) -> bool
    ensures { result ≡ same.same_kind one.now other.now }
{
    *one == *other
}

fn same_exchange(one: &Exchange, other: &Exchange) -> bool
    ensures { result ≡ same.same_exchange one.now other.now }
{
    one.peer == other.peer && same_kind(&one.kind, &other.kind) && one.text == other.text
}

fn same_answer(one: &Answer, other: &Answer) -> bool
    ensures { result ≡ same.same_answer_rec one.now other.now }
{
    *one == *other
}

impl Same for LinkRec {
    #[tactic(auto, using(crate::proofs::Alike::link_alike))]
    fn same(&self, other: &LinkRec) -> bool {
        same_link(self, other)
    }
}

impl Same for KeyRec {
    #[tactic(auto, using(crate::proofs::Alike::key_alike))]
    fn same(&self, other: &KeyRec) -> bool {
        same_key(self, other)
    }
}

impl Same for Exchange {
    #[tactic(auto, using(crate::proofs::Alike::exchange_alike))]
    fn same(&self, other: &Exchange) -> bool {
        same_exchange(self, other)
    }
}

impl Same for Answer {
    #[tactic(auto, using(crate::proofs::Alike::answer_alike))]
    fn same(&self, other: &Answer) -> bool {
        same_answer(self, other)
    }
}

impl<K: Eq + Hash + Copy, R: Row<K> + Same> Table<K, R> {
    /// Whether both have the same rows in the same order.
    pub fn same(&self, other: &Table<K, R>) -> bool
        ensures { IsTrue result ↔ (self.now.0 ≡ other.now.0) }
    {
        if self.len() != other.len() {
            return false;
        }
        for i in 0..self.len() {
            if !self.same_at(other, i) {
                return false;
            }
        }
        true
    }

    /// Whether both have the same row at this place.
    fn same_at(&self, other: &Table<K, R>, i: usize) -> bool
        requires first { i < length self.now.0 }
        requires second { i < length other.now.0 }
        ensures { IsTrue result ↔ (slice_get self.now.0 i ≡ slice_get other.now.0 i) }
    {
        match (self.at(i), other.at(i)) {
            (Some(one), Some(other)) => one.same(other),
            _ => unreachable!(),
        }
    }
}
