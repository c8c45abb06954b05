ghost use Rattle.std.specs.Prelude.{◌≡◌, IfOk, OnOk, OnErr};
ghost use Rattle.party_state.specs.Ranges.{IsFitting, IsNoBegin, IsParty};
ghost use Rattle.party_state.specs.State.{begun, apply_edit};
ghost use Rattle.party_state.specs.declared.edit.Edit.TheVariants.{PutLink, PutKey, PutExchange, DropExchange, SetGen};
ghost use Rattle.party_tables.specs.Ranges.{IsLink, IsRecord, IsExchange};

use crate::edit::{Change, Edit};
use crate::parts::Parts;
use party_tables::{Exchange, KeyRec, LinkRec};
use std::alloc::{AllocError, Global};
use std::marker::Model;
use x_base::{Ident, NoMemory, Role};
use x_gen::Gen;

/// A party's state.
#[derive(Drop)]
pub struct State {
    pub(crate) parts: Box<Parts>,
}

impl Model for State {
    ghost use Rattle.party_state.specs.State.{Party};

    ghost Value = { Party };

    ghost view = { λ s. s.parts.value.0 };
}

/// The state of these parts.
pub(crate) fn boxed(alloc: Global, parts: Parts) -> Result<State, NoMemory>
    ensures { IfOk result (λ s. s ≡ parts.0) }
{
    let parts = Box::new(alloc, parts).map_err(AllocError::from)?;
    Ok(State { parts })
}

/// The state of a party that begins.
pub fn first_state(alloc: Global, own: Ident, role: Role, generator: Gen) -> Result<State, NoMemory>
    ensures { IfOk result (λ s. s ≡ begun own role generator) }
{
    boxed(alloc, Parts::new(alloc, own, role, generator))
}

impl State {
    /// Every part is in its range, and each table has each key once. It does nothing.
    pub fn law_party(&self)
        ensures { IsParty self.now }
    {
        self.parts.law();
    }

    /// Does an edit in place. Where there is no memory for it, all stays as it was.
    pub fn edit(&mut self, mut edit: Edit) -> Result<(), NoMemory>
        requires fitting { IsFitting edit }
        requires goes_on { IsNoBegin edit }
        ensures done { OnOk result (self.new ≡ apply_edit edit self.old) }
        ensures kept { OnErr result (self.new ≡ self.old) }
    {
        self.parts.take(&mut edit)
    }
}

// Single edits, each done in place from its parts.
impl State {
    /// Puts a link. Where there is no memory for it, all stays as it was.
    pub fn put_link(&mut self, link: LinkRec) -> Result<(), NoMemory>
        requires { IsLink link }
        ensures done { OnOk result (self.new ≡ apply_edit (PutLink link) self.old) }
        ensures kept { OnErr result (self.new ≡ self.old) }
    {
        self.parts.links.put(link)
    }

    /// Puts a key record. Where there is no memory for it, all stays as it was.
    pub fn put_key(&mut self, key: KeyRec) -> Result<(), NoMemory>
        requires { IsRecord key }
        ensures done { OnOk result (self.new ≡ apply_edit (PutKey key) self.old) }
        ensures kept { OnErr result (self.new ≡ self.old) }
    {
        self.parts.keys.put(key)
    }

    /// Puts an exchange. Where there is no memory for it, all stays as it was.
    pub fn put_exchange(&mut self, exchange: Exchange) -> Result<(), NoMemory>
        requires { IsExchange exchange }
        ensures done { OnOk result (self.new ≡ apply_edit (PutExchange exchange) self.old) }
        ensures kept { OnErr result (self.new ≡ self.old) }
    {
        self.parts.exchanges.put(exchange)
    }

    /// Drops the exchange with that peer.
    pub fn drop_exchange(&mut self, peer: &Ident)
        ensures { self.new ≡ apply_edit (DropExchange peer.now) self.old }
    {
        self.parts.exchanges.remove(peer);
    }

    /// The generator goes on with this seed value.
    pub fn set_seed(&mut self, v: u64)
        ensures { self.new ≡ apply_edit (SetGen v) self.old }
    {
        self.parts.generator.v = v;
    }
}

impl State {
    /// The same state in memory of its own.
    pub fn copy(&self, alloc: Global) -> Result<State, NoMemory>
        ensures { IfOk result (λ copy. copy ≡ self.now) }
    {
        boxed(alloc, self.parts.copy(alloc)?)
    }
}
