ghost use Rattle.std.specs.Prelude.{◌≡◌, ◌∷◌, [], List, IsOk, Ok, IfOk, OnOk, OnErr};
ghost use Rattle.party_tables.specs.declared.link.LinkKey.{LinkKey as TheKey};
ghost use Rattle.party_tables.specs.Keys.{same_link};
ghost use Rattle.party_state.specs.Ranges.{IsFitting, IsNoBegin, IsParty};
ghost use Rattle.party_state.specs.Rooms.{HasSpaceFor};
ghost use Rattle.party_state.specs.State.{begun, apply_edit};
ghost use Rattle.party_state.specs.declared.edit.Edit.{Edit as TheEdit};

use crate::edit::Edit;
use crate::ranges::law_generator;
use crate::rooms::{answers_put, exchanges_put, keys_put, links_put};
use party_tables::{
    Answer, AnswerKey, Exchange, KeyRec, LinkKey, LinkRec, RecordKey, Table, law_ident,
};
use std::alloc::Global;
use std::marker::Model;
use x_base::{Ident, NoMemory, Role};
use x_gen::Gen;

/// Keys of links are compared by what they hold. It does nothing.
fn law_link_test()
    ensures { (a b : TheKey) → ⟦<LinkKey as PartialEq>⟧.eq a b ≡ same_link a b }
{}

/// Both values, if there are both.
fn both<A: Drop, B: Drop>(
    first: Result<A, NoMemory>,
    second: Result<B, NoMemory>,
) -> Result<(A, B), NoMemory>
    ensures { IfOk result (λ values. (first ≡ Ok values.0) × (second ≡ Ok values.1)) }
{
    match (first, second) {
        (Ok(first), Ok(second)) => Ok((first, second)),
        _ => Err(NoMemory),
    }
}

/// A party's parts: seen as the party, and the room of its tables.
#[derive(Drop)]
pub(crate) struct Parts {
    pub(crate) own: Ident,
    pub(crate) role: Role,
    pub(crate) generator: Gen,
    pub(crate) links: Table<LinkKey, LinkRec>,
    pub(crate) keys: Table<RecordKey, KeyRec>,
    pub(crate) exchanges: Table<Ident, Exchange>,
    pub(crate) answers: Table<AnswerKey, Answer>,
}

impl Model for Parts {
    ghost use Rattle.party_state.specs.Rooms.{Rooms};
    ghost use Rattle.party_state.specs.State.{Party};

    ghost Value = { Party × Rooms };

    ghost view = { λ p. (
      record { own = p.own; role = p.role; generator = p.generator; links = p.links.0; keys = p.keys.0; exchanges = p.exchanges.0; answers = p.answers.0 },
      record { links = p.links.1; keys = p.keys.1; exchanges = p.exchanges.1; answers = p.answers.1 },
    ) };
}

impl Parts {
    /// A party that begins.
    pub(crate) fn new(alloc: Global, own: Ident, role: Role, generator: Gen) -> Parts
        ensures { result.0 ≡ begun own role generator }
    {
        Parts {
            own,
            role,
            generator,
            links: Table::new(alloc),
            keys: Table::new(alloc),
            exchanges: Table::new(alloc),
            answers: Table::new(alloc),
        }
    }

    /// The same party in memory of its own.
    pub(crate) fn copy(&self, alloc: Global) -> Result<Parts, NoMemory>
        ensures { IfOk result (λ copy. copy.0 ≡ self.now.0) }
    {
        let links_and_keys = both(self.links.copy(alloc), self.keys.copy(alloc));
        let exchanges_and_answers = both(self.exchanges.copy(alloc), self.answers.copy(alloc));
        match both(links_and_keys, exchanges_and_answers) {
            Ok(((links, keys), (exchanges, answers))) => Ok(Parts {
                own: self.own,
                role: self.role,
                generator: self.generator,
                links,
                keys,
                exchanges,
                answers,
            }),
            Err(NoMemory) => Err(NoMemory),
        }
    }

    /// Every part is in its range, and each table has each key once. It does nothing.
    pub(crate) fn law(&self)
        ensures { IsParty self.now.0 }
    {
        law_ident(&self.own);
        law_generator(&self.generator);
        law_link_test();
        self.links.law_rows();
        self.keys.law_rows();
        self.exchanges.law_rows();
        self.answers.law_rows();
    }

    /// Makes room for the rows that the edits put.
    pub(crate) fn reserve(&mut self, edits: &[Edit]) -> Result<(), NoMemory>
        ensures same { self.new.0 ≡ self.old.0 }
        ensures room { OnOk result (HasSpaceFor edits.now self.new.1) }
    {
        self.links.reserve(links_put(edits))?;
        self.keys.reserve(keys_put(edits))?;
        self.exchanges.reserve(exchanges_put(edits))?;
        self.answers.reserve(answers_put(edits))
    }

    /// Does an edit, which can't fail where there is room for it. It isn't moved, since edits are large; its text goes over to
    /// the party.
    pub(crate) fn take(&mut self, edit: &mut Edit) -> Result<(), NoMemory>
        requires fitting { IsFitting edit.old }
        requires goes_on { IsNoBegin edit.old }
        ensures done { OnOk result (self.new.0 ≡ apply_edit edit.old self.old.0) }
        ensures kept { OnErr result (self.new.0 ≡ self.old.0) }
        ensures succeeds { HasSpaceFor (edit.old ∷ []) self.old.1 → IsOk result }
        ensures room { (es : List TheEdit) → HasSpaceFor (edit.old ∷ es) self.old.1 → HasSpaceFor es self.new.1 }
    {
        edit.law_in_range();
        match edit {
            Edit::PutLink(link) => self.links.put(*link),
            Edit::PutKey(key) => self.keys.put(*key),
            Edit::PutExchange(exchange) => {
                let alloc = self.exchanges.allocator();
                self.exchanges.put(exchange.take(alloc))
            }
            Edit::PutAnswer(answer) => self.answers.put(*answer),
            Edit::DropLink { peer, label, side } => {
                let (peer, label, side) = (*peer, *label, *side);
                self.links.remove(&LinkKey { peer, label, side });
                Ok(())
            }
            Edit::DropEnded => {
                self.keys.remove_ended();
                Ok(())
            }
            Edit::DropExchange { peer } => {
                self.exchanges.remove(peer);
                Ok(())
            }
            Edit::SetGen(v) => {
                self.generator.v = *v;
                Ok(())
            }
            Edit::Begin { .. } => Ok(()),
        }
    }
}
