ghost use Rattle.std.specs.Prelude.{◌≡◌, ◌==◌, ◌++◌, ◌∷◌, [], length, IfOk, OnOk, OnErr, option_map, slice_get};
ghost use Rattle.party_state.specs.Ranges.{InRange, AreInRange, IsFitting, AreFitting};

use crate::ranges::{law_each_edit, law_edit};
use party_tables::{Answer, Exchange, KeyRec, LinkRec};
use std::alloc::Global;
use std::marker::Model;
use x_base::{Ident, Label, NoMemory, Role, Side};
use x_gen::Gen;

/// One step of a change of a party's state.
#[derive(Drop)]
pub enum Edit {
    /// The party begins.
    Begin {
        own: Ident,
        role: Role,
        generator: Gen,
    },
    PutLink(LinkRec),
    DropLink {
        peer: Ident,
        label: Label,
        side: Side,
    },
    PutKey(KeyRec),
    /// The records of ended keys go.
    DropEnded,
    PutExchange(Exchange),
    DropExchange {
        peer: Ident,
    },
    PutAnswer(Answer),
    /// The generator goes on with this seed value.
    SetGen(u64),
}

impl Edit {
    /// An equal edit in memory of its own.
    pub fn copy(&self, alloc: Global) -> Result<Edit, NoMemory>
        ensures { IfOk result (λ copy. copy ≡ self.now) }
    {
        Ok(match self {
            Edit::Begin {
                own,
                role,
                generator,
            } => Edit::Begin {
                own: *own,
                role: *role,
                generator: *generator,
            },
            Edit::PutLink(link) => Edit::PutLink(*link),
            Edit::DropLink { peer, label, side } => Edit::DropLink {
                peer: *peer,
                label: *label,
                side: *side,
            },
            Edit::PutKey(key) => Edit::PutKey(*key),
            Edit::DropEnded => Edit::DropEnded,
            Edit::PutExchange(exchange) => Edit::PutExchange(exchange.copy(alloc)?),
            Edit::DropExchange { peer } => Edit::DropExchange { peer: *peer },
            Edit::PutAnswer(answer) => Edit::PutAnswer(*answer),
            Edit::SetGen(v) => Edit::SetGen(*v),
        })
    }

    /// Every part is in its range. It does nothing.
    pub fn law_in_range(&self)
        requires { IsFitting self.now }
        ensures { InRange self.now }
    {
        law_edit(self);
    }
}

/// Equal edits in memory of their own.
pub(crate) fn copy_edits(alloc: Global, edits: &[Edit]) -> Result<Change, NoMemory>
    ensures { IfOk result (λ copy. copy ≡ edits.now) }
{
    let mut copy = Change::new(alloc);
    for edit in edits {
        copy.push(edit.copy(alloc)?)?;
    }
    Ok(copy)
}

/// A list of edits, in order.
#[derive(Drop)]
pub struct Change {
    edits: Vec<Edit>,
}

impl Model for Change {
    ghost use Rattle.std.specs.Prelude.{List};
    ghost use Rattle.party_state.specs.declared.edit.Edit.{Edit};

    ghost Value = { List Edit };

    ghost use Rattle.party_state.specs.Formed.{AreFormed};

    ghost view = { λ c. c.edits.items };

    ghost invariant = { λ c. AreFormed c.edits.items };
}

impl Change {
    /// No edits, which takes no memory.
    pub fn new(alloc: Global) -> Change
        ensures { result ≡ [] }
    {
        Change {
            edits: Vec::new(alloc),
        }
    }

    /// No edits, with room for that many.
    pub fn with_capacity(alloc: Global, edits: usize) -> Result<Change, NoMemory>
        ensures { IfOk result (λ change. change ≡ []) }
    {
        let edits = Vec::with_capacity(alloc, edits)?;
        Ok(Change { edits })
    }

    /// These edits.
    pub fn of(edits: Vec<Edit>) -> Change
        ensures { result ≡ edits.items }
    {
        law_each_edit(edits.as_slice());
        Change { edits }
    }

    /// Appends an edit.
    #[tactic(auto, using(crate::proofs::Forms::formed_more))]
    pub fn push(&mut self, edit: Edit) -> Result<(), NoMemory>
        ensures appends { OnOk result (self.new ≡ self.old ++ edit ∷ []) }
        ensures kept { OnErr result (self.new ≡ self.old) }
    {
        law_edit(&edit);
        match self.edits.push(edit) {
            Ok(()) => Ok(()),
            Err(_) => Err(NoMemory),
        }
    }

    /// Edit `i`, from 0, and `None` exactly where there is no such edit.
    pub fn edit_at(&self, i: usize) -> Option<&Edit>
        ensures { option_map (λ e. e.now) result ≡ slice_get self.now i }
    {
        self.edits.get(i)
    }

    /// How many edits there are.
    pub fn len(&self) -> usize
        ensures { result ≡ length self.now }
    {
        self.edits.len()
    }

    /// Whether there is no edit.
    pub fn is_empty(&self) -> bool
        ensures { result ≡ (length self.now == 0) }
    {
        self.edits.is_empty()
    }

    /// The edits in their order.
    pub fn into_edits(self) -> Vec<Edit>
        ensures { result.items ≡ self }
    {
        self.edits
    }

    /// An equal change in memory of its own.
    pub fn copy(&self, alloc: Global) -> Result<Change, NoMemory>
        ensures { IfOk result (λ copy. copy ≡ self.now) }
    {
        copy_edits(alloc, self.edits.as_slice())
    }

    /// Every part of every edit is in its range. It does nothing.
    #[tactic(auto, using(crate::proofs::Forms::fitting_in_range))]
    pub fn law_in_range(&self)
        requires { AreFitting self.now }
        ensures { AreInRange self.now }
    {
        let _edits = self.edits.len();
    }
}
