ghost use Rattle.std.specs.Prelude.{◌≡◌, IfOk, IfErr};
ghost use Rattle.party_state.specs.Ranges.{AreFitting, HasNoBegin};
ghost use Rattle.party_state.specs.Rooms.{HasSpaceFor};
ghost use Rattle.party_state.specs.State.{apply as after};

use crate::edit::{Change, Edit, copy_edits};
use crate::parts::Parts;
use crate::state::{State, boxed};
use std::alloc::Global;
use std::marker::Model;
use x_base::NoMemory;

/// A party and a change of it for which all memory is taken: seen as the party before the change,
/// and the edits.
#[derive(Drop)]
pub struct Prepared {
    parts: Box<Parts>,
    edits: Vec<Edit>,
}

impl Model for Prepared {
    ghost use Rattle.party_state.specs.Ranges.{AreFitting, HasNoBegin};
    ghost use Rattle.party_state.specs.Rooms.{HasSpaceFor};
    ghost use Rattle.party_state.specs.Prepared.{PreparedParty};

    ghost Value = { PreparedParty };

    ghost view = { λ p. record { party = p.parts.value.0; edits = p.edits.items } };

    ghost invariant = { λ p. HasSpaceFor p.edits.items p.parts.value.1 × AreFitting p.edits.items × HasNoBegin p.edits.items };
}

impl State {
    /// Takes all memory that the change wants, which goes into what is prepared. Where there is none, the same state
    /// comes back.
    pub fn prepare(self, change: Change) -> Result<Prepared, State>
        requires fitting { AreFitting change }
        requires goes_on { HasNoBegin change }
        ensures party { IfOk result (λ p. p.party ≡ self) }
        ensures edits { IfOk result (λ p. p.edits ≡ change) }
        ensures same { IfErr result (λ s. s ≡ self) }
    {
        let State { mut parts } = self;
        let edits = change.into_edits();
        match parts.reserve(edits.as_slice()) {
            Ok(()) => Ok(Prepared { parts, edits }),
            Err(NoMemory) => Err(State { parts }),
        }
    }
}

/// Does the edits in their order.
fn do_edits(parts: &mut Parts, mut edits: Vec<Edit>)
    requires room { HasSpaceFor edits.items parts.old.1 }
    requires fitting { AreFitting edits.items }
    requires goes_on { HasNoBegin edits.items }
    ensures { parts.new.0 ≡ after edits.items parts.old.0 }
{
    for edit in edits.iter_mut() {
        parts.take(edit).unwrap();
    }
}

impl Prepared {
    /// The party after the edits in their order. It takes no memory, and can't fail.
    pub fn finish(self) -> State
        ensures { result ≡ after self.edits self.party }
    {
        let Prepared { mut parts, edits } = self;
        do_edits(&mut parts, edits);
        State { parts }
    }

    /// The party after the edits, in memory of its own; what is prepared stays as it is.
    pub fn next(&self, alloc: Global) -> Result<State, NoMemory>
        ensures { IfOk result (λ s. s ≡ after self.now.edits self.now.party) }
    {
        let change = copy_edits(alloc, self.edits.as_slice())?;
        let copy = boxed(alloc, self.parts.copy(alloc)?)?;
        match copy.prepare(change) {
            Ok(prepared) => Ok(prepared.finish()),
            Err(_) => Err(NoMemory),
        }
    }

    /// The party as it was.
    pub fn cancel(self) -> State
        ensures { result ≡ self.party }
    {
        let Prepared { parts, edits: _ } = self;
        State { parts }
    }
}

/// The state after the edits in their order.
pub fn apply(alloc: Global, state: &State, change: &Change) -> Result<State, NoMemory>
    requires fitting { AreFitting change.now }
    requires goes_on { HasNoBegin change.now }
    ensures { IfOk result (λ s. s ≡ after change.now state.now) }
{
    let copy = state.copy(alloc)?;
    let change = change.copy(alloc)?;
    match copy.prepare(change) {
        Ok(prepared) => Ok(prepared.finish()),
        Err(_) => Err(NoMemory),
    }
}
