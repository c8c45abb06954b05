ghost use Rattle.std.specs.Prelude.{◌≡◌, ◌≢◌, [], IfNone, IfSome};

use crate::edit::Change;
use std::marker::Model;
use x_base::{FullName, Text, Verdict};
use x_mac::Pair;

/// The edits of a decision, in order; none where nothing changes.
#[derive(Drop)]
pub struct Edits {
    change: Option<Change>,
}

impl Model for Edits {
    ghost use Rattle.std.specs.Prelude.{◌≢◌, List, [], IfSome, unwrap_or};
    ghost use Rattle.party_state.specs.declared.edit.Edit.{Edit};

    ghost Value = { List Edit };

    ghost view = { λ e. unwrap_or e.change [] };

    ghost invariant = { λ e. IfSome e.change (λ change. change ≢ []) };
}

impl Edits {
    /// No edits. It takes no memory.
    pub fn none() -> Edits
        ensures { result ≡ [] }
    {
        Edits { change: None }
    }

    /// The edits of a change.
    pub fn of(change: Change) -> Edits
        ensures { result ≡ change }
    {
        if change.is_empty() {
            return Edits::none();
        }
        Edits {
            change: Some(change),
        }
    }

    /// The change that they make, and none exactly where there are no edits.
    pub fn into_change(self) -> Option<Change>
        ensures some { IfSome result (λ change. (change ≡ self) × (self ≢ [])) }
        ensures none { IfNone result (self ≡ []) }
    {
        self.change
    }

    /// The same, by reference.
    pub fn change(&self) -> &Option<Change>
        ensures some { IfSome result.now (λ change. (change ≡ self.now) × (self.now ≢ [])) }
        ensures none { IfNone result.now (self.now ≡ []) }
    {
        &self.change
    }
}

/// What a party decides: what changes, what it writes, and the key under which it makes a code.
///
/// `under` is none where no code is made, as at a request that is closed by an error detection
/// code, and where a text that is kept is written again.
#[derive(Drop)]
pub struct Decision {
    pub change: Edits,
    pub reply: Option<Text>,
    pub under: Option<FullName>,
    pub verdict: Verdict,
}

/// The key under which the code of an arrival is tested, and whether it is the one carried.
///
/// `opened` is the new key-encrypting key that the arrival brings, decrypted; none where it brings none.
#[derive(Clone, Copy)]
pub struct Lead {
    pub under: FullName,
    pub value: u64,
    pub verified: bool,
    pub opened: Option<Pair>,
}
