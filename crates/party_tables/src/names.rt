ghost use Rattle.std.specs.Prelude.{◌≡◌, ◌+◌};
ghost use Rattle.std.specs.Option.{SomeIff};
ghost use Rattle.x_base.specs.Count.{IsCount};
ghost use Rattle.party_tables.specs.Names.{full_name, name_behind as behind};

use crate::key::KeyRec;
use x_base::{Count, FullName, Ident, KeyName};

/// The name of the second of two keys in one message, by that of the first. `None` exactly where the count is the last.
pub fn name_behind(name: &KeyName) -> Option<KeyName>
    ensures { SomeIff result (IsCount (name.now.count + 1)) (behind name.now) }
{
    let count = Count::of(name.count.value() + 1)?;
    Some(KeyName { count, ..*name })
}

impl KeyRec {
    /// The full name of the key, at the party that holds it.
    pub fn full_name(&self, own: &Ident) -> FullName
        ensures { result ≡ full_name own.now self.now }
    {
        let recipient = if self.name.originator.bytes() == own.bytes() {
            self.peer
        } else {
            *own
        };
        FullName {
            name: self.name,
            recipient,
        }
    }
}
