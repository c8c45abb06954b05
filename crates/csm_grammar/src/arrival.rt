ghost use Rattle.std.specs.Prelude.{◌≡◌, take};
ghost use Rattle.csm_grammar.specs.Reading.{IsArrival};

use crate::parsed::Parsed;
use x_base::Text;

/// A message as it was received: its spelling, and what is read of it.
#[derive(Drop)]
pub struct Arrival {
    pub parsed: Parsed,
    pub text: Text,
    pub ghost arrived: { ∥ IsArrival text parsed ∥₁ },
}

impl Arrival {
    /// The authenticated text: the spelling up to the tag of its code.
    pub fn auth(&self) -> &[u8]
        ensures { result.now ≡ take self.now.parsed.auth_len self.now.text }
    {
        let (auth, _) = self.text.bytes().split_at(self.parsed.auth_len);
        auth
    }
}
