// A network that is set up is a start, told by calls that do nothing.
ghost use Rattle.std.specs.Prelude.{◌+◌, ◌∷◌, List, [], ℕ, length};
ghost use Rattle.world_laws.specs.Starts.{IsStart};
ghost use Rattle.call_laws.specs.Sessions.{Deed, StandsOn, AreDone};
ghost use Rattle.call_laws.specs.Deeds.{EndsAsDone};
ghost use Rattle.call_laws.specs.SetUp.{SetUp, network_of, names_in};
ghost use Rattle.call_laws.specs.Rules.{SharedKey, KeepsRules};
ghost use Rattle.call_laws.specs.SettingUp.{AreSetUp, AllTell};

use crate::deeds::law_deeds;
use key_store::law_one_finding;
use party_state::{law_found, law_party, law_put, law_same};
use role_base::law_loads;
use x_disk::Shelf;
use x_gen::law_odd_stays;
use x_party::law_one_space;

/// Parties are created on disks that tell, and keys are loaded at parties, each call done, in any order in which a party is created
/// before it is loaded, with power failures between the calls. Then the disks stand for the network of those parties, with those
/// keys; and where each key was loaded at both its ends, no two keys are alike and no two identities expand alike, that network is
/// a start.
pub fn law_set_up<H: Shelf>()
    ensures start { (keys : List SharedKey) (calls : List SetUp) (shelves : ℕ → H) → KeepsRules keys calls → AllTell (names_in calls) (H.entry (shelves 0)) → AreSetUp [] calls 0 (λ k. H.entry (shelves k))
        → IsStart (network_of calls) }
    ensures stands { (calls : List SetUp) (shelves : ℕ → H) → AllTell (names_in calls) (H.entry (shelves 0)) → AreSetUp [] calls 0 (λ k. H.entry (shelves k))
        → StandsOn (H.entry (shelves (length calls))) (network_of calls) }
{
    law_same();
    law_found();
    law_put();
    law_party();
    law_loads();
    law_odd_stays();
    law_one_finding();
    law_one_space();
}

/// The rules can be kept: two banks with one key keep them.
pub fn law_rules()
    ensures { (key : SharedKey) × (calls : List SetUp) × KeepsRules (key ∷ []) calls }
{}

/// A session from nothing: parties are created and key-encrypting keys are loaded at both ends, and then anything is done, each
/// command but loading, each arriving message, compaction and migration called over its own party's disk, with power failures
/// between calls and inside them. Each call that answered is its event, and each that failed or was cut off is its event cut off,
/// or none. After these events the disks stand for the network, and what was handed out, joined, is what it has written; no count
/// is used twice, no key service message takes effect twice, and, where the events are honest, a key that its originator counts as
/// live is held by its partner, unless that accepted its end, and an end that was answered is known at both ends.
pub fn law_from_nothing<H: Shelf>()
    ensures { (keys : List SharedKey) (calls : List SetUp) (deeds : List Deed) (shelves ends : ℕ → H) → KeepsRules keys calls → AllTell (names_in calls) (H.entry (shelves 0))
        → AreSetUp [] calls 0 (λ k. H.entry (shelves k)) → AreDone (network_of calls) deeds (length calls) (λ k. H.entry (shelves k)) (λ k. H.entry (ends k))
        → EndsAsDone (network_of calls) deeds (H.entry (shelves (length calls + length deeds))) }
{
    law_set_up::<H>();
    law_deeds::<H>();
}
