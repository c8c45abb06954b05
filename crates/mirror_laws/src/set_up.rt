// A network that is set up over one disk or two of each party is a start, told by calls that do nothing.
ghost use Rattle.std.specs.Prelude.{◌+◌, List, [], Option, ℕ, length};
ghost use Rattle.world_laws.specs.Starts.{IsStart};
ghost use Rattle.call_laws.specs.SetUp.{SetUp, network_of, names_in};
ghost use Rattle.call_laws.specs.Rules.{SharedKey, KeepsRules};
ghost use Rattle.mirror_laws.specs.Sessions.{PairDeed, HaveOwnDisks, AllStandOnOwn, AreDeedsDone};
ghost use Rattle.mirror_laws.specs.Deeds.{EndsOnAllImages};
ghost use Rattle.mirror_laws.specs.SettingUp.{AreSetUpOn, AllTellOnOwn};

use crate::deeds::law_mirror_deeds;
use change_code::law_can_compact;
use key_store::law_one_finding;
use party_state::{law_found, law_party, law_put, law_same};
use role_base::law_loads;
use x_disk::Shelf;
use x_gen::law_odd_stays;
use x_party::law_one_space;

/// Parties are created, each on its one disk or its two, which tell and no two of which have one name, and keys are loaded at parties
/// over all their disks, each call done, in any order in which a party is created before it is loaded, with power failures between
/// the calls. Then the disks of each party stand for its member of the network of those parties, with those keys; and where each key
/// was loaded at both its ends, no two keys are alike and no two identities expand alike, that network is a start.
pub fn law_mirror_set_up<H: Shelf>()
    ensures start { (keys : List SharedKey) (mirror : List ℕ → Option (List ℕ)) (calls : List SetUp) (shelves : ℕ → H) → KeepsRules keys calls → HaveOwnDisks mirror (network_of calls) → AllTellOnOwn mirror (names_in calls) (H.entry (shelves 0))
        → AreSetUpOn mirror [] calls 0 (λ k. H.entry (shelves k)) → IsStart (network_of calls) }
    ensures stands { (mirror : List ℕ → Option (List ℕ)) (calls : List SetUp) (shelves : ℕ → H) → HaveOwnDisks mirror (network_of calls) → AllTellOnOwn mirror (names_in calls) (H.entry (shelves 0))
        → AreSetUpOn mirror [] calls 0 (λ k. H.entry (shelves k)) → AllStandOnOwn mirror (H.entry (shelves (length calls))) (network_of calls) }
{
    law_can_compact();
    law_same();
    law_found();
    law_put();
    law_party();
    law_loads();
    law_odd_stays();
    law_one_finding();
    law_one_space();
}

/// A session over one disk or two each from nothing: parties are created and key-encrypting keys are loaded at both ends, each over
/// all the party's disks, and then anything is done that `law_mirror_deeds` speaks of, batches too. It ends as that law says, and the
/// start of its run is the network that was set up.
pub fn law_mirror_from_nothing<H: Shelf>()
    ensures { (keys : List SharedKey) (mirror : List ℕ → Option (List ℕ)) (calls : List SetUp) (deeds : List PairDeed) (shelves ends : ℕ → H) → KeepsRules keys calls → HaveOwnDisks mirror (network_of calls)
        → AllTellOnOwn mirror (names_in calls) (H.entry (shelves 0)) → AreSetUpOn mirror [] calls 0 (λ k. H.entry (shelves k))
        → AreDeedsDone (network_of calls) mirror deeds (length calls) (λ k. H.entry (shelves k)) (λ k. H.entry (ends k))
        → EndsOnAllImages (network_of calls) mirror deeds (λ k. H.entry (shelves (length calls + k))) }
{
    law_mirror_set_up::<H>();
    law_mirror_deeds::<H>();
}
