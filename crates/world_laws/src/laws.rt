// What holds of every run, told by calls that do nothing.
ghost use Rattle.std.specs.Prelude.{◌≡◌, List, ℕ, Some};
ghost use Rattle.member.specs.Member.{Member};
ghost use Rattle.world_laws.specs.World.{World, member_at};
ghost use Rattle.world_laws.specs.Events.{Event, AreEvents};
ghost use Rattle.world_laws.specs.Steps.{run, step};
ghost use Rattle.world_laws.specs.Honest.{HonestRun};
ghost use Rattle.world_laws.specs.Starts.{HasAcceptedNothing, IsBareStart, IsStart};
ghost use Rattle.world_laws.specs.Laws.{OneKeyPerCount, Once, Agreement, EndedBoth};
ghost use Rattle.world_laws.specs.Shown.{UsesShown};
ghost use Rattle.world_laws.specs.Answered.{AcceptancesAdded, AnswersAdded};

/// Each start is as bare as the first two laws need it.
pub fn law_start()
    ensures { (start : World) → IsStart start → IsBareStart start }
{}

/// No count offsets two different keys under one key-encrypting key.
#[tactic(auto, using(crate::proofs::Counting::Runs::one_key_per_count))]
pub fn law_one_key_per_count()
    ensures { (start : World) (events : List Event) → IsBareStart start → AreEvents events → OneKeyPerCount (run 1 start events) }
{}

/// What is counted is what was encrypted: each event adds the uses of key-encrypting keys, and the new ones, that the text shows
/// of which a code was made at it, and no others.
#[tactic(auto, using(crate::proofs::Shown::Runs::uses_shown))]
pub fn law_used()
    ensures { (start : World) (events : List Event) → IsStart start → AreEvents events → UsesShown 1 start events }
{}

/// An event adds an acceptance of a key service message, of a disconnection, or of the answer to the end of a key exactly where
/// such a message is accepted at it, and stands: of the keys that the message tells, and no other. So it adds one of an answer
/// exactly where a response service message that names a key is accepted, and stands.
pub fn law_accepted()
    ensures acceptances { (n : ℕ) (w : World) (e : Event) (x : Member) → member_at e.party w.members ≡ Some x → AcceptancesAdded w (step n w e) x e.moment e.completion e.action }
    ensures answers { (n : ℕ) (w : World) (e : Event) (x : Member) → member_at e.party w.members ≡ Some x → AnswersAdded w (step n w e) x e.moment e.completion e.action }
{}

/// Each key service message takes effect at most once, whatever a network has done before but that it accepted nothing.
pub fn law_once()
    ensures { (start : World) (events : List Event) → HasAcceptedNothing start → AreEvents events → Once (run 1 start events) }
{}

/// In an honest run a key that its originator counts as live is held by its partner, with the same
/// value, name and counter, unless the partner accepted its end.
#[tactic(auto, using(crate::proofs::Agreeing::HonestRuns::agreement))]
pub fn law_agreement()
    ensures { (start : World) (events : List Event) → IsStart start → AreEvents events → HonestRun 1 start events → Agreement (run 1 start events) }
{}

/// In an honest run, where the answer to the end of a key was accepted, the partner's record of that
/// key is ended or absent.
#[tactic(auto, using(crate::proofs::Agreeing::HonestRuns::both_ended))]
pub fn law_ended()
    ensures { (start : World) (events : List Event) → IsStart start → AreEvents events → HonestRun 1 start events → EndedBoth (run 1 start events) }
{}
