// What else holds at the end of every honest run, told by a call that does nothing.
ghost use Rattle.std.specs.Prelude.{List};
ghost use Rattle.world_laws.specs.World.{World};
ghost use Rattle.world_laws.specs.Events.{Event, AreEvents};
ghost use Rattle.world_laws.specs.Steps.{run};
ghost use Rattle.world_laws.specs.Honest.{HonestRun};
ghost use Rattle.world_laws.specs.Starts.{IsStart};
ghost use Rattle.world_laws.specs.Facts.{ReadyAtBothEnds, CountsMeet, WaitingStands, TwinsStand, TwinsCarried, MadeBySenders, OneKsmPerName, AnswersTaken, KeysTaken};

/// In an honest run each ready key-encrypting key stands at both ends; where both ends of one stand, the count that is
/// expected is no more than the next that is used; what waits for the answer to a new one has its link,
/// not ready, and its key's record, pending; what waits for the answer to two keys has the records of both, pending, and its
/// message carries two; each code was made by the originator that its text names; no two key service messages that were
/// made have a name of their keys in common; an answer to a key was made where a message was accepted whose first key it
/// is, and the answer to an end where the end was accepted; and the keys that were accepted are those that the message
/// carries, each with its carried value at both ends.
pub fn law_honest_ends()
    ensures ends { (start : World) (events : List Event) → IsStart start → AreEvents events → HonestRun 1 start events → ReadyAtBothEnds (run 1 start events) }
    ensures counts { (start : World) (events : List Event) → IsStart start → AreEvents events → HonestRun 1 start events → CountsMeet (run 1 start events) }
    ensures waiting { (start : World) (events : List Event) → IsStart start → AreEvents events → HonestRun 1 start events → WaitingStands (run 1 start events) }
    ensures twins { (start : World) (events : List Event) → IsStart start → AreEvents events → HonestRun 1 start events → TwinsStand (run 1 start events) }
    ensures carried { (start : World) (events : List Event) → IsStart start → AreEvents events → HonestRun 1 start events → TwinsCarried (run 1 start events) }
    ensures makers { (start : World) (events : List Event) → IsStart start → AreEvents events → HonestRun 1 start events → MadeBySenders (run 1 start events) }
    ensures names { (start : World) (events : List Event) → IsStart start → AreEvents events → HonestRun 1 start events → OneKsmPerName (run 1 start events) }
    ensures answers { (start : World) (events : List Event) → IsStart start → AreEvents events → HonestRun 1 start events → AnswersTaken (run 1 start events) }
    ensures taken { (start : World) (events : List Event) → IsStart start → AreEvents events → HonestRun 1 start events → KeysTaken (run 1 start events) }
{}
