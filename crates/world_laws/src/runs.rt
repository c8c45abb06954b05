// Runs with one event more, and up to the forged event, told by a call that does nothing.
ghost use Rattle.std.specs.Prelude.{◌≡◌, ◌⊎◌, ◌↔◌, ◌++◌, ◌∷◌, [], true, Option, List, take, ℕ};
ghost use Rattle.x_base.specs.declared.key_name.FullName.{FullName as TheFullName};
ghost use Rattle.member.specs.Member.{Member};
ghost use Rattle.world_laws.specs.World.{World, Fact, member_at};
ghost use Rattle.world_laws.specs.Events.{Action, Event};
ghost use Rattle.world_laws.specs.Steps.{run, step, number_after};
ghost use Rattle.world_laws.specs.Honest.{HasFact, HonestAt, HonestRun, IsForged, has_fact, is_honest};

/// A run goes on by the event of the next number, and stays honest where that is. A run is honest or
/// has a forged event, and not both; up to that it is honest. Whether an event is honest is decided by
/// a search among the facts.
pub fn law_runs()
    ensures goes_on { (n : ℕ) (w : World) (es : List Event) (e : Event) → run n w (es ++ e ∷ []) ≡ step (number_after n es) (run n w es) e }
    ensures honest { (n : ℕ) (w : World) (es : List Event) (e : Event) → HonestRun n w es → HonestAt (run n w es).facts (member_at e.party (run n w es).members) e.action → HonestRun n w (es ++ e ∷ []) }
    ensures before { (n : ℕ) (w : World) (es : List Event) (k : ℕ) → IsForged n w es k → HonestRun n w (take k es) }
    ensures either { (es : List Event) (n : ℕ) (w : World) → HonestRun n w es ⊎ ((k : ℕ) × IsForged n w es k) }
    ensures unforged { (n : ℕ) (w : World) (es : List Event) (k : ℕ) → HonestRun n w es → IsForged n w es k → ⊥ }
    ensures test { (facts : List Fact) (o : Option Member) (d : Action) → (is_honest facts o d ≡ true) ↔ HonestAt facts o d }
    ensures fact { (facts : List Fact) (under : TheFullName) (text : List ℕ) → (has_fact facts under text ≡ true) ↔ HasFact facts under text }
{}
