// How a book of facts stands to the facts of the network, told by a call that does nothing.
ghost use Rattle.std.specs.Prelude.{◌≡◌, List, map, ℕ};
ghost use Rattle.x_base.specs.declared.key_name.FullName.{FullName as TheFullName};
ghost use Rattle.fact_book.specs.Facts.{has_named};
ghost use Rattle.world_laws.specs.World.{Fact};
ghost use Rattle.world_laws.specs.Honest.{has_fact, named_text};

/// A fact stands among facts exactly where it stands in their list without the makers, in which a
/// book finds it.
#[tactic(auto, using(crate::proofs::Nodes::Named::named_facts))]
pub fn law_facts()
    ensures { (facts : List Fact) (under : TheFullName) (text : List ℕ) → has_named (map named_text facts) under text ≡ has_fact facts under text }
{}
