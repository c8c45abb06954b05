// A compaction and a migration of a member are events, told by a call that does nothing.
ghost use Rattle.member.specs.Member.{Member};
ghost use Rattle.member.specs.Acts.{compacting, migrating};
ghost use Rattle.world_laws.specs.Nodes.{IsEventOf};
ghost use Rattle.world_laws.specs.Steps.{world_after_compaction, world_after_migration};

/// What a member does at a compaction is the compaction at it, and what it does at a migration the migration.
pub fn law_compactions()
    ensures compaction { (x : Member) → IsEventOf x (compacting x) (λ n w completion. world_after_compaction w x completion) }
    ensures migration { (x : Member) → IsEventOf x (migrating x) (λ n w completion. world_after_migration w x completion) }
{}
