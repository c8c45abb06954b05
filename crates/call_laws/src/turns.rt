// The turns of a node are events, told by a call that does nothing.
ghost use Rattle.std.specs.Prelude.{List, ℕ};
ghost use Rattle.key_store.specs.Store.{Stored};
ghost use Rattle.member.specs.Member.{Member};
ghost use Rattle.member.specs.Acts.{Act, member_after};
ghost use Rattle.node_core.specs.Turns.{IsTurn, IsOldOrNext, member_of};
ghost use Rattle.node_core.specs.declared.node.Turn.{Turn as TheTurn};
ghost use Rattle.world_laws.specs.World.{World};
ghost use Rattle.world_laws.specs.Events.{Completion};
ghost use Rattle.world_laws.specs.Nodes.{IsEventOf};
ghost use Rattle.call_laws.specs.Turns.{IsTurnEvent, IsCutEvent};

use x_disk::Disk;

/// A turn of a node is the event that its member does: the whole event, where it is done. What a crash at any moment of it
/// may leave on the disk stands for the member after the event that is cut off.
pub fn law_turns<D: Disk>()
    ensures whole { (old : Stored D) (act : Act) (event : ℕ → World → Completion → World) (turn : TheTurn D) → IsEventOf (member_of old) act event → IsTurn D.told old act turn → IsTurnEvent old event turn }
    ensures cut { (x : Member) (act : Act) (event : ℕ → World → Completion → World) (image : List ℕ) → IsEventOf x act event → IsOldOrNext x (member_after x act.work) image → IsCutEvent x event image }
{}
