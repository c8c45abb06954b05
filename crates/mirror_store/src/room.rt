// When a party over two disks has no room, told by a call that does nothing.
ghost use Rattle.std.specs.Prelude.{◌≡◌, ℕ};
ghost use Rattle.party_state.specs.declared.command.Input.{Input as TheInput};
ghost use Rattle.member.specs.Deciding.{decision};
ghost use Rattle.member.specs.Leads.{lead_in};
ghost use Rattle.member.specs.Member.{Member, as_decided, as_full};
ghost use Rattle.mirror_store.specs.Turns.{DoesNotFit, pair_plan_at};

use change_code::law_can_compact;

/// `JournalFull` is planned exactly where what is decided doesn't fit: its edits on the first disk, or, where there are some, the
/// party after them into one frame of format 2. Otherwise what is decided is planned.
pub fn law_room()
    ensures full { (x : Member) (i : TheInput) (moment : ℕ) → DoesNotFit x (decision x.party i moment).change → pair_plan_at x i moment ≡ as_full (lead_in x.party i) }
    ensures fits { (x : Member) (i : TheInput) (moment : ℕ) → (DoesNotFit x (decision x.party i moment).change → ⊥) → pair_plan_at x i moment ≡ as_decided (lead_in x.party i) (decision x.party i moment) }
{
    law_can_compact();
}
