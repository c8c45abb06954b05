// What the loss of a disk changes, told by a call that does nothing.
ghost use Rattle.std.specs.Prelude.{List, ℕ};
ghost use Rattle.world_laws.specs.World.{World};
ghost use Rattle.mirror_laws.specs.Runs.{Which, Loses, pair_step};
ghost use Rattle.mirror_laws.specs.Losses.{ChangesNoParty};

/// The loss of one of a party's two disks changes nothing of the network but how much room is left to that party, and its format.
pub fn law_losses()
    ensures { (n : ℕ) (w : World) (party : List ℕ) (which : Which) → ChangesNoParty w (pair_step n w (Loses party which)) }
{}
