// That a key becomes live, told by a call that does nothing.
ghost use Rattle.x_base.specs.declared.party.Role.TheVariants.{Distribution, Translation};
ghost use Rattle.world_laws.specs.Reached.{LiveRun, LiveRunOf, HonestRunTo, IsFirstOfTwo, IsIssuedBy, IsUnderNewKk, LeavesSecond, RunAfterCut, PartnerEnded, EndsAnswered, ForgedRun};

/// There are honest runs from a start in which a key becomes live, and its partner holds it: between two banks, under a
/// key-encrypting key that was made in the run, with a second key in one message, and through a centre of either kind; and
/// one in which the partner ended the first of two keys before its answer to both was heard; one in which the key that becomes
/// live went by a command that was cut off with the new state; one in which the partner accepted the end of a key that its
/// originator still counts as live, and one in which the end was answered. So the laws of honest runs don't hold for want of
/// runs; nor are all runs honest: there is one with a forged event.
pub fn law_live_runs_exist()
    ensures direct { LiveRun }
    ensures under_new_kk { LiveRunOf IsUnderNewKk }
    ensures two_at_once { LiveRunOf IsFirstOfTwo }
    ensures distributed { LiveRunOf (IsIssuedBy Distribution) }
    ensures translated { LiveRunOf (IsIssuedBy Translation) }
    ensures left { HonestRunTo LeavesSecond }
    ensures cut { RunAfterCut }
    ensures partner_ended { HonestRunTo PartnerEnded }
    ensures answered { HonestRunTo EndsAnswered }
    ensures forged { ForgedRun }
{}
