ghost use Rattle.csm_write.specs.Shortness.{CanonShort};

/// The canonical text of a message whose free texts have together at most 64 bytes is short enough
/// to be read back.
#[tactic(auto, using(crate::proofs::Lengths::canon_short))]
pub fn law_canon_short()
    ensures { CanonShort }
{}
