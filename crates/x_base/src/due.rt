ghost use Rattle.std.specs.Prelude.{◌≡◌};
ghost use Rattle.x_base.specs.Memory.{is_due};

/// Whether the call of this number is to fail.
pub(crate) fn is_due(fails: &[u32], call: u64) -> bool
    ensures { result ≡ is_due call fails.now }
{
    fails.iter().any(|fail| u64::from(*fail) == call)
}
