// Why an audit ends before its last line.
use scenario::AuditFault;
use x_base::NoMemory;

/// What was found wrong, or want of memory.
#[derive(Clone, Copy)]
pub(crate) enum Failure {
    Wrong(AuditFault),
    NoMemory,
}

impl From<NoMemory> for Failure {
    ghost use Rattle.std.specs.Prelude.{◌≡◌};
    ghost use Rattle.audit_check.specs.declared.failure.Failure.{Failure};

    ghost from_gives = { λ _ failure. failure ≡ Failure.NoMemory };

    fn from(_: NoMemory) -> Failure {
        Failure::NoMemory
    }
}
