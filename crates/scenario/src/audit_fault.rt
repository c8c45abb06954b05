// What an audit finds wrong.
ghost use Rattle.std.specs.Prelude.{◌≡◌};
ghost use Rattle.scenario.specs.AuditFaults.{fault_number, fault_place};

/// Why a transcript isn't that of a scenario. An event is told by its number, and a line by its number in the transcript,
/// each from 1.
#[derive(Clone, Copy)]
pub enum AuditFault {
    /// At this event a code agrees that nobody made who holds its key.
    Forged(u32),
    /// This event is stopped and its letter is N, but it changes nothing.
    Impossible(u32),
    /// This event is stopped and has no letter; or letters are left, and this is the number behind the last event.
    Letters(u32),
    /// The transcript differs in this line from the one of the scenario.
    Differs(u32),
}

impl AuditFault {
    /// The number of the refusal.
    pub fn number(&self) -> u32
        ensures { result ≡ fault_number self.now }
    {
        match self {
            AuditFault::Forged(_) => 36,
            AuditFault::Impossible(_) => 43,
            AuditFault::Letters(_) => 44,
            AuditFault::Differs(_) => 45,
        }
    }

    /// The number of the event or the line that it names.
    pub fn place(&self) -> u32
        ensures { result ≡ fault_place self.now }
    {
        match self {
            AuditFault::Forged(event) => *event,
            AuditFault::Impossible(event) => *event,
            AuditFault::Letters(event) => *event,
            AuditFault::Differs(line) => *line,
        }
    }
}
