/// What the two disks of a party are to one another.
#[derive(Clone, Copy)]
pub enum Likeness {
    /// They stand for one party in one state.
    Same,
    /// They stand for states of one party, and the first has gone on further.
    FirstAhead,
    /// The second has gone on further.
    SecondAhead,
    /// They stand for states of one party that differ, and neither has gone on further.
    Neither,
    /// They stand for parties of different identities.
    OtherParty,
    /// The first is blank, and the second stands for a party.
    FirstBlank,
    /// The second is blank, and the first stands for a party.
    SecondBlank,
    /// Both are blank.
    BothBlank,
    /// The first isn't blank and stands for no party; the place is that of its first damage.
    FirstDamaged(u64),
    /// So it is with the second, and the first is blank or stands for a party.
    SecondDamaged(u64),
}

/// What became of a comparison.
#[derive(Clone, Copy)]
pub enum Compared {
    Done(Likeness),
    /// The shelf or a disk failed.
    Fault,
    /// No memory was left.
    NoMemory,
}
