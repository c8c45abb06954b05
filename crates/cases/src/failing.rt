// A scenario is played with each call failing in turn.
use crate::playing::{Played, play_over};
use crate::showing::shown_behind;
use crate::stages::{Stage, stages_of};
use replay::PlayResult;
use scenario::{Scenario, read};
use std::alloc::Global;
use x_base::Text;
use x_disk::{DiskErr, FusedShelf, MemoryShelf};

/// Whose calls fail.
#[derive(Clone, Copy)]
enum Failing {
    /// Each disk's, each from when it is fetched.
    Disk,
    Shelf,
    Sink,
}

impl Failing {
    fn name(self) -> &'static str {
        match self {
            Failing::Disk => "disk",
            Failing::Shelf => "shelf",
            Failing::Sink => "sink",
        }
    }
}

/// How a play with a failing call is judged.
#[derive(Clone, Copy)]
enum Judged {
    /// Nothing failed, and all is as it should be.
    Done,
    /// The failure is told, and a run of so many events stands.
    Within,
    Wrong,
}

/// What a play with a failing call leaves.
#[derive(Drop)]
struct Left {
    played: Played,
    /// What the parties show.
    shown: Text,
}

/// Plays the scenario where a call fails behind so many, and then the power goes with this choice.
fn left_by(
    alloc: Global,
    scenario: &Scenario,
    failing: Failing,
    calls: u32,
    choice: u64,
) -> Result<Left, DiskErr> {
    let (shelf_calls, disk_calls) = match failing {
        Failing::Disk => (u64::MAX, calls as u64),
        Failing::Shelf => (calls as u64, u64::MAX),
        Failing::Sink => (u64::MAX, u64::MAX),
    };
    let mut fails = Vec::new(alloc);
    if let Failing::Sink = failing {
        fails.push(calls.saturating_add(1))?;
    }
    let mut fused = FusedShelf::new(MemoryShelf::new(alloc), shelf_calls, disk_calls);
    let played = play_over(alloc, scenario, fails, &mut fused)?;
    let mut shelf = fused.into_inner();
    let shown = shown_behind(alloc, scenario, &mut shelf, choice)?;
    Ok(Left { played, shown })
}

/// Whether a run of so many events stands, and so much is written; or a part of the set-up, and nothing.
fn is_within(stages: &[Stage], written: &[u8], shown: &[u8]) -> bool {
    let len = written.len();
    match stages.first() {
        Some(first) if len == 0 && first.shown.bytes().starts_with(shown) => true,
        _ => stages.iter().any(|stage| stage.shown.bytes() == shown
            && stage.least <= len
            && len <= stage.most),
    }
}

fn judge(stages: &[Stage], whole: &[u8], failing: Failing, left: &Left) -> Judged {
    let written = left.played.written.bytes();
    if !whole.starts_with(written) || !is_within(stages, written, left.shown.bytes()) {
        return Judged::Wrong;
    }
    match (failing, left.played.outcome) {
        (Failing::Disk | Failing::Shelf, PlayResult::DiskFault) => Judged::Within,
        (Failing::Sink, PlayResult::WriteFault) => Judged::Within,
        (_, PlayResult::Done(_)) if written.len() == whole.len() => Judged::Done,
        _ => Judged::Wrong,
    }
}

/// The first number of calls, if any, behind which something else stands.
fn first_wrong(
    alloc: Global,
    scenario: &Scenario,
    stages: &[Stage],
    whole: &[u8],
    failing: Failing,
    choice: u64,
) -> Result<Option<u32>, DiskErr> {
    for calls in 0..1000 {
        let left = left_by(alloc, scenario, failing, calls, choice)?;
        match judge(stages, whole, failing, &left) {
            Judged::Within => {}
            Judged::Done if calls > 0 => return Ok(None),
            Judged::Done | Judged::Wrong => return Ok(Some(calls)),
        }
    }
    Ok(Some(1000))
}

/// The line of what is wrong where these calls fail.
fn wrong_line(
    alloc: Global,
    scenario: &Scenario,
    stages: &[Stage],
    whole: &[u8],
    failing: Failing,
) -> Result<Option<String>, DiskErr> {
    for choice in [0, 1, 7919] {
        if let Some(calls) = first_wrong(alloc, scenario, stages, whole, failing, choice)? {
            let name = failing.name();
            return Ok(Some(format!(in alloc;
                "wrong behind {calls} calls of the {name}, choice {choice}\n"
            )?));
        }
    }
    Ok(None)
}

/// The line that says that whichever call fails a run of so many events stands, or where it doesn't.
pub(crate) fn faults_line(alloc: Global, bytes: &[u8]) -> Result<Text, DiskErr> {
    let Ok(scenario) = read(alloc, bytes) else {
        return Err(DiskErr::Fault);
    };
    let stages = stages_of(alloc, bytes)?;
    let Played { written, .. } = play_over(
        alloc,
        &scenario,
        Vec::new(alloc),
        &mut MemoryShelf::new(alloc),
    )?;
    let mut text = Text::new(alloc);
    for failing in [Failing::Disk, Failing::Shelf, Failing::Sink] {
        let wrong = wrong_line(
            alloc,
            &scenario,
            stages.as_slice(),
            written.bytes(),
            failing,
        )?;
        if let Some(line) = wrong {
            text.push(line.as_bytes())?;
            return Ok(text);
        }
    }
    text.push(b"all within\n")?;
    Ok(text)
}
