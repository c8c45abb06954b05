// Where the course of a scenario stands.
ghost use Rattle.std.specs.Prelude.{◌≡◌};
ghost use Rattle.course.specs.Lines.{IsQuietNext};
ghost use Rattle.course.specs.Outcomes.{IsWithin, after_outcome, outcome_of};
ghost use Rattle.course.specs.Starts.{start_progress};

use scenario::Line;
use x_base::Verdict;

/// The call at which the next event is stopped, from 1, and the choice with which the power goes.
#[derive(Clone, Copy)]
pub struct Stop {
    pub n: u64,
    pub choice: u64,
}

/// What became of an event.
#[derive(Clone, Copy)]
pub enum EventOutcome {
    Done,
    /// Refused, with the number of why.
    Refused(u32),
    /// Stopped at a disk call.
    Stopped,
    /// No such text was written, or no such party is there.
    Nothing,
}

/// How many events had each outcome.
#[derive(Clone, Copy)]
pub struct OutcomeCounts {
    pub done: u32,
    pub refused: u32,
    pub stopped: u32,
    pub none: u32,
    /// How many wrote a text.
    pub texts: u32,
}

/// The moment, the stop that waits, the number of the next event, from 1, and the outcomes so far.
#[derive(Clone, Copy)]
pub struct Progress {
    pub moment: u64,
    pub stop: Option<Stop>,
    pub number: u32,
    pub counts: OutcomeCounts,
}

impl Progress {
    /// Advances past an event with this outcome, which wrote a text or none.
    pub fn advance(&mut self, outcome: EventOutcome, wrote: bool)
        requires few { IsWithin self.old 65535 }
        ensures { self.new ≡ after_outcome self.old outcome wrote }
    {
        let counts = &mut self.counts;
        match outcome {
            EventOutcome::Done => counts.done += 1,
            EventOutcome::Refused(_) => counts.refused += 1,
            EventOutcome::Stopped => counts.stopped += 1,
            EventOutcome::Nothing => counts.none += 1,
        }
        if wrote {
            counts.texts += 1;
        }
        self.stop = None;
        self.number += 1;
    }
}

/// Before the first line.
pub fn start() -> Progress
    ensures { result ≡ start_progress }
{
    Progress {
        moment: 0,
        stop: None,
        number: 1,
        counts: OutcomeCounts {
            done: 0,
            refused: 0,
            stopped: 0,
            none: 0,
            texts: 0,
        },
    }
}

/// Advances past a line that is no event.
pub fn advance_quiet(line: &Line, now: &mut Progress)
    ensures { IsQuietNext line.now now.old now.new }
{
    match line {
        Line::Time { moment } => now.moment = *moment,
        Line::Stop { n, choice } => {
            now.stop = Some(Stop {
                n: *n,
                choice: *choice,
            });
        }
        _ => {}
    }
}

/// What becomes of an event with this verdict.
pub fn outcome_of(verdict: Verdict) -> EventOutcome
    ensures { result ≡ outcome_of verdict }
{
    match verdict {
        Verdict::Accept => EventOutcome::Done,
        other => EventOutcome::Refused(other.number()),
    }
}
