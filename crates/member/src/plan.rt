// What a member will do with an input.
ghost use Rattle.std.specs.Prelude.{◌≡◌, IfOk};
ghost use Rattle.member.specs.Answers.{IsPlan, plan_with};

use crate::answer::Answer;
use crate::deciding::decide;
use change_code::{Framed, Space, law_short_code};
use party_state::{Change, Decision, Input, Lead, State};
use std::alloc::Global;
use std::marker::Model;
use x_base::{NoMemory, Verdict};

/// What a member will do with an input: what it will answer, and the edits that it will keep, with their frame.
#[derive(Drop)]
pub struct Plan {
    answer: Answer,
    framed: Framed,
}

impl Model for Plan {
    ghost use Rattle.member.specs.Answers.{FramedPlan, plan_with};

    ghost Value = { FramedPlan };

    ghost view = { λ p. record { plan = plan_with p.answer p.framed.edits; format = p.framed.format } };
}

impl Plan {
    /// What a member of this state and this space will do with an input at a moment. Its code is tested once, it decides once,
    /// and the frame of what changes is made. The only error is want of memory.
    pub fn of(
        alloc: Global,
        state: &State,
        space: Space,
        input: &Input,
        moment: u64,
    ) -> Result<Plan, NoMemory>
        ensures { IfOk result (IsPlan (record { party = state.now; space = space }) input.now moment) }
    {
        let lead = crate::leads::lead(state, input);
        let Decision {
            change,
            reply,
            under,
            verdict,
        } = decide(alloc, state, input, &lead, moment)?;
        let change = change.into_change().unwrap_or(Change::new(alloc));
        law_short_code(space.format, &change);
        let framed = Framed::of(alloc, space.format, change)?;
        if framed.fits(space.room) {
            return Ok(Plan {
                answer: Answer {
                    lead,
                    verdict,
                    reply,
                    under,
                },
                framed,
            });
        }
        Ok(Plan {
            answer: Answer {
                lead,
                verdict: Verdict::JournalFull,
                reply: None,
                under: None,
            },
            framed: Framed::none(alloc, space.format),
        })
    }

    /// What is answered, and the edits.
    pub fn into_parts(self) -> (Answer, Framed)
        ensures { self ≡ record { plan = plan_with result.0 result.1.edits; format = result.1.format } }
    {
        (self.answer, self.framed)
    }
}
