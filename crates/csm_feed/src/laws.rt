// What is promised of every stream, whatever cuts it.
ghost use Rattle.csm_feed.specs.Laws.{OneHolding, RefusalStays, FirstHeld, OneHearing};

use csm_read::{law_fault_stays, law_one_answer, law_read_stays};

/// A stream holds one list of messages, and behind them one refusal or none.
pub fn law_one_holding()
    ensures { OneHolding }
{
    law_one_answer();
    law_read_stays();
}

/// A refusal stays when more bytes come.
pub fn law_refusal_stays()
    ensures { RefusalStays }
{
    law_fault_stays();
}

/// Messages in the front of a stream are the first that the stream holds.
pub fn law_first_held()
    ensures { FirstHeld }
{
    law_one_answer();
    law_read_stays();
}

/// Of any bytes exactly one thing is heard: a message, or why none is.
#[tactic(auto, using(crate::proofs::Inputs::one_hearing))]
pub fn law_one_hearing()
    ensures { OneHearing }
{
    law_one_answer();
}
