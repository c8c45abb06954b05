// The top call.
ghost use Rattle.std.specs.Prelude.{◌≡◌, ℕ, List, Option, Some, None};
ghost use Rattle.x_line.specs.Orders.{IsGiven, IsMirrored, IsOrder, is_telling};
ghost use Rattle.x_line.specs.Usage.{usage_of};
ghost use Rattle.x_line.specs.declared.order.Order.{Order};
ghost use Rattle.x_line.specs.declared.order.Order.TheVariants.{Audit, Replay, Drill};
ghost use Rattle.x_line.specs.declared.usage.UsageKind.{UsageKind};
ghost use Rattle.call_ends.specs.Transfer.{TookAtMost, IsQuiet};
ghost use Rattle.call_ends.specs.Causes.{HasFaults};
ghost use Rattle.party_calls.specs.Notice.{LeavesMirroredNotice, LeavesNotice};
ghost use Rattle.party_calls.specs.Obeys.{Obeys, LeavesOthers, most_of};
ghost use Rattle.party_calls.specs.Mirrored.{LeavesMirrored, ObeysMirrored};
ghost use Rattle.world_laws.specs.World.{World};
ghost use Rattle.x917.specs.Audited.{IsAudit};
ghost use Rattle.x917.specs.Deeds.{IsDeed};
ghost use Rattle.x917.specs.Headline.{IsReplay};
ghost use Rattle.x917.specs.Helped.{Helps};
ghost use Rattle.x917.specs.Drilled.{IsDrill};
ghost use Rattle.x917.specs.Expects.{Expects, JudgesWords, IsSilentOf};
ghost use Rattle.x917.specs.Network.{IsNetworkEvent};

use crate::carrying::carry_out;
use crate::helping::help_or_fault;
use call_ends::Status;
use call_laws::law_calls;
use party_calls::carry_out_mirrored;
use std::alloc::Global;
use x_base::{Sink, Source, Text, Words};
use x_disk::{MemoryShelf, Shelf};
use x_line::{
    Given, LineFault, law_few_events, law_ledger_apart, law_mirror_apart, law_one_order,
    law_spool_apart, read_order,
};

/// Runs the command that the words name, at a moment: `check` and `audit` over the source and the sink, `replay` over the disks of the
/// scenario's parties, `drill` over disks of its own, and the others over a party's disk on the shelf. A party's fetched disk
/// is put back before anything is written. The notice is for standard error, behind what is written.
pub fn run<S: Source, K: Sink, H: Shelf>(
    alloc: Global,
    words: &Words,
    moment: u64,
    source: &mut S,
    sink: &mut K,
    shelf: &mut H,
    notice: &mut Option<Text>,
) -> Status
    // The words are looked at first: where something is wrong with them, and they don't ask for help, that is the status and
    // nothing is touched.
    ensures usage { JudgesWords words.now result ((source.new ≡ source.old) × (sink.new ≡ sink.old) × (shelf.new ≡ shelf.old)) }
    // Where they stand for no order and ask for help, the text that begins with the lines of their topic is written, and the
    // source and the shelf stay as they are.
    ensures helps { Helps words.now result (K.written sink.old) (K.written sink.new) ((source.new ≡ source.old) × (shelf.new ≡ shelf.old)) }
    // Otherwise they stand for an order, and it is done as it says. Of a batch: the party goes on from where it stood, whatever came;
    // done, it has all plans, and the outbox is written; where party and spool were in step they are so afterwards at every pair of
    // images that a crash may leave, and, done, the party stands for its end.
    ensures obeys { (order : Order) → IsOrder words.now order → Obeys order moment result (S.left source.old) (S.left source.new) (K.written sink.old) (K.written sink.new) (H.entry shelf.old) (H.entry shelf.new) }

    // Where no count of faults rises the answer is the one that is due, or want of memory.
    ensures complete { (order : Order) → IsOrder words.now order → IsQuiet (S.faults source.old) (S.faults source.new) → IsQuiet (K.faults sink.old) (K.faults sink.new) → IsQuiet (H.faults shelf.old) (H.faults shelf.new)
        → Expects order moment (S.left source.old) (H.entry shelf.old) result }

    // A call that opened the party of its name is an event of a network at that one party, whole or cut off. Where another
    // party lies under that name, a command or a message changes nothing, and a compaction or a migration is the event at that
    // party.
    ensures network { (order : Order) → IsOrder words.now order → IsNetworkEvent order moment result (S.left source.old) (K.written sink.old) (K.written sink.new) (H.entry shelf.old) (H.entry shelf.new) }

    // Where the party answered, its disk is back on the shelf, and that of its ledger or its spool; the other disks stay, and a source that
    // isn't read.
    ensures others { (order : Order) → IsOrder words.now order → LeavesOthers order result (H.is_back shelf.new) (source.new ≡ source.old) (H.entry shelf.old) (H.entry shelf.new) }

    // Where they name a second disk of the party, the order is done over both: the party is created on both, and otherwise opened
    // of both, which repairs the one that lacks it. Where the party answered both are back on the shelf.
    ensures mirrored { (order : Order) (mirror : List ℕ) → IsMirrored words.now order mirror → ObeysMirrored order mirror moment result (S.left source.old) (S.left source.new) (K.written sink.old) (K.written sink.new) (H.entry shelf.old) (H.entry shelf.new) }
    ensures mirrors { (order : Order) (mirror : List ℕ) → IsMirrored words.now order mirror → LeavesMirrored order mirror result (H.is_back shelf.new) (source.new ≡ source.old) (H.entry shelf.old) (H.entry shelf.new) }

    // Of a network in which some parties keep one disk and others two, an order is a deed of a session, but what creates a party or
    // loads a key, and `replay`: a command, a message or a show, where its party is one of the network and the disks that are named are
    // just those that it keeps; a batch, where its party is one that keeps one disk and the spool is none of theirs; a compaction, a
    // migration or a wiping of one of them; or it writes none of them (a payment, where the ledger is none). A call but `replay` over
    // files of which none is a party's writes none of theirs.
    ensures deeds { (order : Order) (mirror : Option (List ℕ)) → IsGiven words.now order mirror → (start : World) (mirrors : List ℕ → Option (List ℕ))
        → IsDeed start mirrors order mirror moment result (S.left source.old) (K.written sink.old) (K.written sink.new) (H.entry shelf.old) (H.entry shelf.new) }

    // A scenario is played as its lines say, and what it ends with is true of the network that they describe.
    ensures replays { IsOrder words.now Replay → IsReplay result (S.left source.old) (S.left source.new) (K.written sink.old) (K.written sink.new) (H.entry shelf.old) (H.entry shelf.new) (H.faults shelf.old) (H.faults shelf.new) }

    // A drill is a scenario that is made of a seed, played over a shelf of its own in memory. The source and the shelf that
    // are handed in stay as they are.
    ensures drills { (seed events : ℕ) → IsOrder words.now (Drill seed events)
        → IsDrill ⟦<MemoryShelf as Shelf>⟧.entry seed events result (K.written sink.old) (K.written sink.new) × (source.new ≡ source.old) × (shelf.new ≡ shelf.old) }

    // An auditor's input is a scenario, an outcome of each of its stopped events, and a transcript. It is done exactly where
    // the run of that scenario with these outcomes exists, is honest and has that transcript; then the laws hold of its end,
    // and the summary is written. Otherwise the first thing that is wrong is told. The shelf stays as it is.
    ensures audits { IsOrder words.now Audit → IsAudit result (S.left source.old) (S.left source.new) (K.written sink.old) (K.written sink.new) × (shelf.new ≡ shelf.old) }

    // A fault comes only where a count of faults rose, over every source, sink and shelf.
    ensures faults { HasFaults result (S.faults source.old) (S.faults source.new) (K.faults sink.old) (K.faults sink.new) (H.faults shelf.old) (H.faults shelf.new) }

    // `check` and `take` take at most 2,049 bytes, `accept` 257, `spool` and `batch` 1,048,577, `replay` 16,777,217 and `audit` 67,108,865, from the front;
    // with a silent status nothing is written.
    ensures silent { (order : Order) (mirror : Option (List ℕ)) → IsGiven words.now order mirror → IsSilentOf order result → sink.new ≡ sink.old }
    ensures most { (order : Order) (mirror : Option (List ℕ)) → IsGiven words.now order mirror → TookAtMost (most_of order) (S.left source.old) (S.left source.new) }

    // The notice that is handed out for standard error: of a message that is taken with `--tell`, over one disk or two, where it is
    // done, its class, and the name and the status of each data key whose record the party put, which is the one that is opened of
    // the two. Every other order has none, and neither have words that stand for no order.
    ensures notice { (order : Order) → IsOrder words.now order → LeavesNotice (is_telling words.now) order moment result (S.left source.old) (H.entry shelf.old) notice.new }
    ensures mirrored_notice { (order : Order) (mirror : List ℕ) → IsMirrored words.now order mirror → LeavesMirroredNotice (is_telling words.now) order mirror moment result (S.left source.old) (H.entry shelf.old) notice.new }
    ensures no_order { (kind : UsageKind) → usage_of words.now ≡ Some kind → notice.new ≡ None }
{
    *notice = None;
    law_one_order();
    law_few_events();
    law_ledger_apart();
    law_mirror_apart();
    law_spool_apart();
    law_calls::<H>();
    match read_order(alloc, words) {
        Ok(given) => match given.mirror {
            None => {
                let Given { order, tell, .. } = given;
                carry_out(alloc, order, tell, moment, source, sink, shelf, notice)
            }
            Some(mirror) => {
                let Given { order, tell, .. } = given;
                carry_out_mirrored(
                    alloc, order, &mirror, tell, moment, source, sink, shelf, notice,
                )
            }
        },
        Err(LineFault::Usage(kind)) => help_or_fault(alloc, words, kind, sink),
        Err(LineFault::NoMemory) => Status::NoMemory,
    }
}
