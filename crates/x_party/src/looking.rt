// A party is looked at: the notice of a message, if it were accepted. Its disk is put back.
ghost use Rattle.std.specs.Prelude.{◌≡◌, ◌≤◌, IfOk, IsErrOf};
ghost use Rattle.x_base.specs.Edge.{Rose};
ghost use Rattle.x_disk.specs.Disk.{IsUntouched, LeavesNoMore, LeavesOnly};
ghost use Rattle.x_disk.specs.Shelf.{OthersStay};
ghost use Rattle.member.specs.Deciding.{decision};
ghost use Rattle.x_party.specs.Notices.{FindsNotice, notice_of};

use crate::wording::notice;
use key_journal::{Cause, Unmade};
use member::{decide, lead};
use node_core::Node;
use party_state::{Input, State};
use std::alloc::Global;
use x_base::{Ident, NoMemory, Text};
use x_disk::{Disk, DiskErr, Shelf};

/// The notice of what a party decides of an input at a moment, given the word of the class of its message.
pub fn notice_at(
    alloc: Global,
    state: &State,
    input: &Input,
    class: &[u8],
    moment: u64,
) -> Result<Text, NoMemory>
    ensures { IfOk result (λ text. text ≡ notice_of class.now (decision state.now input.now moment).change) }
{
    let lead = lead(state, input);
    let decided = decide(alloc, state, input, &lead, moment)?;
    notice(alloc, class, decided.change)
}

/// The notice of an input of this class at the party on the disk; none where no party stands there. Nothing is written.
fn notice_on<D: Disk>(
    alloc: Global,
    disk: D,
    input: &Input,
    class: &[u8],
    moment: u64,
) -> (D, Result<Option<Text>, DiskErr>)
    ensures notice { IfOk result.1 (FindsNotice (D.told disk) input.now class.now moment) }
    ensures now { (D.told result.0).now ≡ (D.told disk).now }
    ensures images { LeavesNoMore (D.told disk) (D.told result.0) }
    ensures any_moment { LeavesOnly (D.told disk) (D.told result.0) (D.told disk).may_leave }
    ensures fault { IsErrOf result.1 DiskErr.Fault → Rose (D.told disk).faults (D.told result.0).faults }
{
    match Node::open_from(alloc, disk) {
        Ok(node) => {
            let text = notice_at(alloc, node.view(), input, class, moment);
            match text {
                Ok(text) => (node.into_disk(), Ok(Some(text))),
                Err(_) => (node.into_disk(), Err(DiskErr::NoMemory)),
            }
        }
        Err(Unmade { disk, cause }) => match cause {
            Cause::Fault => (disk, Err(DiskErr::Fault)),
            Cause::NoMemory => (disk, Err(DiskErr::NoMemory)),
            _ => (disk, Ok(None)),
        },
    }
}

/// The notice of an input of this class at the party under this name; none where no party stands there. Nothing is written, and
/// the disk is put back, whatever comes.
pub(crate) fn look<H: Shelf>(
    alloc: Global,
    shelf: &mut H,
    name: &Ident,
    input: &Input,
    class: &[u8],
    moment: u64,
) -> Result<Option<Text>, DiskErr>
    ensures notice { IfOk result (FindsNotice (H.entry shelf.old name.now) input.now class.now moment) }
    ensures untouched { IsUntouched (H.entry shelf.old name.now) (H.entry shelf.new name.now) }
    ensures others { OthersStay name.now (H.entry shelf.old) (H.entry shelf.new) }
    ensures later { H.faults shelf.old ≤ H.faults shelf.new }
    ensures fault { IsErrOf result DiskErr.Fault → Rose (H.faults shelf.old) (H.faults shelf.new) }
{
    let disk = match shelf.fetch(name) {
        Ok(disk) => disk,
        Err(error) => return Err(error),
    };
    let (disk, notice) = notice_on(alloc, disk, input, class, moment);
    match shelf.put_back(name, disk) {
        Ok(()) => notice,
        Err(error) => Err(error),
    }
}
