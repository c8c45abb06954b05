// What a scenario leaves behind each of its lines.
use crate::parting::parted;
use crate::playing::{Played, play_over};
use crate::showing::shown_behind;
use replay::PlayResult;
use scenario::read;
use std::alloc::Global;
use x_base::Text;
use x_disk::{DiskErr, MemoryShelf};

/// What stands behind a line.
#[derive(Drop)]
pub(crate) struct Stage {
    /// What the parties show.
    pub(crate) shown: Text,
    /// So many bytes are written at least and at most while this stands.
    pub(crate) least: usize,
    pub(crate) most: usize,
}

/// What a scenario wrote, and what its parties show.
#[derive(Drop)]
struct Left {
    written: Text,
    shown: Text,
}

/// Plays a scenario to its end.
fn whole(alloc: Global, bytes: &[u8]) -> Result<Left, DiskErr> {
    let Ok(scenario) = read(alloc, bytes) else {
        return Err(DiskErr::Fault);
    };
    let mut shelf = MemoryShelf::new(alloc);
    let Played { outcome, written } = play_over(alloc, &scenario, Vec::new(alloc), &mut shelf)?;
    match outcome {
        PlayResult::Done(_) => Ok(Left {
            written,
            shown: shown_behind(alloc, &scenario, &mut shelf, 1)?,
        }),
        _ => Err(DiskErr::Fault),
    }
}

/// How many bytes the lines of parties and links have.
fn set_up_len(bytes: &[u8]) -> usize {
    let mut rest = bytes;
    for _ in 0..bytes.len() {
        let Some((line, behind)) = parted(rest, b'\n') else {
            break;
        };
        if !line.starts_with(b"PARTY ".as_slice()) && !line.starts_with(b"LINK ".as_slice()) {
            break;
        }
        rest = behind;
    }
    bytes.len().saturating_sub(rest.len())
}

/// What stands behind the last link, and behind each line from there on. The lines of an event are written
/// when it is over, the show lines when all are.
pub(crate) fn stages_of(alloc: Global, bytes: &[u8]) -> Result<Vec<Stage>, DiskErr> {
    let set_up = set_up_len(bytes);
    let mut stages = Vec::new(alloc);
    let mut least = 0;
    for at in 0..bytes.len() {
        if bytes[at] == b'\n' && set_up <= at + 1 {
            let (front, behind) = bytes.split_at(at + 1);
            let Left { written, shown } = whole(alloc, front)?;
            let all = written.bytes().len();
            let told = all.saturating_sub(shown.bytes().len());
            let most = if behind.is_empty() { all } else { told };
            stages.push(Stage { shown, least, most })?;
            least = told;
        }
    }
    Ok(stages)
}
