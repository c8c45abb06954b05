// A disk with a journal.
ghost use Rattle.std.specs.Prelude.{IfOk};
ghost use Rattle.key_journal.specs.States.{IsFrame};

use crate::hand::disk_order;
use crate::orders::{Ordered, number, number_and_bytes, split, told};
use key_journal::{Broken, Cause, Ready, frame, open_disk, prepare};
use std::alloc::Global;
use x_base::Text;
use x_disk::{Fused, TornDisk};

/// A disk on which a journal stands or is begun.
#[derive(Drop)]
pub(crate) struct Journal {
    alloc: Global,
    disk: Option<TornDisk>,
}

/// The frame of the body, which has 1 to 4,194,304 bytes.
fn framed(alloc: Global, body: &[u8]) -> Result<Text, Cause>
    ensures { IfOk result IsFrame }
{
    if body.is_empty() || body.len() > 4_194_304 {
        return Err(Cause::NotEmpty);
    }
    match frame(alloc, body) {
        Ok(text) => Ok(text),
        Err(_) => Err(Cause::NoMemory),
    }
}

/// A body of so many bytes, all alike: their number, and the byte.
fn body_of(alloc: Global, words: &str) -> Result<Vec<u8>, Cause> {
    let (length, byte) = split(words);
    let (Some(length), Some(byte)) = (number(length), number(byte)) else {
        return Err(Cause::NotEmpty);
    };
    if length > 4_194_304 || byte > 255 {
        return Err(Cause::NotEmpty);
    }
    match vec![in alloc; byte as u8; length as usize] {
        Ok(body) => Ok(body),
        Err(_) => Err(Cause::NoMemory),
    }
}

/// The disk with a new journal of this body.
fn begun(alloc: Global, disk: TornDisk, words: &str) -> Result<TornDisk, Cause> {
    let body = body_of(alloc, words)?;
    let text = framed(alloc, &body)?;
    let blank = match prepare(disk) {
        Ok(blank) => blank,
        Err(unmade) => return Err(unmade.cause),
    };
    match blank.create(text.bytes()) {
        Ok(ready) => Ok(ready.into_disk()),
        Err(broken) => Err(broken.give_up().cause),
    }
}

/// The journal at rest and the number of its bodies, of which it has at most four.
fn at_rest(alloc: Global, disk: TornDisk) -> Result<(Ready<TornDisk>, u64), Cause> {
    let mut opened = match open_disk(disk) {
        Ok(opened) => opened,
        Err(unmade) => return Err(unmade.cause),
    };
    for number in 0..5 {
        if opened.next(alloc)?.is_none() {
            return Ok((opened.ready(), number));
        }
    }
    Err(Cause::NotEmpty)
}

/// How many calls of a disk pass, and the frame of a body.
fn calls_and_frame(alloc: Global, words: &str) -> Result<(u64, Text), Cause>
    ensures { IfOk result (λ r. IsFrame r.1) }
{
    let Some((calls, body)) = number_and_bytes(alloc, words) else {
        return Err(Cause::NotEmpty);
    };
    let text = framed(alloc, &body)?;
    Ok((calls, text))
}

/// The disk of the journal that is opened once more behind a failure.
fn reopened(broken: Broken<Fused<TornDisk>>) -> TornDisk {
    match broken.reopen() {
        Ok(opened) => opened.into_disk().into_inner(),
        Err(unmade) => unmade.disk.into_inner(),
    }
}

/// The disk of the journal to which a body more is added, while so many calls pass.
fn longer(alloc: Global, disk: TornDisk, words: &str) -> Result<TornDisk, Cause> {
    let (calls, text) = calls_and_frame(alloc, words)?;
    let (ready, _) = at_rest(alloc, disk)?;
    let ready = ready.fuse(calls);
    if !ready.fits(text.bytes().len()) {
        return Err(Cause::NotEmpty);
    }
    let staged = match ready.stage(text.bytes()) {
        Ok(staged) => staged,
        Err(broken) => return Ok(reopened(broken)),
    };
    match staged.commit() {
        Ok(ready) => Ok(ready.into_disk().into_inner()),
        Err(broken) => Ok(reopened(broken)),
    }
}

/// The disk of the journal that is switched to a body, while so many calls pass.
fn switched(alloc: Global, disk: TornDisk, words: &str) -> Result<TornDisk, Cause> {
    let (calls, text) = calls_and_frame(alloc, words)?;
    let (ready, _) = at_rest(alloc, disk)?;
    match ready.fuse(calls).switch(text.bytes()) {
        Ok(ready) => Ok(ready.into_disk().into_inner()),
        Err(broken) => Ok(broken.give_up().disk.into_inner()),
    }
}

/// The disk of the journal when it is wiped.
fn wiped(alloc: Global, disk: TornDisk) -> Result<TornDisk, Cause> {
    let (ready, _) = at_rest(alloc, disk)?;
    match ready.wipe() {
        Ok(ready) => Ok(ready.into_disk()),
        Err(broken) => Err(broken.give_up().cause),
    }
}

/// Whether the first body of the journal has so many bytes, all alike.
fn is_first(alloc: Global, disk: TornDisk, words: &str) -> Result<bool, Cause> {
    let body = body_of(alloc, words)?;
    let mut opened = match open_disk(disk) {
        Ok(opened) => opened,
        Err(unmade) => return Err(unmade.cause),
    };
    let first = opened.next(alloc)?;
    Ok(matches!(&first, Some(text) if text.bytes() == body.as_slice()))
}

impl Journal {
    /// A disk before its first order.
    pub(crate) fn new(alloc: Global, disk: TornDisk) -> Journal {
        Journal {
            alloc,
            disk: Some(disk),
        }
    }

    /// How many bodies the journal has, or how much room they leave.
    fn counted(&mut self, disk: TornDisk, word: &str) -> Result<String, Cause> {
        let (ready, bodies) = at_rest(self.alloc, disk)?;
        let number = if word == "room" { ready.room() } else { bodies };
        self.disk = Some(ready.into_disk());
        told(number.to_string(self.alloc))
    }

    /// Follows an order that changes the journal.
    fn changed(&mut self, disk: TornDisk, word: &str, words: &str) -> Result<String, Cause> {
        let changed = match word {
            "begin" => begun(self.alloc, disk, words),
            "add" => longer(self.alloc, disk, words),
            "switch" => switched(self.alloc, disk, words),
            _ => wiped(self.alloc, disk),
        };
        self.disk = Some(changed?);
        Ok(String::new(self.alloc))
    }

    /// Follows an order to the disk.
    fn asked(&mut self, mut disk: TornDisk, word: &str, words: &str) -> Result<String, Cause> {
        let told = disk_order(self.alloc, &mut disk, word, words)?;
        self.disk = Some(disk);
        Ok(told)
    }
}

impl Ordered for Journal {
    fn order(&mut self, order: &str) -> Result<String, Cause> {
        let (word, words) = split(order);
        let Some(disk) = self.disk.take() else {
            return Err(Cause::NotEmpty);
        };
        match word {
            "bodies" | "room" => self.counted(disk, word),
            "first" => told(is_first(self.alloc, disk, words)?.to_string(self.alloc)),
            "begin" | "add" | "switch" | "wipe" => self.changed(disk, word, words),
            _ => self.asked(disk, word, words),
        }
    }
}
