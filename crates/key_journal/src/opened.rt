// Opening a journal and reading its bodies.
ghost use Rattle.std.specs.Prelude.{◌≡◌, true};
ghost use Rattle.x_disk.specs.Disk.{IsDurable};
ghost use Rattle.key_journal.specs.States.{HasRoom};
ghost use Rattle.key_journal.specs.Reading.{IsOpening, IsReadOn};

use crate::header::look;
use crate::judge::Judged;
use crate::layout::AREA_SIZE;
use crate::reader::Reader;
use crate::{Broken, Cause, Ready, Unmade};
use std::alloc::Global;
use std::marker::Model;
use x_base::Text;
use x_disk::Disk;

/// A journal whose bodies are read one after the other.
#[derive(Drop)]
pub struct Opened<D: Disk> {
    reader: Reader<D>,
    gate: u64,
    end: u64,
    ended: bool,
}

impl<D: Disk> Model for Opened<D> {
    ghost use Rattle.key_journal.specs.States.{Reading};
    ghost use Rattle.key_journal.specs.Opening.{IsOpen};

    ghost Value = { Reading D };

    ghost view = { λ o. record { disk = o.reader.disk; gate = o.gate; end = o.end; ended = o.ended } };

    ghost invariant = { λ o. IsOpen (D.told o.reader.disk) o.reader.size o.gate o.end o.ended };
}

/// Syncs and reads the header. Comes with `Blank` exactly where the image is blank, and with `Damaged(2)` exactly where it
/// isn't and its magic doesn't stand.
pub fn open_disk<D: Disk>(disk: D) -> Result<Opened<D>, Unmade<D>>
    ensures { IsOpening D.told disk result }
{
    let mut disk = disk;
    let header = match look(&mut disk) {
        Ok(header) => header,
        Err(cause) => {
            return Err(Unmade {
                disk,
                cause: Cause::from(cause),
            });
        }
    };
    if let Some(cause) = header.refusal() {
        return Err(Unmade { disk, cause });
    }
    let gate = header.start();
    Ok(Opened {
        reader: Reader::new(disk, header.length),
        gate,
        end: gate + AREA_SIZE,
        ended: false,
    })
}

impl<D: Disk> Broken<D> {
    /// Opens the journal anew: `open_disk` over its disk.
    pub fn reopen(self) -> Result<Opened<D>, Unmade<D>>
        ensures { IsOpening D.told self.disk result }
    {
        open_disk(self.give_up().disk)
    }
}

impl<D: Disk> Opened<D> {
    /// The next body, and none at the first gate that isn't open. Comes with `Damaged` and the gate's place exactly where
    /// the gate is open and its frame is damaged, or where the area's first gate isn't open. After an error the next call
    /// begins at the same gate.
    pub fn next(&mut self, alloc: Global) -> Result<Option<Text>, Cause>
        ensures { IsReadOn D.told self.old self.new result }
    {
        if self.ended {
            return Ok(None);
        }
        match self.reader.judge_at(self.gate, self.end)? {
            Judged::Frame(n) => {
                let body = self.reader.body(alloc, self.gate + 5, n)?;
                self.gate += 5 + n;
                Ok(Some(body))
            }
            Judged::Damaged => Err(Cause::Damaged(self.gate)),
            Judged::Closed => {
                if self.gate + AREA_SIZE == self.end {
                    return Err(Cause::Damaged(self.gate));
                }
                self.ended = true;
                Ok(None)
            }
        }
    }

    /// The place of the gate that is read next.
    pub fn gate(&self) -> u64
        ensures { result ≡ self.now.gate }
    {
        self.gate
    }

    /// The journal at rest. Needs that `next` gave none.
    pub fn ready(self) -> Ready<D>
        requires { self.ended ≡ true }
        ensures room { HasRoom (D.told result.disk) result.gate result.end }
        ensures disk { result.disk ≡ self.disk }
        ensures place { (result.gate ≡ self.gate) × (result.end ≡ self.end) }
        ensures durable { IsDurable (D.told result.disk) }
    {
        let Opened {
            reader,
            gate,
            end,
            ..
        } = self;
        Ready::new(reader.into_disk(), gate, end)
    }

    /// The disk.
    pub fn into_disk(self) -> D
        ensures disk { result ≡ self.disk }
        ensures durable { IsDurable (D.told result) }
    {
        self.reader.into_disk()
    }
}
