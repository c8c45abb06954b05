use crate::ledger::Ledger;
use crate::refusal::PayRefusal;
use key_journal::Broken;
use x_base::Text;
use x_disk::Disk;

/// What became of a payment. A text is handed out only where its number is stable on the disk.
#[derive(Drop)]
pub enum PayTurn<D: Disk> {
    /// Its number is kept. The text of a payment that is paid out, or the receipt of one that is taken in, without LF.
    Done {
        ledger: Ledger<D>,
        out: Text,
    },
    /// A test failed; nothing changed.
    Refused {
        ledger: Ledger<D>,
        cause: PayRefusal,
    },
    /// The disk failed. The ledger has to be opened again.
    Broken(Broken<D>),
    /// No memory was left; nothing changed.
    NoMemory(Ledger<D>),
}
