// A store with edits that it is about to keep.
use change_code::Format;
use key_journal::Ready;
use party_state::Prepared;
use std::marker::Model;
use x_base::Text;
use x_disk::Disk;

/// A store and edits for which all memory is taken. Nothing of them is on the disk yet.
#[derive(Drop)]
pub struct Changing<D: Disk> {
    pub(crate) ready: Ready<D>,
    pub(crate) format: Format,
    pub(crate) prepared: Prepared,
    pub(crate) frame: Option<Text>,
}

impl<D: Disk> Model for Changing<D> {
    ghost use Rattle.key_store.specs.Changing.{ChangingStore, IsChanging};

    ghost Value = { ChangingStore D };

    ghost view = { λ c. record {
      store = record { disk = c.ready.disk; gate = c.ready.gate; end = c.ready.end; format = c.format; party = c.prepared.party };
      edits = c.prepared.edits;
    } };

    ghost invariant = { λ c. IsChanging (D.told c.ready.disk) c.ready.gate c.ready.end c.format c.prepared.party c.prepared.edits c.frame };
}
