// Whether a change was carried out.
ghost use Rattle.std.specs.Prelude.{◌↔◌, IsTrue};
ghost use Rattle.party_state.specs.Ranges.{HasNoBegin};
ghost use Rattle.role_base.specs.Apart.{AreDone};

use crate::node::Node;
use party_state::Change;
use role_base::are_done;
use x_disk::Disk;

impl<D: Disk> Node<D> {
    /// Whether each edit of a change, done once more, changes nothing. Takes no memory, and makes no disk call.
    pub fn settled(&self, change: &Change) -> bool
        requires { HasNoBegin change.now }
        ensures { IsTrue result ↔ AreDone self.now.party change.now }
    {
        are_done(self.view(), change)
    }
}
