// What is decided of an entry, as it is kept.
use x_base::Text;

/// What is decided of an entry: the verdict's number (0 where it is accepted), the reply, and the code in format 2 of the
/// change; each of the two is empty where there is none.
#[derive(Drop)]
pub struct EntryPlan {
    pub number: u16,
    pub reply: Text,
    pub change: Text,
}
