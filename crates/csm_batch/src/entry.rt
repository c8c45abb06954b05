use x_base::Text;

/// Bytes that arrive, 1 to 1,040, and the moment of that.
#[derive(Drop)]
pub struct Entry {
    pub moment: u64,
    pub bytes: Text,
}
