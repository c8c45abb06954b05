// What a book keeps of a fact beside its text.
use x_base::FullName;

/// The name of the key, and the place of the latest fact before it that has the same name.
#[derive(Drop)]
pub(crate) struct Entry {
    pub(crate) under: FullName,
    pub(crate) earlier: Option<usize>,
}
