use crate::TornDisk;
use x_base::Ident;

/// An identity, and its disk where that isn't taken out.
#[derive(Drop)]
pub(crate) struct Slot {
    pub name: Ident,
    pub disk: Option<TornDisk>,
}
