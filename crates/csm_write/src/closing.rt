use csm_grammar::Shut;

/// What closes a text that is written.
#[derive(Clone, Copy)]
pub enum Closing {
    /// The authentication code of the text under this key.
    Mac(u64),
    /// The error detection code of the text.
    Edc,
    /// These digits.
    Stated(Shut),
}
