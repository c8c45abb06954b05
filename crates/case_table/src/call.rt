use std::alloc::{AllocError, Global};

/// What a call gives, and what was wanted; none where a call gives no value.
#[derive(Clone, Copy)]
pub struct Call {
    pub(crate) name: &'static str,
    pub(crate) given: Option<u64>,
    pub(crate) wanted: Option<u64>,
}

impl Call {
    /// A call that gives a number.
    pub fn number(name: &'static str, given: u64, wanted: u64) -> Call {
        Call::option(name, Some(given), Some(wanted))
    }

    /// A call that gives a number or none.
    pub fn option(name: &'static str, given: Option<u64>, wanted: Option<u64>) -> Call {
        Call {
            name,
            given,
            wanted,
        }
    }

    /// A call that says yes, told as 1, or no, told as 0.
    pub fn answer(name: &'static str, given: bool, wanted: bool) -> Call {
        Call::number(name, given.into(), wanted.into())
    }
}

/// The value in hexadecimal digits.
pub(crate) fn value_told(alloc: Global, value: Option<u64>) -> Result<String, AllocError> {
    match value {
        Some(number) => format!(in alloc; "{number:x}"),
        None => "none".to_string(alloc),
    }
}
