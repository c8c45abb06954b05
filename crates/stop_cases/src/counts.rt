// How many stops leave a file as it is to be.
use std::alloc::Global;
use x_base::NoMemory;

/// What is told of that number, which is none where something else came. One that isn't fixed is told as `at most 2` where it is.
pub(crate) fn told(alloc: Global, stops: Option<u64>, is_fixed: bool) -> Result<String, NoMemory> {
    match stops {
        Some(0..=2) if !is_fixed => Ok(format!(in alloc; "at most 2")?),
        Some(stops) => Ok(format!(in alloc; "{stops}")?),
        None => Ok(format!(in alloc; "something else")?),
    }
}
