// Texts that are read.
use crate::texts::refusal_told;
use csm_grammar::ReadRefusal;
use csm_read::read;
use std::alloc::Global;
use x_base::NoMemory;

fn length_read(alloc: Global, bytes: &[u8]) -> Result<u64, ReadRefusal> {
    match read(alloc, bytes) {
        Ok(parsed) => Ok(parsed.len as u64),
        Err(refusal) => Err(refusal),
    }
}

/// How many bytes the message has that is read, or why none is.
pub(crate) fn read_told(alloc: Global, bytes: &[u8]) -> Result<String, NoMemory> {
    match length_read(alloc, bytes) {
        Ok(length) => Ok(format!(in alloc; "read {length}")?),
        Err(ReadRefusal::NoMemory) => Err(NoMemory),
        Err(refusal) => refusal_told(alloc, refusal),
    }
}
