// Files that one command at a time has.

use std::fs::File;
use std::io;
use std::rt::Files;

/// The calls of the system on files, with the lock on a whole file.
pub trait LockingFiles: Files {
    /// Takes the file's advisory lock, which stays until the file is closed. Never waits: where another open of the file
    /// has the lock, it answers an error.
    fn try_lock(&self, file: &Self::File) -> io::Result<()>;
}

impl LockingFiles for HostRuntime {
    fn try_lock(&self, file: &File) -> io::Result<()> {
        file.try_lock()?;
        Ok(())
    }
}
