// The edge over real files, of which nothing is told.
ghost use Rattle.std.specs.Prelude.{◌≡◌, ◌≤◌, ◌+◌, true, OnErr, IsErr, IsErrOf};
ghost use Rattle.x_base.specs.Edge.{Rose};
ghost use Rattle.x_disk.specs.Untold.{untold, untold_sound};

use crate::{Disk, DiskErr, LockingFiles};
use std::fs::{OpenFile, OpenOptions, Permissions};
use std::io;
use std::io::{ErrorKind, Read, Seek, SeekFrom, Write};
use std::os::unix::fs::{MetadataExt, OpenOptionsExt, PermissionsExt};

// The rights of group and others.
const OTHERS: u32 = 0o077;

// Reading and writing, by the owner alone.
const OWNER_ALONE: u32 = 0o600;

/// A file of the current folder, whose lock it has as long as it is there. Each error of the system is counted as a fault.
/// Once a sync has failed, every later one fails.
#[derive(Drop)]
pub struct FileDisk<R: LockingFiles> {
    rt: R,
    path: String,
    // none where the file isn't there
    file: Option<R::File>,
    // whether the folder was synced since the file was found or made
    folder_synced: bool,
    // whether a sync has failed: a later one may answer Ok with nothing written
    sync_failed: bool,
    faults: u64,
}

/// The file with its lock, to which nobody but its owner has a right, or none where it isn't there. Where another command
/// has the lock, the name leads to what is no regular file, or rights of others can't be taken away, it is an error.
pub(crate) fn open_if_there<R: LockingFiles>(rt: &R, path: &str) -> io::Result<Option<R::File>> {
    match OpenOptions::new().read(true).write(true).open(rt, path) {
        Ok(file) => {
            lock(rt, path, &file)?;
            close_to_others(&file)?;
            Ok(Some(file))
        }
        Err(e) if e.kind() == ErrorKind::NotFound => Ok(None),
        Err(e) => Err(e),
    }
}

// Takes the lock, and sees that the name still stands for this file: another one that took its place is another lock. And
// that it is a regular file: the rights of a device are the whole machine's.
fn lock<R: LockingFiles>(rt: &R, path: &str, file: &R::File) -> io::Result<()> {
    rt.try_lock(file)?;
    let opened = file.metadata()?;
    let named = rt.metadata(path)?;
    if opened.is_file() && opened.dev() == named.dev() && opened.ino() == named.ino() {
        Ok(())
    } else {
        Err(io::Error::from(ErrorKind::NotFound))
    }
}

// Takes the rights of group and others away, if they have any, and sees that none is left: there are file systems that
// answer Ok and change nothing.
fn close_to_others<F: OpenFile>(file: &F) -> io::Result<()> {
    if !is_open_to_others(file)? {
        return Ok(());
    }
    file.set_permissions(Permissions::from_mode(OWNER_ALONE))?;
    if is_open_to_others(file)? {
        return Err(io::Error::from(ErrorKind::PermissionDenied));
    }
    Ok(())
}

fn is_open_to_others<F: OpenFile>(file: &F) -> io::Result<bool> {
    Ok(file.metadata()?.mode() & OTHERS != 0)
}

fn length_of<F: OpenFile>(file: &Option<F>) -> io::Result<u64> {
    match file {
        Some(file) => Ok(file.metadata()?.len()),
        None => Ok(0),
    }
}

fn read_from<F: Read + Seek>(file: &mut Option<F>, at: u64, buf: &mut [u8]) -> io::Result<()> {
    match file {
        Some(file) => {
            file.seek(SeekFrom::Start(at))?;
            file.read_exact(buf)
        }
        None if buf.is_empty() => Ok(()),
        None => Err(io::Error::from(ErrorKind::UnexpectedEof)),
    }
}

fn write_to<F: Write + Seek>(file: &mut F, at: u64, bytes: &[u8]) -> io::Result<()> {
    file.seek(SeekFrom::Start(at))?;
    file.write_all(bytes)
}

// Makes the entry of a new file last.
fn sync_folder<R: LockingFiles>(rt: &R) -> io::Result<()> {
    OpenOptions::new().read(true).open(rt, ".")?.sync_all()
}

impl<R: LockingFiles> FileDisk<R> {
    pub(crate) fn new(rt: R, path: String, file: Option<R::File>) -> FileDisk<R>
        ensures { result.faults ≡ 0 }
    {
        FileDisk {
            rt,
            path,
            file,
            folder_synced: false,
            sync_failed: false,
            faults: 0,
        }
    }

    pub(crate) fn faults(&self) -> u64
        ensures { result ≡ self.now.faults }
    {
        self.faults
    }

    // The first write makes the file, which its owner alone may read and write, and locks it before a byte is written. Where
    // another command has made it in the meantime, it is an error.
    fn write_file(&mut self, at: u64, bytes: &[u8]) -> io::Result<()>
        ensures { self.new.faults ≡ self.old.faults }
    {
        if let Some(file) = &mut self.file {
            return write_to(file, at, bytes);
        }
        let mut file = OpenOptions::new()
            .read(true)
            .write(true)
            .create_new(true)
            .mode(OWNER_ALONE)
            .open(&self.rt, self.path.as_str())?;
        lock(&self.rt, self.path.as_str(), &file)?;
        self.folder_synced = false;
        let outcome = write_to(&mut file, at, bytes);
        self.file = Some(file);
        outcome
    }

    // The folder's entry is synced too, also of a file that was found: whoever made it may have ended before that.
    fn sync_both(&mut self) -> io::Result<()>
        ensures faults { self.new.faults ≡ self.old.faults }
    {
        let Some(file) = &self.file else {
            return Ok(());
        };
        file.sync_all()?;
        if !self.folder_synced {
            sync_folder(&self.rt)?;
            self.folder_synced = true;
        }
        Ok(())
    }

    fn sync_file(&mut self) -> io::Result<()>
        ensures faults { self.new.faults ≡ self.old.faults }
        ensures failed { self.old.sync_failed ≡ true → IsErr result × (self.new.sync_failed ≡ true) }
        ensures stays { IsErr result → self.new.sync_failed ≡ true }
    {
        if self.sync_failed {
            return Err(io::Error::from(ErrorKind::Other));
        }
        let outcome = self.sync_both();
        self.sync_failed = outcome.is_err();
        outcome
    }

    fn open_anew(&mut self) -> io::Result<()>
        ensures faults { self.new.faults ≡ self.old.faults }
        ensures failed { self.new.sync_failed ≡ self.old.sync_failed }
    {
        // closed first, so that its lock can be taken anew
        self.file = None;
        self.file = open_if_there(&self.rt, self.path.as_str())?;
        self.folder_synced = false;
        Ok(())
    }
}

/// The outcome, an error counted.
pub(crate) fn counted<T: Drop>(faults: &mut u64, outcome: io::Result<T>) -> Result<T, DiskErr>
    ensures fault { OnErr result (Rose faults.old faults.new) }
    ensures climbs { faults.old ≤ faults.new }
    ensures memory { IsErrOf result DiskErr.NoMemory → ⊥ }
{
    match outcome {
        Ok(value) => Ok(value),
        Err(_) => {
            *faults = faults.saturating_add(1);
            Err(DiskErr::Fault)
        }
    }
}

impl<R: LockingFiles + Drop> Disk for FileDisk<R> {
    ghost told = { λ d. untold d.faults };

    ghost sound = { λ d. untold_sound d.faults };

    fn length(&mut self) -> Result<u64, DiskErr> {
        let outcome = length_of(&self.file);
        counted(&mut self.faults, outcome)
    }

    fn read(&mut self, at: u64, buf: &mut [u8]) -> Result<(), DiskErr> {
        let outcome = read_from(&mut self.file, at, buf);
        counted(&mut self.faults, outcome)
    }

    fn write_at(&mut self, at: u64, bytes: &[u8]) -> Result<(), DiskErr> {
        let outcome = self.write_file(at, bytes);
        counted(&mut self.faults, outcome)
    }

    fn sync(&mut self) -> Result<(), DiskErr> {
        let outcome = self.sync_file();
        counted(&mut self.faults, outcome)
    }

    fn power_off(&mut self, _choice: u64) -> Result<(), DiskErr> {
        let outcome = self.open_anew();
        counted(&mut self.faults, outcome)
    }
}
