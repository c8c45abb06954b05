// Two shelves over the current folder, in which a file is.
use crate::hand::Hand;
use crate::orders::{Ordered, split, told};
use key_journal::Cause;
use std::fs::{self, Permissions};
use std::io;
use std::os::unix::fs::{MetadataExt, PermissionsExt};
use x_disk::{Disk, FolderShelf};

const FILE: &str = "CASES.x917";

/// Two shelves over the folder of the file.
#[derive(Drop)]
pub(crate) struct Files {
    rt: HostRuntime,
    own: Hand<FolderShelf<HostRuntime>>,
    other: Hand<FolderShelf<HostRuntime>>,
}

fn hand_of(rt: &HostRuntime) -> Option<Hand<FolderShelf<HostRuntime>>> {
    let alloc = rt.alloc();
    Some(Hand::new(alloc, FolderShelf::new(rt.clone().ok()?, alloc)))
}

/// The shelves, without a file in their folder.
pub(crate) fn files_of(rt: &HostRuntime) -> Option<Files> {
    let _ = fs::remove_file(rt, FILE);
    Some(Files {
        rt: rt.clone().ok()?,
        own: hand_of(rt)?,
        other: hand_of(rt)?,
    })
}

/// Makes the file of three bytes with this mode, in octal digits.
fn make(rt: &HostRuntime, mode: &str) -> io::Result<()> {
    fs::write(rt, FILE, b"abc")?;
    let mode = u32::from_str_radix(mode, 8).unwrap_or(0);
    fs::set_permissions(rt, FILE, Permissions::from_mode(mode))
}

/// How long the file is, or the bits of its mode that say who may use it, in octal digits.
fn told_of_file(rt: &HostRuntime, word: &str) -> Result<String, Cause> {
    let alloc = rt.alloc();
    let Ok(made) = fs::metadata(rt, FILE) else {
        return told("none".to_string(alloc));
    };
    if word == "long" {
        return told(made.len().to_string(alloc));
    }
    let mode = made.mode() & 0o777;
    told(format!(in alloc; "{mode:o}"))
}

impl Files {
    /// Makes the file.
    fn made(&self, mode: &str) -> Result<String, Cause> {
        match make(&self.rt, mode) {
            Ok(()) => Ok(String::new(self.rt.alloc())),
            Err(_) => Err(Cause::Fault),
        }
    }

    /// Reads bytes behind those of the file.
    fn read_on(&mut self) -> Result<String, Cause> {
        let Some(disk) = &mut self.own.disk else {
            return Err(Cause::NotEmpty);
        };
        disk.read(4, &mut [9; 5])?;
        Ok(String::new(self.rt.alloc()))
    }
}

impl Ordered for Files {
    fn order(&mut self, order: &str) -> Result<String, Cause> {
        let (word, words) = split(order);
        match word {
            "other" => self.other.order(words),
            "make" => self.made(words),
            "long" | "mode" => told_of_file(&self.rt, word),
            "read" if words == "on" => self.read_on(),
            _ => self.own.order(order),
        }
    }
}
