// Images in memory, which are opened again and again.
use key_journal::{Cause, Opened, open_disk};
use node_core::Node;
use party_show::show_text;
use std::alloc::Global;
use x_base::Text;
use x_disk::{Disk, DiskErr, TornDisk};

/// No image that is opened here is longer.
const MOST: usize = 16_777_216;

pub fn disk_of(alloc: Global, image: &[u8]) -> Option<TornDisk> {
    if image.len() > MOST {
        return None;
    }
    let mut disk = TornDisk::new(alloc, 0).ok()?;
    disk.write_at(0, image).ok()?;
    Some(disk)
}

// The number of bodies from here on.
fn read_through<D: Disk>(alloc: Global, opened: &mut Opened<D>) -> Result<u64, Cause> {
    for number in 0..u64::MAX {
        if opened.next(alloc)?.is_none() {
            return Ok(number);
        }
    }
    Ok(u64::MAX)
}

/// The number of bodies on a disk, which is opened and read to its end so many times.
pub fn read_back<D: Disk>(alloc: Global, disk: D, times: u64) -> Option<u64> {
    let mut disk = disk;
    let mut number = 0;
    for _ in 0..times {
        let mut opened = open_disk(disk).ok()?;
        number = read_through(alloc, &mut opened).ok()?;
        disk = opened.into_disk();
    }
    Some(number)
}

/// How often a party is opened of its disk, so many times.
pub fn open_again<D: Disk>(alloc: Global, disk: D, times: u64) -> Option<u64> {
    let mut disk = disk;
    for _ in 0..times {
        disk = Node::open_from(alloc, disk).ok()?.into_disk();
    }
    Some(times)
}

/// The lines in which the party of a disk is shown.
pub fn shown<D: Disk>(alloc: Global, disk: D) -> Option<Text> {
    let node = Node::open_from(alloc, disk).ok()?;
    show_text(alloc, node.view()).ok()
}

/// The image of a disk, in front of the bytes, and its length.
pub fn image_into<D: Disk>(disk: &mut D, bytes: &mut [u8]) -> Result<usize, DiskErr> {
    let length = disk.length()? as usize;
    if length > bytes.len() {
        return Err(DiskErr::NoMemory);
    }
    disk.read(0, &mut bytes[..length])?;
    Ok(length)
}
