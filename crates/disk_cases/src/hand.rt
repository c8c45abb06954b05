// A shelf, and the disk that was fetched from it.
use crate::orders::{Ordered, number, number_and_bytes, split};
use key_journal::Cause;
use std::alloc::Global;
use x_base::Ident;
use x_disk::{Disk, DiskErr, Shelf};

/// A shelf, and the disk that was fetched last, until it is put back.
#[derive(Drop)]
pub(crate) struct Hand<H: Shelf> {
    alloc: Global,
    pub(crate) shelf: H,
    pub(crate) disk: Option<H::Disk>,
}

impl<H: Shelf> Hand<H> {
    /// The shelf, before a disk is fetched.
    pub(crate) fn new(alloc: Global, shelf: H) -> Hand<H> {
        Hand {
            alloc,
            shelf,
            disk: None,
        }
    }

    /// Puts the fetched disk back under this name, or fetches the one of this name.
    fn exchange(&mut self, name: &Ident) -> Result<(), DiskErr> {
        match self.disk.take() {
            Some(disk) => self.shelf.put_back(name, disk),
            None => {
                self.disk = Some(self.shelf.fetch(name)?);
                Ok(())
            }
        }
    }
}

/// The bytes of a disk that has few, in hexadecimal digits.
fn read<D: Disk>(alloc: Global, disk: &mut D) -> Result<String, DiskErr> {
    let length = disk.length()?;
    if length > 100 {
        return Ok(format!(in alloc; "{length} bytes")?);
    }
    let mut bytes = vec![in alloc; 0u8; length as usize]?;
    disk.read(0, &mut bytes)?;
    Ok(hex::encode_upper(alloc, bytes.as_slice())?)
}

/// Writes bytes of hexadecimal digits at a place.
fn write<D: Disk>(alloc: Global, disk: &mut D, words: &str) -> Result<(), DiskErr> {
    let Some((place, bytes)) = number_and_bytes(alloc, words) else {
        return Err(DiskErr::NoMemory);
    };
    if place > 1000 || bytes.len() > 1000 {
        return Err(DiskErr::NoMemory);
    }
    disk.write_at(place, &bytes)
}

/// What is told of an order to a disk.
pub(crate) fn disk_order<D: Disk>(
    alloc: Global,
    disk: &mut D,
    word: &str,
    words: &str,
) -> Result<String, DiskErr> {
    match word {
        "write" => write(alloc, disk, words)?,
        "sync" => disk.sync()?,
        "off" => disk.power_off(number(words).unwrap_or(0))?,
        "length" => return Ok(disk.length()?.to_string(alloc)?),
        _ => return read(alloc, disk),
    }
    Ok(String::new(alloc))
}

impl<H: Shelf> Ordered for Hand<H> {
    fn order(&mut self, order: &str) -> Result<String, Cause> {
        let (word, words) = split(order);
        if let Some(disk) = &mut self.disk
            && word != "back"
        {
            return Ok(disk_order(self.alloc, disk, word, words)?);
        }
        let Ok(name) = Ident::read(words.as_bytes()) else {
            return Err(Cause::NotEmpty);
        };
        self.exchange(&name)?;
        Ok(String::new(self.alloc))
    }
}
