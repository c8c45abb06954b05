//! Disks as a journal sees them, and shelves of disks: what a read gives, and what a crash may leave.
#![tactic(auto)]

mod disk;
mod disk_record;
mod files;
mod folder_shelf;
mod fused;
mod fused_shelf;
mod image;
mod locking_files;
mod memory_shelf;
mod shelf;
mod slot;
mod torn;

pub use disk::{Disk, DiskErr};
pub use files::FileDisk;
pub use folder_shelf::FolderShelf;
pub use fused::Fused;
pub use fused_shelf::FusedShelf;
pub use locking_files::LockingFiles;
pub use memory_shelf::MemoryShelf;
pub use shelf::Shelf;
pub use torn::TornDisk;
