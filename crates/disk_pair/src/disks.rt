use x_disk::Disk;

/// Two disks that are out at once.
#[derive(Drop)]
pub struct Disks<D: Disk> {
    pub first: D,
    pub second: D,
}
