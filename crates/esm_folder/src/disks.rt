// The four disks of a folder.

/// The four disks of a folder.
#[derive(Drop)]
pub struct Disks<D> {
    pub journal: D,
    pub spare: D,
    pub failures: D,
    pub registry: D,
}
