use eden_fuse_format::StatFsOut;
use eden_fuse_meaning::Owner;

/// How a mount is shown.
#[derive(Clone, Copy)]
pub struct Manner {
    /// Who owns all that is shown.
    pub owner: Owner,
    /// For how many seconds the kernel may keep names, that there are none, and attributes.
    pub keep: u64,
    /// What is told of the disk.
    pub space: StatFsOut,
}
