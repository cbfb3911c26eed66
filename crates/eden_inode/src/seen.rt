use eden_model::{Kind, Origin};

/// The last entry in memory on a path.
#[derive(Clone, Copy, PartialEq, Eq)]
pub struct Seen {
    /// How many of the path's names lead to it: all of them where it is the entry at the path.
    pub names: usize,
    /// The inode's number.
    pub number: u64,
    pub kind: Kind,
    pub origin: Origin,
    /// Whether it is a loaded directory. Then the next name of the path isn't there.
    pub loaded: bool,
}
