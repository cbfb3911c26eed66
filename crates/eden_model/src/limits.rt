/// The most bytes of a file.
pub const MAX_FILE: u64 = 1 << 30;

/// The most bytes in one read or write.
pub const MAX_DATA: u64 = 65_536;

/// The most bytes of a new link's target.
pub const MAX_TARGET: u64 = 4_095;

/// The most entries in one listing.
pub const MAX_ENTRIES: u64 = 1_000;

/// The numbers of inodes are below this one.
pub const NUMBER_END: u64 = 1 << 63;
