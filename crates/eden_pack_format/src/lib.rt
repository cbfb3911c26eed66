//! The formats of Git's packs (gitformat-pack(5)), over bytes in memory: what stands before an entry's stream, what a
//! delta makes of its base, and what the index of a pack, or of many, says.
//!
//! Each function says exactly what the bytes mean, or that they mean nothing. Whatever they are, it ends, and room is
//! taken as a delta's target grows, never by a size that is claimed.
#![tactic(auto)]

mod delta;
mod entry;
mod index;
mod multi;
mod number;
mod table;

pub use delta::apply;
pub use entry::{EntryHead, EntryKind, read_entry_head};
pub use index::{FanOut, is_index, number_of};
pub use multi::{
    Chunk, MultiFront, MultiPlace, find_chunk, read_multi_front, read_multi_place, split_name,
};
pub use table::{Place, place_of};
