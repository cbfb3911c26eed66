//! Inodes: the loaded part of a mount's tree over its stored files, with numbers.
//!
//! A table has the root's entry with all that is loaded below it, and the overlay. Directories are loaded where they
//! are needed, and unloaded where they are old; what both show together stays the same. `eden_coupling` has the words.
#![tactic(auto)]

mod along;
mod fill;
mod gone;
mod inodes;
mod laws;
mod listing;
mod load;
mod look;
mod numbers;
mod seen;
mod trail;
mod unload;

pub use gone::Gone;
pub use inodes::Inodes;
pub use laws::place_laws;
pub use listing::{Listed, save, save_changed, save_renamed, write_listing};
pub use seen::Seen;
pub use trail::Trail;
pub use unload::has_none_inside;
