//! The steps that make a mount's directories its own, change their listings and store the files of their entries:
//! stored first, and then so in memory.
//!
//! They work on an entry in memory with what is loaded below it (`eden_tree`) and on the stored files of the mount
//! (`eden_overlay`). Each owns its stores and its change in memory, so that a contract compares before and after alone;
//! `eden_coupling` has the laws by which files and memory stay tied.
#![tactic(auto)]

mod addition;
mod chain;
mod change;
mod content;
mod entry_change;
mod entry_move;
mod fault;
mod memory;
mod moving;
mod new_entry;
mod owning;
mod reform;
mod removal;
mod renaming;
mod saving;

pub use addition::add_entry;
pub use content::store_content;
pub use entry_change::change_entry;
pub use entry_move::move_entry;
pub use fault::told;
pub use new_entry::NewEntry;
pub use owning::materialise;
pub use reform::set_kind;
pub use removal::remove_entry;
pub use saving::save_above;
