//! Plain files of a folder: read within a bound, whole or in part, replaced, removed, and waited for until the disk has
//! them.
//!
//! Nothing is known of what lies in a real folder, so that contracts say here what a reader gives, how long an answer
//! may be and which error stands for which; that the system was asked is shown by tests. Want of memory is told from
//! a failure of the device everywhere.
//!
//! **Opening doesn't wait.** What isn't a plain file, as a pipe, is looked at and never opened. Where it takes a plain
//! file's place just after the look, opening it could wait for its other end, forever; so a file is opened for reading
//! and writing, which doesn't wait for a pipe's other end, and what was opened is looked at again before a byte is
//! read. Where the system doesn't let the file be opened so, as in a folder that may only be read, it is looked at
//! once more and opened for reading alone: whoever may change that folder can then still put a pipe there in the
//! moment between the look and the opening, and the call waits for as long as nobody writes to the pipe.
#![tactic(auto)]

mod fault;
mod names;
mod read;
mod sync;
mod write;

pub use fault::{FolderFault, not_stored};
pub use names::entry_in;
pub use read::{Links, front_of, read_file, read_front, read_part, read_within};
pub use sync::{sync_file, sync_names};
pub use write::{Durability, remove_file, replace_file};
