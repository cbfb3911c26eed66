//! A mount shown as a folder: the kernel's messages answered by a mount's replies.
//!
//! `Shown` is the service of a session. It finds the path at which a message's node lies by now, asks the mount what
//! the message means there, request after request, and answers what that came to: attributes, entries, bytes, rows of
//! a directory, or an error's number. Nodes are told of and forgotten as the kernel says, and an open directory is read
//! on where its last listing has been.
//!
//! A file that is removed or replaced while it is open gets a name of the root that nobody sees: no listing has it, no
//! message may name it, and the file goes with its last close. What a run that was cut off left at such names, up to
//! 1,000 of them, goes as the next one starts.
//!
//! What is written waits: a write is answered at once, and the bytes of one after another are stored together, before
//! anyone looks at the file, at `close` and `fsync`, and where there are too many of them. Pieces that lie apart wait
//! with what the file has between them. If a store fails, whoever looked is told the error, and they wait still; only
//! the last close drops them, and the session's end, at which all that waits is stored: whoever takes the mount back
//! then is told the first error. An `fsync`, of a file or a directory, asks the mount then to wait for the disk, and is
//! told an error where the mount doesn't know that nothing could be lost. Which times are told isn't promised. Nothing
//! here reads or writes a descriptor.
#![tactic(auto)]

mod attributes;
mod changing;
mod concluding;
mod extents;
mod laws;
mod listing;
mod looking;
mod manner;
mod mount;
mod naming;
mod opens;
mod pages;
mod reading;
mod running;
mod shown;
mod sorts;
mod storing;
mod times;

pub use extents::{Extent, Extents, Gap};
pub use laws::seeing_laws;
pub use manner::Manner;
pub use mount::{Mount, Unheard, may_store, unstored};
pub use opens::Opens;
pub use pages::{Page, Pages};
pub use shown::Shown;
pub use sorts::Sort;
pub use times::{Moments, Times};
