//! A mounted folder served by several threads, over one shared mount.
//!
//! Turns of requests are taken one after another, under one lock, and each is a turn of `Shown`, over the replies that
//! the shared mount gives one of its passes. What isn't in memory is fetched before: a thread makes a look for what
//! its request's turn needs first (for a rename not for what leads to its old path) by a pass of its own, without that
//! lock, and fetches what that needs from a source of its own. Such passes are told of looks alone, which change
//! nothing. If a look meets a fault, a request that can't do without it is answered with `EIO` and does nothing. What
//! interrupts another is passed over. Messages are received, read and answered without that lock too.
//!
//! Contracts say of each thread that it had a line with all its messages, that each message that it received had its
//! turn, after others of this folder, and that what was said in it is what was sent. They don't say which turns of the
//! folder were whose; that others continue while a thread waits for an object, and that threads end, is shown by tests.
#![tactic(auto)]

mod answering;
mod asking;
mod attending;
mod begun;
mod calling;
mod hand;
mod lines;
mod sharing;
mod showing;
mod turns;

pub use lines::Lines;
pub use sharing::{FolderTable, share_folder};
