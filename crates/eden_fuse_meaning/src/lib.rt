//! What the kernel's messages mean, in requests of a mount.
//!
//! A message asks a mount for one thing after another, each by what was replied to the one before, and comes to an
//! outcome. `first` is what it begins with, `next` what is made of a reply; `specs/Steps.antt` is the table of both,
//! line by line. The path of a message's node is given. A file that is removed or replaced while it is open gets a
//! hidden name of the root instead, by messages of the same table (`specs/Hiding.antt`).
//!
//! What an outcome makes of the table of nodes, the bytes of the answer, times, and what is agreed on at the start
//! aren't said here. Nothing here asks a mount.
#![tactic(auto)]

mod beginning;
mod going_on;
mod hiding;
mod laws;
mod paths;
mod step;

pub use beginning::first;
pub use going_on::next;
pub use hiding::{hidden_name, is_hidden, list_hidden};
pub use laws::meaning_laws;
pub use step::{Outcome, Owner, Step, Then};
