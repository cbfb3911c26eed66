//! Random commits, and random requests of what stands in a slow oracle's tree, for tests of several crates. They have
//! few names, so that they meet.
#![tactic(auto)]

mod blobs;
mod commit;
mod looks;
mod names;
mod replies;
mod requests;
mod unmade;
mod whole;

pub use commit::Commit;
pub use looks::{all_looks, kind_at};
pub use names::{Places, bytes, name, name_at, path, path_of};
pub use replies::{is_seen, replays};
pub use requests::{request, some_look};
pub use unmade::Unmade;
