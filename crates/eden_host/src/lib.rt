//! Many callers served over one shared mount: a guest for each connection, in a thread of its own, and fetchers beside
//! them.
//!
//! What a guest is told is what its pass was told, over a reader and a writer of the listener's kinds, and no pass is
//! lost: so the mount comes back, and its history is what the guests were told. That these are the connection of one
//! client, that a session begins as soon as its client comes, that threads run, and that directories go, is shown by
//! tests.
#![tactic(auto)]

mod accepts;
mod attend;
mod fault;
mod fetchers;
mod guest;
mod hosting;
mod listening;
mod served;
mod sharing;
mod threads;

pub use accepts::Accepts;
pub use fault::HostFault;
pub use fetchers::Fetchers;
pub use guest::Guest;
pub use hosting::{Hosted, host};
pub use served::Served;
pub use sharing::{HostedTable, host_table, share};
