//! Many callers served with changes: an overlay is opened over a commit's tree, its mount is shared by guests, and the
//! overlay is closed.
//!
//! If the outside is honest, what the guests were told is one legal history from the opening tree, and files that were
//! closed show the tree after it; they are closed after a fault too. That a client is ever taken or answered isn't
//! promised, nor in which order the guests' requests take effect, nor what files hold after a power loss.
#![tactic(auto)]

mod fault;
mod life;

pub use fault::SharedLifeFault;
pub use life::{SharedEnding, live_shared};
