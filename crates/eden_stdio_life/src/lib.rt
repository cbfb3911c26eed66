//! One caller served with changes: the mount of a checkout over an overlay, from its opening over its session to its
//! close.
//!
//! If the outside is honest, what was told are the replies of the commit's whole tree, changed by one request after
//! another, and files that were closed show the tree after them; they are closed after a fault too. What files hold
//! after a power loss isn't promised, nor any time.
#![tactic(auto)]

mod caller;
mod fault;
mod life;
mod opening;
mod serving;

pub use caller::Caller;
pub use fault::LifeFault;
pub use life::{Backing, Ending, live};
pub use opening::{Base, Closed, close, open};
pub use serving::{Served, serve, serve_table};
