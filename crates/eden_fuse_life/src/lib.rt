//! A folder that is served with changes: the mount of a checkout over an overlay, from its opening over the session
//! with the kernel to its close.
//!
//! One message is answered after another. If the outside is honest, what the mount replied are the replies of the
//! commit's whole tree, changed by one request after another, and files that were closed show the tree after them; they
//! are closed after a fault too. What was written last is stored before that, and if it isn't, the first error is
//! reported. An `fsync` has the mount wait for the disk; what files hold after a loss of power is promised by no
//! clause, nor is any time.
#![tactic(auto)]

mod asking;
mod fault;
mod life;
mod serving;

pub use asking::Asking;
pub use fault::FolderFault;
pub use life::{FolderEnding, live_folder};
pub use serving::{Look, ServedFolder, serve_folder};
