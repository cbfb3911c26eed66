//! A folder that several threads serve with changes: an overlay is opened over a commit's tree, its mount is shared by
//! the folder's threads, and the overlay is closed.
//!
//! If the outside is honest, what the mount replied are the replies of the commit's whole tree, changed by one request
//! after another, and files that were closed show the tree after them; they are closed after a fault too. What was
//! written last is stored before that, and if it isn't, the first error is reported. Beside what was replied to the
//! folder's turns stand looks, which change nothing. Which thread answers which message isn't promised, nor that any is
//! answered, nor what files hold after a power loss.
#![tactic(auto)]

mod life;

pub use life::{SharedFolderEnding, live_shared_folder};
