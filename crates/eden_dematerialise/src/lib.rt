//! Own files whose contents a commit has, dematerialised: their directories stand on its objects again.
//!
//! What a mount changes lies in its overlay, and stays there though it was committed since, or came from a commit, as
//! where Git switches to another branch. `dematerialise` goes over the own directories of a closed overlay beside a
//! commit's tree. Where an own file has the content that the commit has at its path, its entry stands on the commit's
//! object from then on, under the same inode number; the object was had, and is equal byte by byte. At the end the
//! state says that the files stand on the commit's tree, and the files that nobody reads any more are removed. What the
//! files show is the same as before.
#![tactic(auto)]

mod dematerialising;
mod entries;
mod fault;
mod unread;

pub use dematerialising::dematerialise;
pub use fault::DematerialiseFault;
