//! A commit's tree of what an overlay's files show: Git's objects of all that is the mount's own.
//!
//! `snapshot` goes over the files of a closed overlay, hands each object of it to a sink, children before parents, and
//! gives the id of the top tree. What is an object of the commit keeps its id and is asked of nobody. In a repository
//! with these objects the whole tree of that id is the tree that the files show, without empty directories, whose paths
//! the sink is told. A submodule has the commit's id where `Submodules` knows it, and is left out and told where not.
//! `expect_closed` sees before that an overlay was closed on a commit's tree. `changes` tells how what the files show
//! differs from that tree, path by path.
#![tactic(auto)]

mod change;
mod closed;
mod commit;
mod comparing;
mod fault;
mod left_out;
mod memory;
mod rows;
mod sink;
mod submodules;
mod trail;
mod walk;

pub use change::{Change, How};
pub use closed::{ClosedFault, expect_closed};
pub use commit::{CommitSubmodules, place_named, tree_entries};
pub use comparing::{ChangeSink, changes};
pub use fault::SnapshotFault;
pub use left_out::LeftOut;
pub use memory::MemorySink;
pub use sink::Sink;
pub use submodules::{NoSubmodules, Submodules};
pub use walk::{LEVELS, snapshot};
