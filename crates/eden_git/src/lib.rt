//! The objects of a Git repository, read where Git keeps them.
//!
//! A `GitSource` is a `Source` over a repository: over its packs, its loose objects and those of the directories that
//! it names as alternates. A `LooseSource` is one over a directory of loose objects, where the file `xx/` and 38 digits
//! holds one framed object as a zlib stream. Whatever the files hold, an answer is a framed object or a cause, and room
//! is taken as bytes come. Packs are read in pieces where they lie, by a multi-pack index or by their own. That the
//! object is the one that was asked for isn't looked at here: whoever asked compares its SHA-1.
#![tactic(auto)]

mod alternates;
mod bases;
mod chains;
mod config;
mod fault;
mod framing;
mod git_source;
mod ids;
mod index;
mod look;
mod loose;
mod loose_source;
mod multi_index;
mod pack;
mod packs;
mod pieces;
mod repository;
mod store;

pub use fault::GitFault;
pub use git_source::GitSource;
pub use loose::read_loose;
pub use loose_source::LooseSource;
