//! What ties the entries in memory to the stored files: definitions, and laws that hold of them.
//!
//! A mount's loaded directories stand over an overlay's files and a repository's objects. The words for that are in
//! `specs/`: when memory and files are tied, so that nothing that is stored dangles and no number is named twice; what
//! both show together, nodes and inode numbers; and what loading, unloading, changing and materialising do to them.
//! Nothing here runs: the laws are clauses of functions without a body, which the crates above call.
#![tactic(auto)]

mod kept;
mod laws;
mod numbering;
mod opening;
mod owning;
mod shown;
mod storing;

pub use kept::kept_laws;
pub use laws::tie_laws;
pub use numbering::{number_change_laws, number_kept_laws, number_save_laws, numbering_laws};
pub use opening::opening_number_laws;
pub use owning::chain_laws;
pub use shown::shown_laws;
pub use storing::file_laws;
