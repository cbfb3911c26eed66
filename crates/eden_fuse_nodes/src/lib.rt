//! Which nodes the kernel knows, how often it was told of each, and where each stands.
//!
//! The kernel names files and directories by numbers that it was told of, and forgets a number as often as it was told
//! of it. `Nodes` has the number of each, and finds where it lies by now. Each change costs look-ups of what it names
//! alone; what lies below a directory that moves isn't touched. That a number isn't given again after it was forgotten
//! is so, but no contract says it. Nothing here asks a mount.
#![tactic(auto)]

mod known;
mod laws;
mod maps;
mod nodes;
mod place;
mod way;

pub use known::Known;
pub use laws::node_laws;
pub use nodes::{Full, Nodes, ROOT};
pub use place::Place;
pub use way::Whereabouts;
