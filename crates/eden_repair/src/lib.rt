//! Damaged files of an overlay, mended as far as they can be.
//!
//! A loss of power, or a disk that fails, may leave files that a rescan refuses: one that a directory names is missing,
//! cut or changed. `repair` takes an entry out of its directory if what it names can't be had, or if another entry has
//! its number, and tells its path and why. It takes no other entry out and stores nothing else. It removes no file but
//! saved numbers that can't be read, or of which one is another entry's. Whatever lay below a directory that went stays
//! as files that nobody names. What is left is what a rescan takes, or the fault says why not.
#![tactic(auto)]

mod damage;
mod finding;
mod own;
mod repairing;
mod saved;
mod survey;

pub use damage::Damage;
pub use finding::Finding;
pub use repairing::{Repaired, repair};
