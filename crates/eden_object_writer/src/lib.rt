//! A folder of the file system as Git's objects, each a file of its own in a folder of objects.
//!
//! A file becomes a blob and a folder a tree, whatever their permissions; below the top a folder without files in it
//! is left out, as Git does. What a real folder holds is not known, so contracts say here what becomes of what was
//! found: which tree its entries are, under which id an object lies, and which refusal stands for which error. That
//! each file of the folder is among its entries is shown by tests.
#![tactic(auto)]

mod fault;
mod folder;
mod found;
mod store;
mod tree;

pub use fault::ImportFault;
pub use folder::{LEVELS, import};
pub use store::{Progress, Store};
