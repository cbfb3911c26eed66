//! The table of operations of `eden_model` as slow code over rows, simple enough to be believed by reading.
//!
//! `WholeTree` answers a request and changes its tree as the table says, so that a mount, and a second table that is
//! written apart, can be compared with it. Its time grows with all rows, and nothing of a mount stands on it.
#![tactic(auto)]

mod add;
mod change;
mod edit;
mod front;
mod list;
mod look;
mod numbers;
mod place;
mod remove;
mod rename;
mod same;
mod shape;
mod tree;
mod walk;

pub use tree::WholeTree;
