//! What a mount was asked and what it told: a history that keeps its entries, or one that only counts them.
//!
//! Contracts see the same list of entries either way, so that what holds of a mount is stated once. `Kept` has each
//! entry in memory and lends them, up to a limit that it is made with. `Counted` has one number: its entries are a
//! value without bytes, which no code can show.
#![tactic(auto)]

mod counted;
mod history;
mod kept;
mod unseen;

pub use counted::Counted;
pub use history::History;
pub use kept::Kept;
