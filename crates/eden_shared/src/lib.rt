//! A mount that threads share: passes that call it under one lock, and fetchers.
//!
//! What a pass was told is what the mount's history has under its number, and `finish` gives the mount back exactly if
//! its passes come with it. No source is asked while the lock is held. What a call promises holds if it returns: that
//! it does, that a sleeper is woken, and that callers take turns, is promised nowhere.
#![tactic(auto)]

mod account;
mod ends;
mod fetching;
mod finishing;
mod gathered;
mod lanes;
mod locked;
mod opening;
mod pass;
mod recording;
mod shared;

pub use account::{Naming, Terms, Told};
pub use fetching::Fetched;
pub use finishing::Torn;
pub use lanes::Answered;
pub use opening::Ties;
pub use pass::Pass;
pub use recording::Recording;
pub use shared::Shared;
