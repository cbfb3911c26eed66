//! The joined queue: which objects are to be fetched, which are being fetched, and which pass waits for which.
//!
//! Requests that need the same object are joined to one fetch: a key stands at most once in queue and flight together.
//! First in, first out, and every queued key is wanted by a pass. A key that failed leaves a mark with each pass that
//! wanted it. `Imports` makes all its room when it is made; after that no call takes memory. Contracts see one record,
//! and each call is one step of it (`specs/Queue.antt`); `queue_laws` says what follows. Nothing here fetches or waits.
#![tactic(auto)]

mod imports;
mod keys;
mod laws;

pub use imports::{FLIGHTS_LIMIT, Imports, PASSES_LIMIT, Wanted, are_counts};
pub use laws::queue_laws;
