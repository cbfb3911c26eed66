//! Objects that were fetched, and blobs' lengths, kept within bounds: what was used last stays.
//!
//! `ObjectCache` holds objects by their keys, at most so many and of at most so many bytes, and lengths of blobs by
//! their ids, at most so many. Looking up takes no memory, and an object is lent without a copy. Each object is of its
//! key's kind; whether it is the one that the key names isn't known of an `ObjectCache`. A `Stock` is one in which each
//! object was fetched for its key: who puts one in shows it.
#![tactic(auto)]

mod cache;
mod evict;
mod laws;
mod stock;

pub use cache::{BYTES_LIMIT, OBJECTS_LIMIT, ObjectCache, SIZES_LIMIT, Usage, are_bounds};
pub use laws::cache_laws;
pub use stock::Stock;
