//! Worked rows of objects, of their cache, of the queue of keys, and of a mount's limits and events, so that no library
//! below is proved a second time for them.
#![tactic(auto)]

#[cfg(test)]
mod caches;
#[cfg(test)]
mod configs;
#[cfg(test)]
mod imports;
#[cfg(test)]
mod mounts;
#[cfg(test)]
mod objects;
