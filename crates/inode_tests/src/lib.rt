//! Worked rows and random tests that cross crates, so that no library below is proved a second time for them.
#![tactic(auto)]

#[cfg(test)]
mod calls;
#[cfg(test)]
mod changes;
#[cfg(test)]
mod inodes;
#[cfg(test)]
mod listing;
#[cfg(test)]
mod mount;
#[cfg(test)]
mod names;
#[cfg(test)]
mod own;
#[cfg(test)]
mod pair;
#[cfg(test)]
mod saved;
#[cfg(test)]
mod stops;
#[cfg(test)]
mod stored;
#[cfg(test)]
mod trails;
#[cfg(test)]
mod tree;
#[cfg(test)]
mod worked;
