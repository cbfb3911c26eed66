//! Worked rows of snapshots and of changes, with what Git itself makes of directories with the same contents.
#![tactic(auto)]

#[cfg(test)]
mod differences;
#[cfg(test)]
mod snapshots;
