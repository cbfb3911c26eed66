//! Worked rows of attempts, and random requests beside the slow oracle, so that no library below is proved a second
//! time for them.
#![tactic(auto)]

#[cfg(test)]
mod changes;
#[cfg(test)]
mod kept;
#[cfg(test)]
mod looks;
#[cfg(test)]
mod mount;
#[cfg(test)]
mod paths;
#[cfg(test)]
mod renames;
#[cfg(test)]
mod resuming;
#[cfg(test)]
mod steps;
#[cfg(test)]
mod stream;
#[cfg(test)]
mod whole;
