//! Worked rows of the kernel's FUSE protocol: messages that a kernel sent, messages that are none, answers, a table of
//! nodes over its life, what messages mean, turns of a session, and a folder over files in memory, so that the crates
//! aren't proved a second time for them.
#![tactic(auto)]

#[cfg(test)]
mod answers;
#[cfg(test)]
mod calls;
#[cfg(test)]
mod flat;
#[cfg(test)]
mod folder;
#[cfg(test)]
mod listings;
#[cfg(test)]
mod meanings;
#[cfg(test)]
mod messages;
#[cfg(test)]
mod nodes;
#[cfg(test)]
mod none;
#[cfg(test)]
mod seeing;
#[cfg(test)]
mod sent;
#[cfg(test)]
mod turns;
#[cfg(test)]
mod waiting;
