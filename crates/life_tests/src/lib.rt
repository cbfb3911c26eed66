//! Worked rows of mounts' lives: what they say, which objects they ask for, which files they leave, what the next life
//! over those shows, also if a run was killed, and how each fault ends one.
#![tactic(auto)]

#[cfg(test)]
mod changes;
#[cfg(test)]
mod faults;
#[cfg(test)]
mod honest;
#[cfg(test)]
mod lives;
#[cfg(test)]
mod looks;
#[cfg(test)]
mod next_lives;
#[cfg(test)]
mod objects;
#[cfg(test)]
mod refusals;
#[cfg(test)]
mod rescans;
#[cfg(test)]
mod sessions;
