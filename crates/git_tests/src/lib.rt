//! Worked rows of the objects that Git wrote, so that `eden_git` isn't proved a second time for them.
#![tactic(auto)]

#[cfg(test)]
mod loose;
#[cfg(test)]
mod packed;
#[cfg(test)]
mod packs;
#[cfg(test)]
mod repacked;
#[cfg(test)]
mod repositories;
#[cfg(test)]
mod written;
