//! Random events on a mount of a checkout, beside the slow oracle and a second telling of what the passes wait for.
#![tactic(auto)]

#[cfg(test)]
mod events;
#[cfg(test)]
mod grounds;
#[cfg(test)]
mod mounts;
#[cfg(test)]
mod shown;
#[cfg(test)]
mod stops;
#[cfg(test)]
mod stream;
#[cfg(test)]
mod waits;
#[cfg(test)]
mod worked;
