//! Mounts of checkouts that callers and fetchers share, on threads of their own, beside the slow oracle.
#![tactic(auto)]

#[cfg(test)]
mod callers;
#[cfg(test)]
mod clients;
#[cfg(test)]
mod flaky;
#[cfg(test)]
mod held_back;
#[cfg(test)]
mod histories;
#[cfg(test)]
mod late;
#[cfg(test)]
mod lines;
#[cfg(test)]
mod mounts;
#[cfg(test)]
mod passes;
#[cfg(test)]
mod replay;
#[cfg(test)]
mod rounds;
#[cfg(test)]
mod soak;
#[cfg(test)]
mod sockets;
