//! Worked rows of both ends of the object server's protocol, over bytes, over readers and writers that fail and over
//! sockets, so that `eden_remote` isn't proved a second time for them.
#![tactic(auto)]

#[cfg(test)]
mod answers;
#[cfg(test)]
mod connections;
#[cfg(test)]
mod failures;
#[cfg(test)]
mod lines;
#[cfg(test)]
mod mutations;
