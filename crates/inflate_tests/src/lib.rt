//! Worked rows of zlib streams: what zlib wrote, and what it refuses, so that `eden_inflate` isn't proved a second time
//! for them.
#![tactic(auto)]

#[cfg(test)]
mod inflating;
#[cfg(test)]
mod refusals;
#[cfg(test)]
mod streams;
