//! Worked rows of the line protocol and of command lines, so that `eden_wire` and `mountd_options` aren't proved a
//! second time for them.
#![tactic(auto)]

#[cfg(test)]
mod command_lines;
#[cfg(test)]
mod object_lines;
#[cfg(test)]
mod replies;
#[cfg(test)]
mod sessions;
