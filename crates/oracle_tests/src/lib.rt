//! Worked rows of the table of operations and of inode numbers, and what the errors of `eden_model` say. They stand
//! here so that neither that crate nor the oracle is proved a second time for tests.
#![tactic(auto)]

#[cfg(test)]
mod numbers;
#[cfg(test)]
mod table;
#[cfg(test)]
mod words;
