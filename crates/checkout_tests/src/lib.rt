//! Worked rows of checkouts: opened, changed, closed and opened again, those that aren't opened, and a mount over a
//! heap with little room.
#![tactic(auto)]

#[cfg(test)]
mod growths;
#[cfg(test)]
mod lives;
