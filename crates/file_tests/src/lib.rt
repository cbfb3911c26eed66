//! Worked rows of files, sources, overlays and what they store, over real directories and over systems that fail, and
//! of directories in memory, so that no library below is proved a second time for them.
#![tactic(auto)]

#[cfg(test)]
mod bodies;
#[cfg(test)]
mod changed;
#[cfg(test)]
mod files;
#[cfg(test)]
mod folders;
#[cfg(test)]
mod formats;
#[cfg(test)]
mod journals;
#[cfg(test)]
mod kept_bodies;
#[cfg(test)]
mod kinds;
#[cfg(test)]
mod marks;
#[cfg(test)]
mod numbers;
#[cfg(test)]
mod orphans;
#[cfg(test)]
mod overlays;
#[cfg(test)]
mod passes;
#[cfg(test)]
mod sources;
#[cfg(test)]
mod steps;
#[cfg(test)]
mod told;
#[cfg(test)]
mod trees;
