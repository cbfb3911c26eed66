//! One source in the place of two: a second is asked for what the first lacks.
//!
//! A `Fallback` asks its first source for each object, and its second for those alone that the first says are missing.
//! What it answers is the answer of the one that was asked last, and where the World is honest both are. A first source
//! that fails is not passed over: its failure is the answer.
#![tactic(auto)]

mod fallback;

pub use fallback::Fallback;
