//! What tests of several crates share: random words, objects as Git has them, and a file system that fails if a test
//! wants it.
#![tactic(auto)]

mod faulty;
mod folders;
mod objects;
mod words;

pub use faulty::{Call, FaultyDir, FaultyFile, FaultySystem};
pub use folders::empty_folder;
pub use objects::{
    ALL_KINDS, EMPTY_BLOB, EMPTY_TREE, NEW_FILE, ONE_FILE, ONE_MODULE, Sample, TARGET, TWO_FILES,
    VERSION_1, VERSION_2,
};
pub use words::random;
