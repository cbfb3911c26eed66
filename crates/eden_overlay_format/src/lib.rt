//! The files of an overlay as bytes: a header of 64 bytes, and behind it a content, a directory, the numbers of one
//! that stands on a tree object, or the state.
//!
//! The definitions in `specs/` say which bytes are which value. Each decoder answers a value exactly where its bytes
//! are one, and otherwise the first refusal, in the order of `Refusal`; what an encoder writes, its decoder reads.
//! All numbers are big-endian. Nothing here reads or stores a file.
#![tactic(auto)]

mod content;
mod directory;
mod directory_body;
mod fields;
mod header;
mod laws;
mod listing;
mod numbers;
mod refusal;
mod spliced;
mod split;
mod state;
mod stored_entry;
mod writing;

pub use content::{CONTENT_MOST, content_len, decode_file, encode_file, encode_unsealed_in};
pub use directory::{decode_dir, encode_dir, is_rising};
pub use directory_body::{DirectoryBody, RowFacts};
pub use header::{HEADER_LEN, Head, Identifier, header_of};
pub use laws::format_laws;
pub use listing::Listing;
pub use numbers::{StoredNumbers, decode_numbers, encode_numbers, has_numbers};
pub use refusal::{DecodeFault, Refusal};
pub use spliced::Spliced;
pub use state::{State, decode_state, encode_state};
pub use stored_entry::StoredEntry;
