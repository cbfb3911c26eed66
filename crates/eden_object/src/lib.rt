//! Git's blobs and trees: whether framed bytes are the object that an id names, and what they hold.
//!
//! A framed object is a word, a space, the length of its body in decimal, a NUL and the body. `check` tests bytes that
//! came from outside, and takes no memory; `decode_blob` and `decode_tree` read them exactly where they are in the
//! grammar. An `Object` is a blob's or a tree's body that passed. Commits and tags are told apart and never read.
#![tactic(auto)]

mod checks;
mod decode;
mod encode;
mod frame;
mod id_text;
mod laws;
mod names;
mod object;
mod order;
mod row;
mod rows;
mod split;
mod word;

pub use checks::{FRAMED_LIMIT, check};
pub use decode::decode_tree;
pub use eden_model::{Cause, Id, Key, Mode, Name, ObjKind, TreeEntry};
pub use encode::{encode_blob, encode_tree, is_encodable};
pub use frame::{BODY_LIMIT, decode_blob, id_of};
pub use id_text::parse_id;
pub use laws::{one_frame, one_list};
pub use object::Object;
pub use word::Word;
