//! The messages of Linux's FUSE protocol as values, and answers as bytes.
//!
//! The definitions in `specs/` say which bytes are which message, by the structs of Linux's include/uapi/linux/fuse.h,
//! and which bytes an answer is. What the kernel spells is read as what it asks for. An answer is written whole, or not
//! at all where its room is too small and there is no memory for more. Nothing here reads or writes a descriptor.
#![tactic(auto)]

mod answer;
mod laws;
mod members;
mod message;
mod opcode;
mod operation;
mod row;
mod structs;

pub use answer::{
    Answer, Attr, AttrOut, EntryOut, InitOut, OpenOut, StatFsOut, Time, answer_len, entry_len,
    put_answer,
};
pub use laws::message_laws;
pub use message::{Header, Message, read_message};
pub use opcode::{Opcode, read_opcode};
pub use operation::{Operation, forget_at};
pub use row::{Dirent, put_dirent, put_direntplus, row_len};
pub use structs::{
    AccessIn, CreateIn, FSyncIn, FallocateIn, FlushIn, ForgetIn, ForgetOne, GetAttrIn, InitIn,
    InterruptIn, LinkIn, MkDirIn, MkNodIn, OpenIn, ReadIn, ReleaseIn, Rename2In, RenameIn,
    SetAttrIn, WriteIn,
};
