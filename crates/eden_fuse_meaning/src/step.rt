use eden_fuse_format::SetAttrIn;
use eden_model::{Bytes, Entries, Kind, Path, Request};

/// Who owns all that is shown.
#[derive(Clone, Copy)]
pub struct Owner {
    pub uid: u32,
    pub gid: u32,
}

/// What a message comes to, once all that it asks of the mount was replied to. What it makes of the table of nodes,
/// and how the kernel is told, isn't said here.
#[derive(Drop)]
pub enum Outcome {
    /// Nothing is told: the kernel wants no answer.
    Silent,
    /// An error, by its number in Linux.
    Refused(u32),
    /// It was done.
    Done,
    /// There is no node of that name.
    Absent,
    /// The node of that name: its kind, its length, and its inode number.
    Found(Kind, u64, u64),
    /// The node's own kind, its length, and its inode number.
    Attributes(Kind, u64, u64),
    /// A file or a directory may be opened.
    Opened,
    /// The file of that name, which may be opened: its kind, its length, and its inode number.
    Made(Kind, u64, u64),
    /// The target of a link, or bytes of a file.
    Bytes(Bytes),
    /// So many bytes were written.
    Written(u64),
    /// Entries of a directory, and whether others come after them.
    Rows(Entries, bool),
    /// The room of the disk is to be told.
    Space,
    /// A start is to be agreed on.
    Started,
}

/// What is to be made of a reply.
#[derive(Drop)]
pub enum Then {
    /// Of `stat`: the node of a name, or that there is none.
    Look,
    /// Of `stat`: attributes.
    Show,
    /// Of `stat`: the node that was made.
    Enter,
    /// Of `stat`: the file that was made or found, to be opened.
    Open,
    /// Of a file that was cut: what else is to be set.
    Cut(Path, SetAttrIn),
    /// Of a node whose attributes were set: what they are now.
    Set(Path),
    /// Of a node that was made: what it is, and before that whether it is executable.
    Make(Path, bool),
    /// Of a file that was made executable: what it is.
    Mark(Path),
    /// Of a file that was made to be opened; or there was one already, and whether that is an error.
    Create(Path, bool, bool),
    /// Of a file that was made executable, to be opened: what it is.
    MarkOpened(Path),
    /// Of `readlink` or `read`: the bytes.
    Give,
    /// Of `write`: how many bytes.
    Count,
    /// Of `list`: rows.
    List,
    /// Of `kind`: whether a file may be opened.
    OpenFile,
    /// Of `kind`: whether a directory may be opened.
    OpenDir,
    /// Of `kind`: whether a name is free, to which another is to be moved.
    Free(Path, Path),
    /// Of `stat`: whether a file has to grow to that end.
    Reach(Path, u64),
    /// Of a change: that it was done.
    Finish,
}

/// The next thing to be done for a message.
#[derive(Drop)]
pub enum Step {
    /// A request of the mount, whose reply says what comes then.
    Ask(Request, Then),
    /// The end.
    Tell(Outcome),
}
