//! One attempt of each request: a file for each of the fifteen.

pub(crate) mod create;
pub(crate) mod kind;
pub(crate) mod list;
pub(crate) mod mkdir;
pub(crate) mod patch;
pub(crate) mod read;
pub(crate) mod readlink;
pub(crate) mod rename;
pub(crate) mod rmdir;
pub(crate) mod set_exec;
pub(crate) mod stat;
pub(crate) mod symlink;
pub(crate) mod truncate;
pub(crate) mod unlink;
pub(crate) mod write;
