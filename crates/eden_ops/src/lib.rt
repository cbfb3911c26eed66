//! One attempt of a request: what the table of operations answers on what a mount shows, or the object that is needed.
//!
//! An attempt looks at the entries in memory, and loads directories on the way if their objects are cached or their
//! files stored. It fetches nothing: if an object is lacking, it names it, and is made again once the object is cached.
#![tactic(auto)]

mod add;
mod attempting;
mod bring;
mod bring_seen;
mod content_part;
mod ended;
mod entry_kind;
mod fill;
mod is_empty;
mod land;
mod laws;
mod letting_go;
mod looks;
mod meet;
mod meet_file;
mod move_dir;
mod pages;
mod place;
mod ready;
mod refill;
mod relocate;
mod requests;
mod settle;
mod walk;
mod walk_end;

pub use attempting::{attempt, attempt_from, change};
pub use laws::{keeps_laws, need_laws, wait_laws};
pub use letting_go::let_go;
pub use looks::look;
pub use place::Place;
pub use requests::create::create;
pub use requests::kind::kind;
pub use requests::list::list;
pub use requests::mkdir::mkdir;
pub use requests::read::read;
pub use requests::readlink::readlink;
pub use requests::rename::rename;
pub use requests::rmdir::rmdir;
pub use requests::set_exec::set_exec;
pub use requests::stat::stat;
pub use requests::symlink::symlink;
pub use requests::truncate::truncate;
pub use requests::unlink::unlink;
pub use requests::write::write;
pub use walk::reach;
pub use walk_end::Walked;
