//! The line protocol of a mount: requests come in as lines, and the texts of their answers go out.
//!
//! A request has one spelling. A line that isn't a request is answered `err 71 EPROTO` and ends the session; a line
//! whose names aren't names is refused without asking the mount. What a reader and a writer report of their failures is
//! not told further: a session ends with `Read`, `Write` or `Memory`. Nothing here knows what a mount is: it is a
//! `Service`.
#![tactic(auto)]

mod escape;
mod field;
mod hex_text;
mod input;
mod laws;
mod name_text;
mod number;
mod output;
mod path_text;
mod plain;
mod reply;
mod request;
mod service;
mod serving;
mod session_fault;
mod split;
mod word;

pub use laws::line_laws;
pub use number::read_number;
pub use output::WriteFailed;
pub use reply::{Scratch, write_reply};
pub use request::{Item, read_request};
pub use service::Service;
pub use serving::{LONGEST_LINE, session};
pub use session_fault::SessionFault;
