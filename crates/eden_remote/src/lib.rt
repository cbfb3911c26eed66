//! Objects over a connection: both ends of the object server's protocol.
//!
//! A client sends `get ID` and a line feed, and is answered `object N`, a line feed and N framed bytes; `missing`; or
//! `fault`. N is a decimal number without leading zeros, of any size. `answer_objects` is the server's end over any
//! source, and `SocketSource` a source that asks a server of this machine. `ask` and `read_answer` are what it says and
//! hears, over any writer and reader. What comes from a server is nobody's proof of honesty: `SocketSource` serves the
//! World `Outside` alone, and whoever asked checks the bytes.
#![tactic(auto)]

mod fault;
mod laws;
mod line;
mod number;
mod receiving;
mod refusal;
mod sending;
mod serving;
mod socket;
mod text;

pub use fault::AnswerFault;
pub use laws::{one_answer, one_object};
pub use receiving::read_answer;
pub use refusal::Refusal;
pub use sending::ask;
pub use serving::answer_objects;
pub use socket::SocketSource;
