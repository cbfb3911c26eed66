//! Answers the kernel's messages, one at a time, by a service.
//!
//! `turn` reads one message, asks the service, and hands the answer to a sender in one piece: exactly one, or none if
//! the kernel wants none. An operation that isn't known is refused with `ENOSYS` and a malformed message with `EINVAL`,
//! without the service. What the service answers is its own relation. `session` is one turn after another, until no
//! more messages come. Nothing here reads or writes a descriptor.
#![tactic(auto)]

mod receiver;
mod sender;
mod service;
mod serving;
mod turning;

pub use receiver::{Received, Receiver};
pub use sender::{NotSent, Sender};
pub use service::{Said, Service};
pub use serving::{SessionFault, session};
pub use turning::{Turned, turn};
