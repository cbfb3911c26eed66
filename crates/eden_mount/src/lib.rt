//! A mount's core: requests of many passes over one table of inodes, changed by one event at a time.
//!
//! An event is a start, a turn, a taken key, an arrival, a failed fetch, an unload or a sync. Each call is one of them,
//! and one step of what contracts see (`specs/Steps.antt`); `Mount::run` says what follows for whole lists of them. If
//! the outside is honest, the history is legal whatever the events are. Nothing here fetches or waits for anybody, but
//! `Local`, which is one caller with a source of its own.
#![tactic(auto)]

mod arrival;
mod attempts;
mod config;
mod events;
mod laws;
mod local;
mod mount;
mod places;
mod room;
mod seats;
mod settling;
mod unloading;

pub use attempts::Attempts;
pub use config::Config;
pub use events::{Arrived, Event, Outcome, Turned};
pub use laws::wait_laws;
pub use local::Local;
pub use mount::Mount;
pub use room::Room;
pub use seats::Pending;
pub use unloading::Unloading;
