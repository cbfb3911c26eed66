//! The command line of `mountd`: what the program is asked for, and why words are refused.
//!
//! The words are read by `clap` after a grammar that stands in `specs/`: a list of subcommands, each with its options.
//! Nothing here opens anything. The values are those of the options, or their defaults, within the ranges that a mount
//! and a server take.
#![tactic(auto)]

mod addresses;
mod command;
mod grammar;
mod numbers;
mod overlays;
mod repair;

pub use addresses::AddressOption;
pub use command::{
    Command, FuseOptions, HistoryOption, ImportOptions, MountCommand, MountOptions, Objects,
    ObjectsOptions, OptionsError, ServeOptions, Served, ServerCommand, TidyOptions, options,
};
pub use numbers::NumberOption;
pub use overlays::{ChangesOptions, DematerialiseOptions, OverlayOptions, SnapshotOptions};
pub use repair::RepairOptions;
