//! What `mountd repair` is asked for.
ghost use Rattle.std.specs.Prelude.{IfErr, IfOk};
ghost use Rattle.clap.specs.Words.{first_value, found_of, rows_of};
ghost use Rattle.mountd_options.specs.CommandLine.{IsRepair, RefusesRepair, repair_options};
ghost use Rattle.mountd_options.specs.Grammar.{HasRequired};

use crate::command::OptionsError;
use clap::ArgMatches;
use eden_model::Id;
use eden_object::parse_id;
use std::alloc::Global;

/// What `mountd repair` is asked to repair.
#[derive(Drop)]
pub struct RepairOptions {
    /// The tree of the commit that the overlay stands on.
    pub root: Id,
    /// The directory of the overlay.
    pub overlay: String,
}

/// The overlay that is to be repaired, and the tree that it stands on.
pub(crate) fn repair_options(
    alloc: Global,
    given: &ArgMatches,
) -> Result<RepairOptions, OptionsError>
    requires { HasRequired repair_options (rows_of (found_of given.now)) }
    ensures ok { IfOk result (IsRepair (first_value (found_of given.now))) }
    ensures err { IfErr result (RefusesRepair (first_value (found_of given.now))) }
{
    let root = given.get_str("root").unwrap();
    let overlay = given.get_str("overlay").unwrap();
    let root = parse_id(root).ok_or(OptionsError::Root)?;
    let overlay = String::from_str(alloc, overlay)?;
    Ok(RepairOptions { root, overlay })
}
