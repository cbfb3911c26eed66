//! What the commands are asked for that are for an overlay and need its commit's objects.
ghost use Rattle.std.specs.Prelude.{◌≡◌, IfErr, IfOk, OnOk, false};
ghost use Rattle.clap.specs.declared.builder.command.Command.TheViews.{out-Command as fields_of};
ghost use Rattle.clap.specs.Words.{first_value, found_of, rows_of, shape_of};
ghost use Rattle.mountd_options.specs.CommandLine.{IsChanges, IsDematerialise, IsOverlay, IsSnapshot};
ghost use Rattle.mountd_options.specs.CommandLine.{NamesMount, RefusesValues, changes, changes_options};
ghost use Rattle.mountd_options.specs.CommandLine.{dematerialise, dematerialise_options, overlay_options};
ghost use Rattle.mountd_options.specs.CommandLine.{snapshot, snapshot_options};
ghost use Rattle.mountd_options.specs.Grammar.{HasRequired, subcommand_shape};
ghost use Rattle.mountd_options.specs.declared.command.MountCommand.TheVariants as by;

use crate::command::{MountCommand, Objects, OptionsError, is_given, objects_of};
use crate::grammar::{with_flag, with_optional, with_required};
use clap::ArgMatches;
use eden_model::Id;
use eden_object::parse_id;
use std::alloc::{AllocError, Global};

/// Which overlay the command is for.
#[derive(Drop)]
pub struct OverlayOptions {
    /// The tree of the commit that it stands on.
    pub root: Id,
    /// Where the commit's objects come from.
    pub objects: Objects,
    /// Where its files lie.
    pub folder: String,
}

/// What `mountd snapshot` is asked for.
#[derive(Drop)]
pub struct SnapshotOptions {
    /// The overlay, which is a closed one.
    pub closed: OverlayOptions,
    /// The directory that the objects come to lie in.
    pub into: String,
}

/// What `mountd changes` is asked for.
#[derive(Drop)]
pub struct ChangesOptions {
    /// The overlay, which is a closed one if no mount runs over it.
    pub overlay: OverlayOptions,
    /// Whether a mount runs over it: then it isn't held, and nothing may change it meanwhile.
    pub is_running: bool,
}

/// What `mountd dematerialise` is asked for.
#[derive(Drop)]
pub struct DematerialiseOptions {
    /// The overlay, which is a closed one.
    pub overlay: OverlayOptions,
    /// The tree of the commit that it is to stand on.
    pub tree: Id,
}

/// The overlay that the command is for.
///
/// Of several errors the root's is reported, and then that of where the objects come from.
pub(crate) fn overlay_options(
    alloc: Global,
    given: &ArgMatches,
    command: MountCommand,
) -> Result<OverlayOptions, OptionsError>
    requires { HasRequired overlay_options (rows_of (found_of given.now)) }
    ensures ok { IfOk result (IsOverlay (first_value (found_of given.now))) }
    ensures opened { OnOk result (NamesMount (first_value (found_of given.now))) }
    ensures err { IfErr result (RefusesValues command (first_value (found_of given.now))) }
{
    let root = given.get_str("root").unwrap();
    let folder = given.get_str("overlay").unwrap();
    let root = parse_id(root).ok_or(OptionsError::Root)?;
    let objects = objects_of(alloc, given, command)?;
    let folder = String::from_str(alloc, folder)?;
    Ok(OverlayOptions {
        root,
        objects,
        folder,
    })
}

pub(crate) fn snapshot_options(
    alloc: Global,
    given: &ArgMatches,
) -> Result<SnapshotOptions, OptionsError>
    requires { HasRequired snapshot_options (rows_of (found_of given.now)) }
    ensures ok { IfOk result (IsSnapshot (first_value (found_of given.now))) }
    ensures err { IfErr result (RefusesValues by.Snapshot (first_value (found_of given.now))) }
{
    let into = given.get_str("into").unwrap();
    let closed = overlay_options(alloc, given, MountCommand::Snapshot)?;
    let into = String::from_str(alloc, into)?;
    Ok(SnapshotOptions { closed, into })
}

pub(crate) fn changes_options(
    alloc: Global,
    given: &ArgMatches,
) -> Result<ChangesOptions, OptionsError>
    requires { HasRequired changes_options (rows_of (found_of given.now)) }
    ensures ok { IfOk result (IsChanges (first_value (found_of given.now))) }
    ensures err { IfErr result (RefusesValues by.Changes (first_value (found_of given.now))) }
{
    let overlay = overlay_options(alloc, given, MountCommand::Changes)?;
    let is_running = is_given(given, "running");
    Ok(ChangesOptions {
        overlay,
        is_running,
    })
}

/// Of several errors the overlay's is reported, and then that of the tree.
pub(crate) fn dematerialise_options(
    alloc: Global,
    given: &ArgMatches,
) -> Result<DematerialiseOptions, OptionsError>
    requires { HasRequired dematerialise_options (rows_of (found_of given.now)) }
    ensures ok { IfOk result (IsDematerialise (first_value (found_of given.now))) }
    ensures err { IfErr result (RefusesValues by.Dematerialise (first_value (found_of given.now))) }
{
    let tree = given.get_str("tree").unwrap();
    let overlay = overlay_options(alloc, given, MountCommand::Dematerialise)?;
    let tree = parse_id(tree).ok_or(OptionsError::Tree)?;
    Ok(DematerialiseOptions { overlay, tree })
}

pub(crate) fn changes_line<'a>(alloc: Global) -> Result<clap::Command<'a>, AllocError>
    ensures shape { IfOk result (λ line. shape_of line ≡ subcommand_shape changes) }
    ensures local { IfOk result (λ line. (fields_of line).has_globals ≡ false) }
{
    let line = overlay_line(
        alloc,
        "changes",
        "Prints how what an overlay shows differs from the tree that it stands on",
    )?;
    with_flag(
        alloc,
        line,
        "running",
        "The overlay is that of a mount that runs, in which nothing changes meanwhile",
    )
}

pub(crate) fn snapshot_line<'a>(alloc: Global) -> Result<clap::Command<'a>, AllocError>
    ensures shape { IfOk result (λ line. shape_of line ≡ subcommand_shape snapshot) }
    ensures local { IfOk result (λ line. (fields_of line).has_globals ≡ false) }
{
    let line = overlay_line(
        alloc,
        "snapshot",
        "Makes Git objects of what a closed overlay shows, and prints the tree's id",
    )?;
    with_required(
        alloc,
        line,
        ("into", "DIR"),
        "The folder that the objects come to lie in",
    )
}

pub(crate) fn dematerialise_line<'a>(alloc: Global) -> Result<clap::Command<'a>, AllocError>
    ensures shape { IfOk result (λ line. shape_of line ≡ subcommand_shape dematerialise) }
    ensures local { IfOk result (λ line. (fields_of line).has_globals ≡ false) }
{
    let line = overlay_line(
        alloc,
        "dematerialise",
        "Lets a closed overlay stand on another tree, without what is the same there",
    )?;
    with_required(
        alloc,
        line,
        ("tree", "ID"),
        "The tree that it is to stand on: 40 lower-case hexadecimal digits",
    )
}

/// The line of a command for an overlay, with the options of whatever is.
fn overlay_line<'a>(
    alloc: Global,
    name: &'a str,
    about: &'a str,
) -> Result<clap::Command<'a>, AllocError>
    ensures shape { IfOk result (λ line. shape_of line ≡ subcommand_shape (name.entry.now, overlay_options)) }
    ensures local { IfOk result (λ line. (fields_of line).has_globals ≡ false) }
{
    let line = clap::Command::new(alloc, name).about(about);
    let line = with_required(
        alloc,
        line,
        ("root", "ID"),
        "The tree that the overlay stands on: 40 lower-case hexadecimal digits",
    )?;
    let line = with_required(alloc, line, ("overlay", "DIR"), "The folder of the overlay")?;
    let line = with_optional(alloc, line, ("objects", "DIR"), "The folder of Git objects")?;
    let line = with_optional(
        alloc,
        line,
        ("git", "DIR"),
        "A Git repository, in the place of --objects; with --remote, which has what it lacks",
    )?;
    with_optional(
        alloc,
        line,
        ("remote", "SERVER"),
        "A server of Git objects, in the place of --objects: its port, or its socket's path with a slash",
    )
}
