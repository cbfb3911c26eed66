//! The program's grammar, and the help texts in it.
ghost use Rattle.std.specs.Prelude.{◌≡◌, ◌∷◌, [], IfOk, false};
ghost use Rattle.clap.specs.declared.builder.command.Command.TheViews.{out-Command as fields_of};
ghost use Rattle.clap.specs.Words.{app_of, rule_of, shape_of};
ghost use Rattle.mountd_options.specs.CommandLine.{fuse, import, kept_options, mount_options, mountd_line, objects};
ghost use Rattle.mountd_options.specs.CommandLine.{repair, serve, stdio, tidy};
ghost use Rattle.mountd_options.specs.Grammar.{flag, option_rule, optional, required, subcommand_shape, with_options};

use crate::overlays::{changes_line, dematerialise_line, snapshot_line};
use clap::{Arg, ArgAction};
use std::alloc::{AllocError, Global};

const PORT_HELP: &str = "The port of 127.0.0.1; 0 lets the machine choose";

const SOCKET_HELP: &str = "The path of a socket for this user alone, in the place of --port";

/// The program's grammar.
pub(crate) fn command_line<'a>(alloc: Global) -> Result<clap::Command<'a>, AllocError>
    ensures { IfOk result (λ command. app_of command ≡ mountd_line) }
{
    let line = clap::Command::new(alloc, "mountd")
        .about("Answers requests on the files of a Git commit")
        .subcommand_required(true);
    // Each is made when it is added, so that no more than one is there beside the line.
    let stdio = stdio_line(alloc)?;
    let line = line.subcommand(stdio)?;
    let serve = serve_line(alloc)?;
    let line = line.subcommand(serve)?;
    let objects = objects_line(alloc)?;
    let line = line.subcommand(objects)?;
    let import = import_line(alloc)?;
    let line = line.subcommand(import)?;
    let tidy = tidy_line(alloc)?;
    let line = line.subcommand(tidy)?;
    let repair = repair_line(alloc)?;
    let line = line.subcommand(repair)?;
    let snapshot = snapshot_line(alloc)?;
    let line = line.subcommand(snapshot)?;
    let fuse = fuse_line(alloc)?;
    let line = line.subcommand(fuse)?;
    let changes = changes_line(alloc)?;
    let line = line.subcommand(changes)?;
    let dematerialise = dematerialise_line(alloc)?;
    let line = line.subcommand(dematerialise)?;
    Ok(line)
}

fn stdio_line<'a>(alloc: Global) -> Result<clap::Command<'a>, AllocError>
    ensures shape { IfOk result (λ line. shape_of line ≡ subcommand_shape stdio) }
    ensures local { IfOk result (λ line. (fields_of line).has_globals ≡ false) }
{
    mount_line(
        alloc,
        "stdio",
        "Serves one session over standard input and output",
    )
}

fn fuse_line<'a>(alloc: Global) -> Result<clap::Command<'a>, AllocError>
    ensures shape { IfOk result (λ line. shape_of line ≡ subcommand_shape fuse) }
    ensures local { IfOk result (λ line. (fields_of line).has_globals ≡ false) }
{
    let line = mount_line(
        alloc,
        "fuse",
        "Shows a folder over standard input and output, which are the kernel's FUSE protocol",
    )?;
    let line = with_optional(
        alloc,
        line,
        ("threads", "N"),
        "How many threads answer the kernel, and wait for objects at once [default: 1]",
    )?;
    with_optional(
        alloc,
        line,
        ("since", "SECONDS"),
        "The time of what was never changed, since 1970 [default: 0, when it starts]",
    )
}

fn serve_line<'a>(alloc: Global) -> Result<clap::Command<'a>, AllocError>
    ensures shape { IfOk result (λ line. shape_of line ≡ subcommand_shape serve) }
    ensures local { IfOk result (λ line. (fields_of line).has_globals ≡ false) }
{
    let line = mount_line(alloc, "serve", "Serves a session to each connection")?;
    let line = with_optional(alloc, line, ("port", "P"), PORT_HELP)?;
    let line = with_optional(alloc, line, ("socket", "PATH"), SOCKET_HELP)?;
    let line = with_optional(
        alloc,
        line,
        ("sessions", "N"),
        "How many connections are served [default: 1]",
    )?;
    with_optional(
        alloc,
        line,
        ("fetchers", "N"),
        "How many objects are asked for at once [default: 2]",
    )
}

/// The line of a command that opens a mount, with the options of whatever does.
fn mount_line<'a>(
    alloc: Global,
    name: &'a str,
    about: &'a str,
) -> Result<clap::Command<'a>, AllocError>
    ensures shape { IfOk result (λ line. shape_of line ≡ subcommand_shape (name.entry.now, mount_options)) }
    ensures local { IfOk result (λ line. (fields_of line).has_globals ≡ false) }
{
    let line = clap::Command::new(alloc, name).about(about);
    let line = with_required(
        alloc,
        line,
        ("root", "ID"),
        "The root directory's tree: 40 lower-case hexadecimal digits",
    )?;
    let line = with_optional(alloc, line, ("objects", "DIR"), "The folder of Git objects")?;
    let line = with_optional(
        alloc,
        line,
        ("git", "DIR"),
        "A Git repository, in the place of --objects; with --remote, which has what it lacks",
    )?;
    let line = with_optional(
        alloc,
        line,
        ("remote", "SERVER"),
        "A server of Git objects, in the place of --objects: its port, or its socket's path with a slash",
    )?;
    with_kept_options(alloc, line)
}

fn objects_line<'a>(alloc: Global) -> Result<clap::Command<'a>, AllocError>
    ensures shape { IfOk result (λ line. shape_of line ≡ subcommand_shape objects) }
    ensures local { IfOk result (λ line. (fields_of line).has_globals ≡ false) }
{
    let line = clap::Command::new(alloc, "objects").about(
        "Serves the Git objects of a folder or a repository",
    );
    let line = with_optional(alloc, line, ("dir", "DIR"), "The folder of Git objects")?;
    let line = with_optional(
        alloc,
        line,
        ("git", "DIR"),
        "A Git repository, in the place of --dir",
    )?;
    let line = with_optional(alloc, line, ("port", "P"), PORT_HELP)?;
    let line = with_optional(alloc, line, ("socket", "PATH"), SOCKET_HELP)?;
    with_optional(
        alloc,
        line,
        ("sessions", "N"),
        "How many connections are served [default: 2]",
    )
}

fn import_line<'a>(alloc: Global) -> Result<clap::Command<'a>, AllocError>
    ensures shape { IfOk result (λ line. shape_of line ≡ subcommand_shape import) }
    ensures local { IfOk result (λ line. (fields_of line).has_globals ≡ false) }
{
    let line = clap::Command::new(alloc, "import").about("Makes a folder's files Git objects");
    let line = with_required(alloc, line, ("from", "DIR"), "The folder to import")?;
    with_required(
        alloc,
        line,
        ("objects", "DIR"),
        "The folder of Git objects that it is imported into",
    )
}

fn tidy_line<'a>(alloc: Global) -> Result<clap::Command<'a>, AllocError>
    ensures shape { IfOk result (λ line. shape_of line ≡ subcommand_shape tidy) }
    ensures local { IfOk result (λ line. (fields_of line).has_globals ≡ false) }
{
    let line = clap::Command::new(alloc, "tidy").about("Removes orphans from a closed overlay");
    with_required(alloc, line, ("overlay", "DIR"), "The folder of the overlay")
}

fn repair_line<'a>(alloc: Global) -> Result<clap::Command<'a>, AllocError>
    ensures shape { IfOk result (λ line. shape_of line ≡ subcommand_shape repair) }
    ensures local { IfOk result (λ line. (fields_of line).has_globals ≡ false) }
{
    let line = clap::Command::new(alloc, "repair").about(
        "Takes out of an overlay what can't be read",
    );
    let line = with_required(
        alloc,
        line,
        ("root", "ID"),
        "The tree that the overlay stands on: 40 lower-case hexadecimal digits",
    )?;
    with_required(alloc, line, ("overlay", "DIR"), "The folder of the overlay")
}

/// The line with the options of what a mount keeps.
fn with_kept_options<'a>(
    alloc: Global,
    line: clap::Command<'a>,
) -> Result<clap::Command<'a>, AllocError>
    requires { (fields_of line).has_globals ≡ false }
    ensures shape { IfOk result (λ more. shape_of more ≡ with_options (shape_of line.entry) kept_options) }
    ensures local { IfOk result (λ more. (fields_of more).has_globals ≡ false) }
{
    let line = with_optional(
        alloc,
        line,
        ("overlay", "DIR"),
        "The folder that keeps the changes [default: they stay in memory]",
    )?;
    let line = with_flag(
        alloc,
        line,
        "rescan",
        "Opens an overlay that wasn't closed, by what its files say",
    )?;
    let line = with_optional(
        alloc,
        line,
        ("history", "N"),
        "How many entries the history holds; with none it keeps none [default: 1000000; of fuse none]",
    )?;
    let line = with_optional(
        alloc,
        line,
        ("cache-entries", "N"),
        "How many objects the cache holds [default: 1024]",
    )?;
    with_optional(
        alloc,
        line,
        ("cache-bytes", "N"),
        "How many bytes the cache's objects have together [default: 268435456]",
    )
}

/// The line with an option more, of this name and value, that must be given.
pub(crate) fn with_required<'a>(
    alloc: Global,
    line: clap::Command<'a>,
    name: (&'a str, &'a str),
    help: &'a str,
) -> Result<clap::Command<'a>, AllocError>
    requires { (fields_of line).has_globals ≡ false }
    ensures shape { IfOk result (λ more.
        shape_of more ≡ with_options (shape_of line.entry) (required name.entry.0.now ∷ [])) }
    ensures local { IfOk result (λ more. (fields_of more).has_globals ≡ false) }
{
    line.arg(option(alloc, name).required(true).help(help))
}

/// The line with an option more, of this name and value, that may be left out.
pub(crate) fn with_optional<'a>(
    alloc: Global,
    line: clap::Command<'a>,
    name: (&'a str, &'a str),
    help: &'a str,
) -> Result<clap::Command<'a>, AllocError>
    requires { (fields_of line).has_globals ≡ false }
    ensures shape { IfOk result (λ more.
        shape_of more ≡ with_options (shape_of line.entry) (optional name.entry.0.now ∷ [])) }
    ensures local { IfOk result (λ more. (fields_of more).has_globals ≡ false) }
{
    line.arg(option(alloc, name).help(help))
}

/// The line with a flag more, of this name.
pub(crate) fn with_flag<'a>(
    alloc: Global,
    line: clap::Command<'a>,
    name: &'a str,
    help: &'a str,
) -> Result<clap::Command<'a>, AllocError>
    requires { (fields_of line).has_globals ≡ false }
    ensures shape { IfOk result (λ more.
        shape_of more ≡ with_options (shape_of line.entry) (flag name.entry.now ∷ [])) }
    ensures local { IfOk result (λ more. (fields_of more).has_globals ≡ false) }
{
    let flag = Arg::new(alloc, name).long(name).action(ArgAction::SetTrue);
    line.arg(flag.help(help))
}

fn option<'a>(alloc: Global, name: (&'a str, &'a str)) -> Arg<'a>
    ensures rule { rule_of result ≡ option_rule (optional name.entry.0.now) }
    ensures local { result.global ≡ false }
{
    let (name, value) = name;
    Arg::new(alloc, name).long(name).value_name(value)
}
