//! A closed overlay on another commit's tree, without what that has too.
ghost use Rattle.std.specs.Prelude.{◌≡◌, IsErr, IsOk};
ghost use Rattle.std.specs.Process.{exit_status};
ghost use Rattle.mountd.specs.Dematerialised.{IsClosedRun, IsDematerialiseRun};

use crate::hold::hold_existing;
use crate::overlay_files::overlay_files;
use crate::report;
use crate::report::repository_name;
use crate::snapshot::closed_name;
use crate::sources::object_source;
use eden_git::GitFault;
use eden_model::{Id, Outside, World};
use eden_overlay::{Files, Overlay};
use eden_snapshot::expect_closed;
use eden_source::Source;
use mountd_options::{DematerialiseOptions, Objects, OverlayOptions};
use std::process::ExitCode;

/// A closed overlay's files, the tree that they stand on, and the one that they are to stand on.
#[derive(Drop)]
struct Moving<F> {
    root: Id,
    to: Id,
    files: F,
}

/// Has a closed overlay stand on the tree of another commit. What it has of its own at a path, and the commit has there
/// too, comes from the commit's object then. What it shows stays the same. Nothing is printed.
pub fn dematerialise(rt: &HostRuntime, options: DematerialiseOptions) -> ExitCode {
    let DematerialiseOptions { overlay, tree } = options;
    let OverlayOptions {
        root,
        objects,
        folder,
    } = overlay;
    match hold_existing(rt, rt.alloc(), folder) {
        Err(fault) => report::unopened(rt, fault.name()),
        Ok((folder, lock)) => {
            let to = tree;
            let status = match overlay_files(rt, folder) {
                Err(fault) => report::unopened(rt, fault.name()),
                Ok(files) => move_with(rt, objects, Moving { root, to, files }),
            };
            drop(lock);
            status
        }
    }
}

/// Has it stand there with the objects that are asked for.
fn move_with<F: Files<Outside>>(rt: &HostRuntime, objects: Objects, moving: Moving<F>) -> ExitCode {
    run_opened::<Outside, _, _>(rt, moving, object_source(rt, objects))
}

/// Has it stand there if its objects' repository could be opened.
fn run_opened<W: World, F: Files<W>, S: Source<W> + Drop>(
    rt: &HostRuntime,
    moving: Moving<F>,
    source: Result<S, GitFault>,
) -> ExitCode
    ensures run { IsOk source
        → IsClosedRun W.World F.Files moving.root moving.to moving.files (exit_status result) }
    ensures refused { IsErr source → exit_status result ≡ 3 }
{
    match source {
        Ok(source) => run::<W, _, _>(rt, moving, source),
        Err(fault) => report::unopened(rt, repository_name(fault)),
    }
}

/// Has it stand there with these objects, if it was closed on its tree.
fn run<W: World, F: Files<W>, S: Source<W> + Drop>(
    rt: &HostRuntime,
    moving: Moving<F>,
    source: S,
) -> ExitCode
    ensures { IsClosedRun W.World F.Files moving.root moving.to moving.files (exit_status result) }
{
    let Moving { root, to, files } = moving;
    let mut overlay = Overlay::<W, _>::new(rt.alloc(), files);
    match expect_closed(rt.alloc(), root, &mut overlay) {
        Ok(()) => move_files::<W, _, _>(rt, to, overlay.into_files(), source),
        Err(fault) => report::unopened(rt, closed_name(fault)),
    }
}

/// Has its files stand there, and waits until the disk has them.
fn move_files<W: World, F: Files<W>, S: Source<W> + Drop>(
    rt: &HostRuntime,
    to: Id,
    mut files: F,
    mut source: S,
) -> ExitCode
    ensures { IsDematerialiseRun W.World F.Files to files (exit_status result) }
{
    let alloc = rt.alloc();
    let outcome = eden_dematerialise::dematerialise::<W, _, _>(alloc, to, &mut files, &mut source);
    let stored = files.sync(alloc);
    report::dematerialised(rt, outcome, stored)
}
