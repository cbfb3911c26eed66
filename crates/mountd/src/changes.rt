//! How what an overlay shows differs from the tree that it stands on.
ghost use Rattle.std.specs.Prelude.{◌≡◌, IfOk, IsErr, IsOk, false, true};
ghost use Rattle.std.specs.Process.{exit_status};
ghost use Rattle.mountd.specs.Taking.{IsChangesRun, Tells};

use crate::hold::{HoldFault, hold_existing};
use crate::lines::{HoldsBack, LineSink};
use crate::overlay_files::{overlay_files, running_files};
use crate::report;
use crate::report::repository_name;
use crate::snapshot::{TakeFault, snapshot_name, taken};
use crate::sources::object_source;
use eden_git::GitFault;
use eden_model::{Id, Outside, World};
use eden_overlay::{Files, Overlay};
use eden_snapshot::{ChangeSink, SnapshotFault, expect_closed};
use eden_source::Source;
use mountd_options::{ChangesOptions, Objects, OverlayOptions};
use std::alloc::Global;
use std::io::{self, Stdout};
use std::process::ExitCode;

/// An overlay's files, and the tree that they stand on: whether a mount runs over them, or they are to have been closed
/// on it.
#[derive(Drop)]
struct Looked<F> {
    root: Id,
    files: F,
    is_running: bool,
}

/// Prints how what an overlay shows differs from the tree that it stands on, a line for each path. The overlay's files
/// stay as they were. One that no mount runs over is held meanwhile.
pub fn changes(rt: &HostRuntime, options: ChangesOptions) -> ExitCode {
    let ChangesOptions {
        overlay,
        is_running,
    } = options;
    let OverlayOptions {
        root,
        objects,
        folder,
    } = overlay;
    if is_running {
        return tell_files(rt, root, objects, is_running, running_files(rt, folder));
    }
    match hold_existing(rt, rt.alloc(), folder) {
        Err(fault) => report::unopened(rt, fault.name()),
        Ok((folder, lock)) => {
            let status = tell_files(rt, root, objects, is_running, overlay_files(rt, folder));
            drop(lock);
            status
        }
    }
}

/// Tells them of these files, if they could be opened.
fn tell_files<F: Files<Outside>>(
    rt: &HostRuntime,
    root: Id,
    objects: Objects,
    is_running: bool,
    files: Result<F, HoldFault>,
) -> ExitCode
    ensures { IsErr files → exit_status result ≡ 3 }
{
    match files {
        Ok(files) => {
            let looked = Looked {
                root,
                files,
                is_running,
            };
            tell_with(rt, objects, looked)
        }
        Err(fault) => report::unopened(rt, fault.name()),
    }
}

/// Tells them as lines on standard output, with the objects that are asked for.
fn tell_with<F: Files<Outside>>(rt: &HostRuntime, objects: Objects, looked: Looked<F>) -> ExitCode {
    tell_opened::<Outside, _, _, _>(rt, looked, object_source(rt, objects), lines(rt))
}

/// Lines on standard output, of which none is written yet.
fn lines(rt: &HostRuntime) -> io::Result<LineSink<Stdout>> {
    LineSink::new(rt.alloc(), rt.stdout())
}

/// Tells them if its objects' repository could be opened.
fn tell_opened<W: World, F: Files<W>, C: ChangeSink<W> + HoldsBack + Drop, S: Source<W> + Drop>(
    rt: &HostRuntime,
    looked: Looked<F>,
    source: Result<S, GitFault>,
    sink: io::Result<C>,
) -> ExitCode
    ensures run { IsOk source → IfOk sink (λ sink. IsChangesRun W.World F.Files C.ChangeSink C.HoldsBack
        looked.is_running looked.root looked.files sink (exit_status result)) }
    ensures refused { IsErr source → exit_status result ≡ 3 }
    ensures unmade { IsOk source → IsErr sink → exit_status result ≡ 4 }
{
    match source {
        Ok(source) => tell_made::<W, _, _, _>(rt, looked, source, sink),
        Err(fault) => report::unopened(rt, repository_name(fault)),
    }
}

/// Tells them if there was memory for what they are told to.
fn tell_made<W: World, F: Files<W>, C: ChangeSink<W> + HoldsBack + Drop, S: Source<W> + Drop>(
    rt: &HostRuntime,
    looked: Looked<F>,
    source: S,
    sink: io::Result<C>,
) -> ExitCode
    ensures run { IfOk sink (λ sink. IsChangesRun W.World F.Files C.ChangeSink C.HoldsBack looked.is_running
        looked.root looked.files sink (exit_status result)) }
    ensures unmade { IsErr sink → exit_status result ≡ 4 }
{
    match sink {
        Ok(sink) => run::<W, _, _, _>(rt, looked, source, sink),
        Err(_) => report::ended(rt, "changes", snapshot_name(SnapshotFault::Memory)),
    }
}

/// Tells them with these objects, also those before a fault.
fn run<W: World, F: Files<W>, C: ChangeSink<W> + HoldsBack + Drop, S: Source<W> + Drop>(
    rt: &HostRuntime,
    looked: Looked<F>,
    mut source: S,
    mut sink: C,
) -> ExitCode
    ensures { IsChangesRun W.World F.Files C.ChangeSink C.HoldsBack looked.is_running looked.root looked.files sink
        (exit_status result) }
{
    let Looked {
        root,
        files,
        is_running,
    } = looked;
    let alloc = rt.alloc();
    let mut overlay = Overlay::<W, _>::new(alloc, files);
    let outcome = tell(
        alloc,
        root,
        is_running,
        &mut overlay,
        &mut source,
        &mut sink,
    );
    let written = sink.write_out();
    taken(rt, "changes", outcome, written)
}

/// Tells them to the sink, also those before a fault.
fn tell<W: World, F: Files<W>, S: Source<W>, C: ChangeSink<W>>(
    alloc: Global,
    root: Id,
    is_running: bool,
    overlay: &mut Overlay<W, F>,
    source: &mut S,
    sink: &mut C,
) -> Result<(), TakeFault>
    ensures { Tells W.World F.Files C.ChangeSink is_running root overlay.old overlay.new sink.old sink.new result }
{
    match is_running {
        true => tell_shown(alloc, root, overlay, source, sink),
        false => tell_closed(alloc, root, overlay, source, sink),
    }
}

/// .. of an overlay that was closed on that tree.
fn tell_closed<W: World, F: Files<W>, S: Source<W>, C: ChangeSink<W>>(
    alloc: Global,
    root: Id,
    overlay: &mut Overlay<W, F>,
    source: &mut S,
    sink: &mut C,
) -> Result<(), TakeFault>
    ensures { Tells W.World F.Files C.ChangeSink false root overlay.old overlay.new sink.old sink.new result }
{
    expect_closed(alloc, root, overlay)?;
    tell_shown(alloc, root, overlay, source, sink)
}

/// .. of what its files show.
fn tell_shown<W: World, F: Files<W>, S: Source<W>, C: ChangeSink<W>>(
    alloc: Global,
    root: Id,
    overlay: &mut Overlay<W, F>,
    source: &mut S,
    sink: &mut C,
) -> Result<(), TakeFault>
    ensures { Tells W.World F.Files C.ChangeSink true root overlay.old overlay.new sink.old sink.new result }
{
    eden_snapshot::changes(alloc, root, overlay, source, sink)?;
    Ok(())
}
