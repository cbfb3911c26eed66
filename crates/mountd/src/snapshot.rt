//! What a closed overlay shows, as Git's objects in a directory.
ghost use Rattle.std.specs.Prelude.{◌≡◌, IsErr, IsOk};
ghost use Rattle.std.specs.Process.{exit_status};
ghost use Rattle.mountd.specs.Snapshots.{closed_name, snapshot_name, taken_status};
ghost use Rattle.mountd.specs.Taking.{IsSnapshotRun, Takes};
ghost use Rattle.mountd.specs.declared.snapshot.TakeFault.TheVariants as take;

use crate::hold::hold_existing;
use crate::overlay_files::overlay_files;
use crate::report;
use crate::report::repository_name;
use crate::sink::FolderSink;
use crate::sources::object_source;
use eden_git::GitFault;
use eden_model::{Id, Outside, World};
use eden_object_writer::{Progress, Store};
use eden_overlay::{Files, Overlay};
use eden_snapshot::{ClosedFault, CommitSubmodules, Sink, SnapshotFault, expect_closed};
use eden_source::Source;
use mountd_options::{Objects, OverlayOptions, SnapshotOptions};
use std::alloc::Global;
use std::io;
use std::path::PathBuf;
use std::process::ExitCode;

/// A closed overlay's files, and where its objects go.
#[derive(Drop)]
struct Work<F, K> {
    root: Id,
    files: F,
    sink: K,
}

/// Why a snapshot wasn't taken, or not all changes were reported.
#[derive(Clone, Copy)]
pub enum TakeFault {
    /// The overlay isn't one that was closed on that tree.
    Closed(ClosedFault),
    /// A file, an object or the directory failed.
    Snapshot(SnapshotFault),
}

impl From<ClosedFault> for TakeFault {
    ghost from_gives = { λ e f. f ≡ take.Closed e };

    fn from(fault: ClosedFault) -> TakeFault {
        TakeFault::Closed(fault)
    }
}

impl From<SnapshotFault> for TakeFault {
    ghost from_gives = { λ e f. f ≡ take.Snapshot e };

    fn from(fault: SnapshotFault) -> TakeFault {
        TakeFault::Snapshot(fault)
    }
}

/// Makes objects of what a closed overlay shows, and prints the id of its tree. The overlay's files stay as they were.
pub fn snapshot(rt: &HostRuntime, options: SnapshotOptions) -> ExitCode {
    let SnapshotOptions { closed, into } = options;
    let OverlayOptions {
        root,
        objects,
        folder,
    } = closed;
    match hold_existing(rt, rt.alloc(), folder) {
        Err(fault) => report::unopened(rt, fault.name()),
        Ok((folder, lock)) => {
            let store = Store::new(*rt, PathBuf::from(into), Progress::Quiet);
            let sink = FolderSink::new(*rt, store);
            let status = match overlay_files(rt, folder) {
                Err(fault) => report::unopened(rt, fault.name()),
                Ok(files) => take_with(rt, objects, Work { root, files, sink }),
            };
            drop(lock);
            status
        }
    }
}

/// Does the work with the objects that are asked for.
fn take_with<F: Files<Outside>, K: Sink<Outside> + Drop>(
    rt: &HostRuntime,
    objects: Objects,
    work: Work<F, K>,
) -> ExitCode {
    run_opened::<Outside, _, _, _>(rt, work, object_source(rt, objects))
}

/// Does the work if its objects' repository could be opened.
fn run_opened<W: World, F: Files<W>, K: Sink<W> + Drop, S: Source<W> + Drop>(
    rt: &HostRuntime,
    work: Work<F, K>,
    source: Result<S, GitFault>,
) -> ExitCode
    ensures run { IsOk source
        → IsSnapshotRun W.World F.Files K.Sink work.root work.files work.sink (exit_status result) }
    ensures refused { IsErr source → exit_status result ≡ 3 }
{
    match source {
        Ok(source) => run::<W, _, _, _>(rt, work, source),
        Err(fault) => report::unopened(rt, repository_name(fault)),
    }
}

/// Does the work with these objects.
fn run<W: World, F: Files<W>, K: Sink<W> + Drop, S: Source<W> + Drop>(
    rt: &HostRuntime,
    work: Work<F, K>,
    source: S,
) -> ExitCode
    ensures { IsSnapshotRun W.World F.Files K.Sink work.root work.files work.sink (exit_status result) }
{
    let Work {
        root,
        files,
        mut sink,
    } = work;
    let alloc = rt.alloc();
    let mut overlay = Overlay::<W, _>::new(alloc, files);
    let outcome = take::<W, _, _, _>(alloc, root, &mut overlay, &mut sink, source);
    let written = print_id(rt, alloc, &outcome);
    taken(rt, "snapshot", outcome, written)
}

/// The tree's id, once its objects are in the sink.
fn take<W: World, F: Files<W>, K: Sink<W>, S: Source<W> + Drop>(
    alloc: Global,
    root: Id,
    overlay: &mut Overlay<W, F>,
    sink: &mut K,
    source: S,
) -> Result<Id, TakeFault>
    ensures { Takes W.World F.Files K.Sink root overlay.old overlay.new sink.old sink.new result }
{
    expect_closed(alloc, root, overlay)?;
    let mut submodules = CommitSubmodules::new(source, root);
    let id = eden_snapshot::snapshot(alloc, root, overlay, sink, &mut submodules)?;
    Ok(id)
}

/// Prints the id, if there is one.
fn print_id<R: Print>(rt: &R, alloc: Global, outcome: &Result<Id, TakeFault>) -> io::Result<()> {
    let Ok(id) = outcome else {
        return Ok(());
    };
    let digits = hex::encode(alloc, id.bytes)?;
    println!(rt; "{digits}")
}

/// Reports by which fault `what` wasn't done to its end, or couldn't be written, if there was one.
///
/// Status 0; 3, if the overlay isn't one that was closed; 4, if a file, an object or the directory failed, or a line
/// can't be written.
pub fn taken<R: Eprint, T: Drop>(
    rt: &R,
    what: &str,
    outcome: Result<T, TakeFault>,
    written: io::Result<()>,
) -> ExitCode
    ensures { exit_status result ≡ taken_status outcome written }
{
    match outcome {
        Ok(_) => report::told(rt, what, written),
        Err(TakeFault::Closed(fault)) => report::unopened(rt, closed_name(fault)),
        Err(TakeFault::Snapshot(fault)) => report::ended(rt, what, snapshot_name(fault)),
    }
}

/// The name of why an overlay isn't one that was closed.
pub fn closed_name(fault: ClosedFault) -> &'static str
    ensures { result.now ≡ closed_name fault }
{
    match fault {
        ClosedFault::NotClean => "NotClean",
        ClosedFault::OtherRoot(_) => "OtherRoot",
        ClosedFault::Damaged(_) => "Damaged",
        ClosedFault::Device => "Device",
        ClosedFault::Memory => "Memory",
    }
}

/// The name of why there is no snapshot, or why not all changes were reported.
pub fn snapshot_name(fault: SnapshotFault) -> &'static str
    ensures { result.now ≡ snapshot_name fault }
{
    match fault {
        SnapshotFault::Dangling(_) => "Dangling",
        SnapshotFault::Damaged(_, _) => "Damaged",
        SnapshotFault::TooDeep(_) => "TooDeep",
        SnapshotFault::TooLarge(_) => "TooLarge",
        SnapshotFault::Object(_) => "Object",
        SnapshotFault::Device => "Device",
        SnapshotFault::Sink => "Sink",
        SnapshotFault::Memory => "Memory",
    }
}
