//! A folder, over the descriptor of the kernel's FUSE protocol as standard input and output.
ghost use Rattle.std.specs.Prelude.{◌≡◌, IfOk, IsErr, []};
ghost use Rattle.std.specs.Process.{exit_status};
ghost use Rattle.eden_checkout.specs.Opening.{MayOpen};
ghost use Rattle.mountd.specs.Runs.{IsFolderRun, copies_of, limit_of};

use crate::hold::{HoldFault, hold_overlay, opening};
use crate::kernel::{KernelInput, KernelOutput};
use crate::look::{look, note_changes};
use crate::mount_files::MountFiles;
use crate::overlay_files::overlay_files;
use crate::report;
use crate::report::repository_name;
use crate::shared_folder::share_files;
use crate::sources::object_source;
use eden_fuse_life::{Look, live_folder};
use eden_git::GitFault;
use eden_history::{Counted, History, Kept};
use eden_model::{Outside, World};
use eden_mount::Config;
use eden_overlay::{Files, MemoryFiles};
use eden_source::Source;
use eden_stdio_life::{Backing, Base};
use mountd_options::{FuseOptions, HistoryOption, MountOptions};
use std::marker::Sync;
use std::path::PathBuf;
use std::process::ExitCode;
use std::sync::Wait;
use std::thread::Threads;

/// Shows a mount as a folder, whose descriptor is standard input and output, until it is unmounted.
pub fn folder<R: Threads + Wait + Sync>(
    threads: &R,
    rt: &HostRuntime,
    mut options: FuseOptions,
) -> ExitCode {
    let look = look(rt, options.since);
    match hold_overlay(rt, rt.alloc(), options.mount.overlay.take()) {
        Err(fault) => report::unopened(rt, fault.name()),
        Ok(None) => {
            let files = MountFiles::Memory(MemoryFiles::new(rt.alloc()));
            show_files(threads, rt, options, look, files)
        }
        Ok(Some((folder, lock))) => {
            let status = show_overlay(threads, rt, options, look, folder);
            drop(lock);
            status
        }
    }
}

/// Shows a mount over an overlay's directory that is held.
fn show_overlay<R: Threads + Wait + Sync>(
    threads: &R,
    rt: &HostRuntime,
    options: FuseOptions,
    mut look: Look,
    folder: PathBuf,
) -> ExitCode {
    let Ok(place) = folder.clone() else {
        return report::unopened(rt, HoldFault::Memory.name());
    };
    match overlay_files(rt, folder) {
        Err(fault) => report::unopened(rt, fault.name()),
        Ok(mut files) => {
            note_changes(rt, &place, &mut files, &mut look);
            show_files(threads, rt, options, look, MountFiles::Overlay(files))
        }
    }
}

/// Shows a mount over these files, by as many threads as are asked for.
fn show_files<R: Threads + Wait + Sync>(
    threads: &R,
    rt: &HostRuntime,
    options: FuseOptions,
    look: Look,
    files: MountFiles,
) -> ExitCode {
    if options.threads > 1 {
        return share_files(threads, rt, options.mount, look, files);
    }
    show_alone(rt, options.mount, look, files)
}

/// Shows a mount over these files by one thread, with the objects that are asked for.
fn show_alone(rt: &HostRuntime, options: MountOptions, look: Look, files: MountFiles) -> ExitCode {
    let MountOptions {
        root,
        objects,
        rescan,
        history,
        limits,
        ..
    } = options;
    let base = Base {
        root,
        opening: opening(rescan),
    };
    let source = object_source(rt, objects);
    run_opened::<Outside, _, _>(rt, base, history, &limits, look, files, source)
}

/// Shows a mount over these files, if its objects' repository could be opened.
fn run_opened<W: World, F: Files<W>, S: Source<W> + Drop>(
    rt: &HostRuntime,
    base: Base,
    history: HistoryOption,
    limits: &Config,
    look: Look,
    files: F,
    source: Result<S, GitFault>,
) -> ExitCode
    requires files { W.honest → MayOpen base.opening W.repository W.opening W.numbers base.root (F.stored files) }
    ensures run { IfOk source (λ source. IsFolderRun W.World F.Files S.fetched (copies_of history)
        (limit_of history limits.now) base limits.now (record { files = files; source = source }) look.manner
        (exit_status result)) }
    ensures refused { IsErr source → exit_status result ≡ 3 }
{
    match source {
        Ok(source) => run::<W, _, _>(rt, base, history, limits, look, Backing { files, source }),
        Err(fault) => report::unopened(rt, repository_name(fault)),
    }
}

/// Shows a mount over these files and objects, with the history that is asked for.
fn run<W: World, F: Files<W>, S: Source<W> + Drop>(
    rt: &HostRuntime,
    base: Base,
    history: HistoryOption,
    limits: &Config,
    look: Look,
    backing: Backing<F, S>,
) -> ExitCode
    requires files { W.honest → MayOpen base.opening W.repository W.opening W.numbers base.root
        (F.stored backing.files) }
    ensures { IsFolderRun W.World F.Files S.fetched (copies_of history) (limit_of history limits.now) base limits.now
        backing look.manner (exit_status result) }
{
    let memory = rt.alloc();
    match history {
        HistoryOption::Kept => {
            let history = Kept::new(memory, limits.history());
            run_with::<W, _, _, _>(rt, base, history, limits, look, backing)
        }
        HistoryOption::Counted => {
            let history = Counted::new(memory);
            run_with::<W, _, _, _>(rt, base, history, limits, look, backing)
        }
    }
}

/// Shows it with that history, in which nothing is yet.
fn run_with<W: World, F: Files<W>, S: Source<W> + Drop, H: History>(
    rt: &HostRuntime,
    base: Base,
    history: H,
    limits: &Config,
    look: Look,
    backing: Backing<F, S>,
) -> ExitCode
    requires files { W.honest → MayOpen base.opening W.repository W.opening W.numbers base.root
        (F.stored backing.files) }
    requires empty { H.entries history ≡ [] }
    ensures { IsFolderRun W.World F.Files S.fetched H.copies (H.limit history) base limits.now backing look.manner
        (exit_status result) }
{
    let mut input = KernelInput::new(rt.stdin());
    let mut output = KernelOutput::new(rt.stdout());
    let memory = rt.alloc();
    let ending = live_folder::<W, _, _, _, _, _, _, _>(
        memory,
        memory,
        history,
        backing,
        base,
        limits,
        look,
        *rt,
        &mut input,
        &mut output,
    );
    report::folder_ending(rt, ending.outcome, ending.unstored)
}
