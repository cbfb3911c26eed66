//! One caller of a mount, over standard input and output.
ghost use Rattle.std.specs.Prelude.{◌≡◌, IfOk, IsErr, []};
ghost use Rattle.std.specs.Process.{exit_status};
ghost use Rattle.eden_checkout.specs.Opening.{MayOpen};
ghost use Rattle.mountd.specs.Runs.{IsRun, copies_of, limit_of};

use crate::hold::{hold_overlay, opening};
use crate::mount_files::MountFiles;
use crate::overlay_files::overlay_files;
use crate::report;
use crate::report::repository_name;
use crate::sources::object_source;
use eden_git::GitFault;
use eden_history::{Counted, History, Kept};
use eden_model::{Outside, World};
use eden_mount::Config;
use eden_overlay::{Files, MemoryFiles};
use eden_source::Source;
use eden_stdio_life::{Backing, Base, live};
use mountd_options::{HistoryOption, MountOptions};
use std::process::ExitCode;

/// Serves one session over standard input and output.
pub fn stdio(rt: &HostRuntime, mut options: MountOptions) -> ExitCode {
    match hold_overlay(rt, rt.alloc(), options.overlay.take()) {
        Err(fault) => report::unopened(rt, fault.name()),
        Ok(None) => {
            let files = MountFiles::Memory(MemoryFiles::new(rt.alloc()));
            serve_files(rt, options, files)
        }
        Ok(Some((folder, lock))) => {
            let status = match overlay_files(rt, folder) {
                Err(fault) => report::unopened(rt, fault.name()),
                Ok(files) => serve_files(rt, options, MountFiles::Overlay(files)),
            };
            drop(lock);
            status
        }
    }
}

/// Serves a session over these files, with the objects that are asked for.
fn serve_files(rt: &HostRuntime, options: MountOptions, files: MountFiles) -> ExitCode {
    let MountOptions {
        root,
        objects,
        rescan,
        history,
        limits,
        ..
    } = options;
    let base = Base {
        root,
        opening: opening(rescan),
    };
    let source = object_source(rt, objects);
    run_opened::<Outside, _, _>(rt, base, history, &limits, files, source)
}

/// Serves a session on a mount over these files, if its objects' repository could be opened.
fn run_opened<W: World, F: Files<W>, S: Source<W> + Drop>(
    rt: &HostRuntime,
    base: Base,
    history: HistoryOption,
    limits: &Config,
    files: F,
    source: Result<S, GitFault>,
) -> ExitCode
    requires files { W.honest → MayOpen base.opening W.repository W.opening W.numbers base.root (F.stored files) }
    ensures run { IfOk source (λ source. IsRun W.World F.Files S.fetched (copies_of history)
        (limit_of history limits.now) base limits.now (record { files = files; source = source })
        (exit_status result)) }
    ensures refused { IsErr source → exit_status result ≡ 3 }
{
    match source {
        Ok(source) => run::<W, _, _>(rt, base, history, limits, Backing { files, source }),
        Err(fault) => report::unopened(rt, repository_name(fault)),
    }
}

/// Serves a session on a mount over these files and objects, with the history that is asked for.
fn run<W: World, F: Files<W>, S: Source<W> + Drop>(
    rt: &HostRuntime,
    base: Base,
    history: HistoryOption,
    limits: &Config,
    backing: Backing<F, S>,
) -> ExitCode
    requires files { W.honest → MayOpen base.opening W.repository W.opening W.numbers base.root
        (F.stored backing.files) }
    ensures { IsRun W.World F.Files S.fetched (copies_of history) (limit_of history limits.now) base limits.now backing
        (exit_status result) }
{
    let memory = rt.alloc();
    match history {
        HistoryOption::Kept => {
            let history = Kept::new(memory, limits.history());
            run_with::<W, _, _, _>(rt, base, history, limits, backing)
        }
        HistoryOption::Counted => {
            let history = Counted::new(memory);
            run_with::<W, _, _, _>(rt, base, history, limits, backing)
        }
    }
}

/// Serves it with that history, in which nothing is yet.
fn run_with<W: World, F: Files<W>, S: Source<W> + Drop, H: History>(
    rt: &HostRuntime,
    base: Base,
    history: H,
    limits: &Config,
    backing: Backing<F, S>,
) -> ExitCode
    requires files { W.honest → MayOpen base.opening W.repository W.opening W.numbers base.root
        (F.stored backing.files) }
    requires empty { H.entries history ≡ [] }
    ensures { IsRun W.World F.Files S.fetched H.copies (H.limit history) base limits.now backing (exit_status result) }
{
    let mut reader = rt.stdin();
    let mut writer = rt.stdout();
    let memory = rt.alloc();
    let ending = live::<W, _, _, _, _, _, _>(
        memory,
        memory,
        history,
        backing,
        base,
        limits,
        &mut reader,
        &mut writer,
    );
    report::ending(rt, ending.outcome)
}
