//! A folder that several threads serve, over one shared mount.
ghost use Rattle.std.specs.Prelude.{◌≡◌, ◌≤◌, IfOk, IsErr, IsOk, [], length};
ghost use Rattle.std.specs.Process.{exit_status};
ghost use Rattle.eden_checkout.specs.Opening.{MayOpen};
ghost use Rattle.mountd.specs.Runs.{IsSharedFolderRun, limit_of};

use crate::hold::opening;
use crate::kernel::{KernelInput, KernelLines, KernelOutput};
use crate::mount_files::MountFiles;
use crate::report;
use crate::report::repository_name;
use crate::sources::object_sources;
use eden_fuse_host::Lines;
use eden_fuse_life::Look;
use eden_fuse_session::{Receiver, Sender};
use eden_fuse_shared_life::live_shared_folder;
use eden_git::GitFault;
use eden_history::{Counted, History, Kept};
use eden_model::{Outside, World};
use eden_mount::Config;
use eden_overlay::Files;
use eden_source::Source;
use eden_stdio_life::{Backing, Base};
use mountd_options::{HistoryOption, MountOptions};
use std::marker::{Send, Sync};
use std::process::ExitCode;
use std::sync::Wait;
use std::thread::Threads;

/// Shows a mount over these files by several threads, with the objects that are asked for.
pub fn share_files<R: Threads + Wait + Sync>(
    threads: &R,
    rt: &HostRuntime,
    options: MountOptions,
    look: Look,
    files: MountFiles,
) -> ExitCode {
    let MountOptions {
        root,
        objects,
        rescan,
        history,
        limits,
        ..
    } = options;
    let lines = KernelLines::new(rt.stdin(), rt.stdout());
    // One for each thread, and another for turns.
    let count = limits.passes();
    let base = Base {
        root,
        opening: opening(rescan),
    };
    let sources = object_sources(rt, &objects, count);
    share_fetched::<Outside, _, _, _, _, _, _>(
        threads, rt, base, history, &limits, look, files, sources, &lines,
    )
}

/// Shows a mount over these files, if the sources of its threads could be made.
fn share_fetched<
    W: World + Send,
    F: Files<W> + Send,
    S: Source<W> + Send + Drop,
    V: Receiver + Send + Drop,
    O: Sender + Send + Drop,
    G: Lines<V, O> + Sync,
    R: Threads + Wait + Sync,
>(
    threads: &R,
    rt: &HostRuntime,
    base: Base,
    history: HistoryOption,
    limits: &Config,
    look: Look,
    files: F,
    sources: Result<Vec<S>, GitFault>,
    lines: &G,
) -> ExitCode
    requires files { W.honest → MayOpen base.opening W.repository W.opening W.numbers base.root (F.stored files) }
    requires sources { IfOk sources (λ sources. limits.now.passes ≤ length sources.items) }
    ensures run { IsOk sources → IsSharedFolderRun W.World F.Files V.Receiver O.Sender (G.comes lines.now)
        (limit_of history limits.now) base limits.now files look.manner (exit_status result) }
    ensures refused { IsErr sources → exit_status result ≡ 3 }
{
    match sources {
        Ok(source) => {
            let backing = Backing { files, source };
            run::<W, F, S, V, O, G, R>(threads, rt, base, history, limits, look, backing, lines)
        }
        Err(fault) => report::unopened(rt, repository_name(fault)),
    }
}

/// Shows a mount over these files and sources, with the history that is asked for.
fn run<
    W: World + Send,
    F: Files<W> + Send,
    S: Source<W> + Send + Drop,
    V: Receiver + Send + Drop,
    O: Sender + Send + Drop,
    G: Lines<V, O> + Sync,
    R: Threads + Wait + Sync,
>(
    threads: &R,
    rt: &HostRuntime,
    base: Base,
    history: HistoryOption,
    limits: &Config,
    look: Look,
    backing: Backing<F, Vec<S>>,
    lines: &G,
) -> ExitCode
    requires files { W.honest → MayOpen base.opening W.repository W.opening W.numbers base.root
        (F.stored backing.files) }
    requires sources { limits.now.passes ≤ length backing.source.items }
    ensures { IsSharedFolderRun W.World F.Files V.Receiver O.Sender (G.comes lines.now) (limit_of history limits.now)
        base limits.now backing.files look.manner (exit_status result) }
{
    let memory = rt.alloc();
    match history {
        HistoryOption::Kept => {
            let history = Kept::new(memory, limits.history());
            run_with::<W, F, _, S, V, O, G, R>(
                threads, rt, base, history, limits, look, backing, lines,
            )
        }
        HistoryOption::Counted => {
            let history = Counted::new(memory);
            run_with::<W, F, _, S, V, O, G, R>(
                threads, rt, base, history, limits, look, backing, lines,
            )
        }
    }
}

/// Shows it with that history, in which nothing is yet.
fn run_with<
    W: World + Send,
    F: Files<W> + Send,
    H: History + Send,
    S: Source<W> + Send + Drop,
    V: Receiver + Send + Drop,
    O: Sender + Send + Drop,
    G: Lines<V, O> + Sync,
    R: Threads + Wait + Sync,
>(
    threads: &R,
    rt: &HostRuntime,
    base: Base,
    history: H,
    limits: &Config,
    look: Look,
    backing: Backing<F, Vec<S>>,
    lines: &G,
) -> ExitCode
    requires files { W.honest → MayOpen base.opening W.repository W.opening W.numbers base.root
        (F.stored backing.files) }
    requires empty { H.entries history ≡ [] }
    requires sources { limits.now.passes ≤ length backing.source.items }
    ensures { IsSharedFolderRun W.World F.Files V.Receiver O.Sender (G.comes lines.now) (H.limit history) base
        limits.now backing.files look.manner (exit_status result) }
{
    let ending = live_shared_folder::<W, F, H, S, V, O, G, HostRuntime, R>(
        threads,
        rt.alloc(),
        backing,
        base,
        limits,
        history,
        look,
        *rt,
        lines,
    );
    report::folder_ending(rt, ending.outcome, ending.unstored)
}
