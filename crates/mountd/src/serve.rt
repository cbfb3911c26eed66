//! Many callers of a mount, each over a connection.
ghost use Rattle.std.specs.Prelude.{◌≡◌, ◌≤◌, ◌⊎◌, IfOk, IsErr, IsOk, [], length};
ghost use Rattle.std.specs.Process.{exit_status};
ghost use Rattle.eden_checkout.specs.Opening.{MayOpen};
ghost use Rattle.mountd.specs.Runs.{IsSharedRun, limit_of};
ghost use Rattle.mountd.specs.Serving.{IsOverlayRun, IsAskedRun, IsServeRun, ServesAt};

use crate::hold::{hold_address, hold_overlay, let_go, opening};
use crate::mount_files::MountFiles;
use crate::overlay_files::overlay_files;
use crate::report;
use crate::report::repository_name;
use crate::sources::object_sources;
use eden_git::GitFault;
use eden_history::{Counted, History, Kept};
use eden_host::{Accepts, Fetchers};
use eden_model::{Outside, World};
use eden_mount::{Config, Unloading};
use eden_overlay::{Files, MemoryFiles};
use eden_serve_life::live_shared;
use eden_sockets::{Listener, Stream};
use eden_source::Source;
use eden_stdio_life::{Backing, Base};
use mountd_options::{HistoryOption, MountOptions, ServeOptions};
use std::io::{Read, Write};
use std::marker::{Send, Sync};
use std::net::TcpStream;
use std::path::PathBuf;
use std::process::ExitCode;
use std::sync::Wait;
use std::thread::Threads;

// What a caller is connected by.
type Connection = Stream<TcpStream>;

/// Serves a session to each connection to an address, which is printed on standard output, until as many as are asked
/// for have ended. A path is held before anything is opened; if it can't be, the status is 4.
pub fn serve<R: Threads + Wait + Sync>(
    threads: &R,
    rt: &HostRuntime,
    options: ServeOptions,
) -> ExitCode
    requires fetchers { 1 ≤ options.fetchers }
    ensures { ServesAt ⟦<Outside as World>⟧ ⟦<Connection as Read>⟧ ⟦<Connection as Write>⟧
        ⟦<MountFiles as Files<Outside>>⟧ options (exit_status result) }
{
    match hold_address(rt, rt.alloc(), &options.address) {
        Err(fault) => report::unheard(rt, fault.name()),
        Ok(held) => {
            let status = serve_held(threads, rt, options);
            let_go(rt, held);
            status
        }
    }
}

/// Serves sessions at an address that nobody else has, over an overlay that nobody else has.
fn serve_held<R: Threads + Wait + Sync>(
    threads: &R,
    rt: &HostRuntime,
    mut options: ServeOptions,
) -> ExitCode
    requires fetchers { 1 ≤ options.fetchers }
    ensures { IsServeRun ⟦<Outside as World>⟧ ⟦<Connection as Read>⟧ ⟦<Connection as Write>⟧
        ⟦<MountFiles as Files<Outside>>⟧ options.mount (exit_status result) }
{
    let held = match hold_overlay(rt, rt.alloc(), options.mount.overlay.take()) {
        Err(fault) => return report::unopened(rt, fault.name()),
        Ok(held) => held,
    };
    let Some((folder, lock)) = held else {
        let files = MountFiles::Memory(MemoryFiles::new(rt.alloc()));
        return serve_files(threads, rt, options, files);
    };
    let status = serve_folder(threads, rt, options, folder);
    drop(lock);
    status
}

/// Serves sessions over the files of a directory that is held.
fn serve_folder<R: Threads + Wait + Sync>(
    threads: &R,
    rt: &HostRuntime,
    options: ServeOptions,
    folder: PathBuf,
) -> ExitCode
    requires fetchers { 1 ≤ options.fetchers }
    ensures { (exit_status result ≡ 3) ⊎ IsOverlayRun ⟦<Outside as World>⟧ ⟦<Connection as Read>⟧
        ⟦<Connection as Write>⟧ ⟦<MountFiles as Files<Outside>>⟧ options.mount (exit_status result) }
{
    let files = match overlay_files(rt, folder) {
        Err(fault) => return report::unopened(rt, fault.name()),
        Ok(files) => files,
    };
    serve_files(threads, rt, options, MountFiles::Overlay(files))
}

/// Serves sessions over these files, with the objects that are asked for. Status 3, if those are unavailable.
fn serve_files<R: Threads + Wait + Sync>(
    threads: &R,
    rt: &HostRuntime,
    options: ServeOptions,
    files: MountFiles,
) -> ExitCode
    requires fetchers { 1 ≤ options.fetchers }
    ensures { (exit_status result ≡ 3) ⊎ IsAskedRun ⟦<Outside as World>⟧ ⟦<Connection as Read>⟧
        ⟦<Connection as Write>⟧ ⟦<MountFiles as Files<Outside>>⟧ options.mount files (exit_status result) }
{
    let ServeOptions {
        mount,
        address,
        fetchers,
    } = options;
    let MountOptions {
        root,
        objects,
        rescan,
        history,
        limits,
        ..
    } = mount;
    let base = Base {
        root,
        opening: opening(rescan),
    };
    let listener = Listener::new(*rt, *rt, address);
    let sources = object_sources(rt, &objects, fetchers);
    serve_fetched::<Outside, _, _, _, _, _, _>(
        threads, rt, base, history, &limits, files, sources, listener,
    )
}

/// Serves sessions on a mount over these files, if the sources of its fetchers could be made.
fn serve_fetched<
    W: World + Send,
    F: Files<W> + Send,
    S: Source<W> + Send + Drop,
    I: Read + Send + Drop,
    O: Write + Send + Drop,
    L: Accepts<I, O> + Drop,
    R: Threads + Wait + Sync,
>(
    threads: &R,
    rt: &HostRuntime,
    base: Base,
    history: HistoryOption,
    limits: &Config,
    files: F,
    sources: Result<Vec<S>, GitFault>,
    listener: L,
) -> ExitCode
    requires files { W.honest → MayOpen base.opening W.repository W.opening W.numbers base.root (F.stored files) }
    requires some { IfOk sources (λ sources. 1 ≤ length sources.items) }
    ensures run { IsOk sources → IsSharedRun W.World F.Files I.Read O.Write (limit_of history limits.now) base
        limits.now files (exit_status result) }
    ensures refused { IsErr sources → exit_status result ≡ 3 }
{
    match sources {
        Ok(sources) => {
            let source = Fetchers::new(sources);
            let backing = Backing { files, source };
            run::<W, F, S, I, O, L, R>(threads, rt, base, history, limits, backing, listener)
        }
        Err(fault) => report::unopened(rt, repository_name(fault)),
    }
}

/// Serves sessions on a mount over these files and fetchers, with the history that is asked for.
fn run<
    W: World + Send,
    F: Files<W> + Send,
    S: Source<W> + Send + Drop,
    I: Read + Send + Drop,
    O: Write + Send + Drop,
    L: Accepts<I, O> + Drop,
    R: Threads + Wait + Sync,
>(
    threads: &R,
    rt: &HostRuntime,
    base: Base,
    history: HistoryOption,
    limits: &Config,
    backing: Backing<F, Fetchers<S>>,
    listener: L,
) -> ExitCode
    requires files { W.honest → MayOpen base.opening W.repository W.opening W.numbers base.root
        (F.stored backing.files) }
    ensures { IsSharedRun W.World F.Files I.Read O.Write (limit_of history limits.now) base limits.now backing.files
        (exit_status result) }
{
    let memory = rt.alloc();
    match history {
        HistoryOption::Kept => {
            let history = Kept::new(memory, limits.history());
            run_with::<W, F, _, S, I, O, L, R>(
                threads, rt, base, history, limits, backing, listener,
            )
        }
        HistoryOption::Counted => {
            let history = Counted::new(memory);
            run_with::<W, F, _, S, I, O, L, R>(
                threads, rt, base, history, limits, backing, listener,
            )
        }
    }
}

/// Serves them with that history, in which nothing is yet.
fn run_with<
    W: World + Send,
    F: Files<W> + Send,
    H: History + Send,
    S: Source<W> + Send + Drop,
    I: Read + Send + Drop,
    O: Write + Send + Drop,
    L: Accepts<I, O> + Drop,
    R: Threads + Wait + Sync,
>(
    threads: &R,
    rt: &HostRuntime,
    base: Base,
    history: H,
    limits: &Config,
    backing: Backing<F, Fetchers<S>>,
    listener: L,
) -> ExitCode
    requires files { W.honest → MayOpen base.opening W.repository W.opening W.numbers base.root
        (F.stored backing.files) }
    requires empty { H.entries history ≡ [] }
    ensures { IsSharedRun W.World F.Files I.Read O.Write (H.limit history) base limits.now backing.files
        (exit_status result) }
{
    let ending = live_shared::<W, F, H, S, I, O, L, R>(
        threads,
        rt.alloc(),
        backing,
        base,
        limits,
        history,
        listener,
        Unloading::usual(),
    );
    report::shared_ending(rt, ending.outcome)
}
