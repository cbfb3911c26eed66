//! The program `mountd`: answers requests on the files of a Git commit, and keeps what they change.
#![tactic(auto)]

mod changes;
mod dematerialise;
mod folder;
mod hold;
mod kernel;
mod lines;
mod look;
mod mount_files;
mod overlay_files;
mod path_text;
mod repair;
mod report;
mod serve;
mod server;
mod shared_folder;
mod sink;
mod snapshot;
mod sources;
mod stdio;
mod tidy;
mod version;

use changes::changes;
use dematerialise::dematerialise;
use eden_object_writer::{ImportFault, Progress, Store};
use folder::folder;
use mountd_options::{Command, ImportOptions, options};
use repair::repair;
use serve::serve;
use server::serve_objects;
use snapshot::snapshot;
use std::alloc::Global;
use std::io::IsTerminal;
use std::path::PathBuf;
use std::process::ExitCode;
use std::rt::Env;
use std::{env, io};
use stdio::stdio;
use tidy::tidy;
use version::version;

/// The program's name and the words after it.
fn words(rt: &(impl Env + Alloc<A = Global>)) -> io::Result<Vec<String>> {
    let words: Vec<String> = env::args(rt)?.collect(rt.alloc())?;
    Ok(words)
}

/// Imports a directory, and prints the id of its tree.
fn import(rt: &HostRuntime, options: ImportOptions) -> Result<(), ImportFault> {
    let progress = if rt.stderr().is_terminal() {
        Progress::Told
    } else {
        Progress::Quiet
    };
    let memory = rt.alloc();
    let from = PathBuf::from(options.from);
    let mut store = Store::new(*rt, PathBuf::from(options.objects), progress);
    let root = eden_object_writer::import(memory, &from, &mut store)?;
    let digits = hex::encode(memory, root.bytes)?;
    println!(rt; "{digits}")?;
    Ok(())
}

fn main(rt: HostRuntime) -> ExitCode {
    let words = match words(&rt) {
        Ok(words) => words,
        Err(error) => return report::arguments(&rt, &error),
    };
    match options(rt.alloc(), words.as_slice()) {
        Ok(Command::Stdio(options)) => stdio(&rt, options),
        // Outside `main`, only a type parameter may have threads and wait: so the runtime is passed for it, too.
        Ok(Command::Serve(options)) => serve(&rt, &rt, options),
        Ok(Command::Fuse(options)) => folder(&rt, &rt, options),
        Ok(Command::Objects(options)) => report::server(&rt, serve_objects(&rt, &rt, options)),
        Ok(Command::Import(options)) => report::import(&rt, import(&rt, options)),
        Ok(Command::Tidy(options)) => tidy(&rt, options),
        Ok(Command::Repair(options)) => repair(&rt, options),
        Ok(Command::Snapshot(options)) => snapshot(&rt, options),
        Ok(Command::Changes(options)) => changes(&rt, options),
        Ok(Command::Dematerialise(options)) => dematerialise(&rt, options),
        Ok(Command::Version) => report::told(&rt, "version", version(&rt)),
        Err(error) => report::command_line(&rt, &error),
    }
}
