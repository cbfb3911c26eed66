//! Benchmarks: `eden_bench WORKLOAD COUNT [timed]` runs a workload over this many entries and prints what came of it,
//! and with `timed` how long each part took. `make bench` runs them at full size.
#![tactic(auto)]

mod attempts;
mod bench;
mod cache;
mod changes;
mod checkout;
mod directory;
mod inodes;
mod keeps;
mod large;
mod lines;
mod name;
mod oracle;
mod overlay;
mod tree;
mod unloads;
mod waits;

use bench::Bench;
use eden_model::Outside;
use eden_overlay::Files;
use keeps::{InFolder, InMemory, Keeps};
use std::alloc::Global;
use std::path::PathBuf;
use std::process::ExitCode;
use std::rt::Env;
use std::{env, io};

const USAGE: &str =
    "usage: eden_bench attempts|cache|changes|directory|inodes|large|lines|overlay|stores|tree|unloads|waits COUNT \
     [timed], or eden_bench attempts|changes|large|stores|unloads COUNT timed FOLDER, or eden_bench oracle";

/// Runs a workload over the files that are kept there. None if the name is of no such workload.
fn run_over<F: Files<Outside>, K: Keeps<F>>(
    bench: Bench,
    keeps: &K,
    name: &str,
    count: u32,
) -> Option<io::Result<()>> {
    match name {
        "attempts" => Some(attempts::run(bench, keeps, count)),
        "changes" => Some(changes::run(bench, keeps, count)),
        "large" => Some(large::run(bench, keeps, count)),
        "stores" => Some(unloads::run_stores(bench, keeps, count)),
        "unloads" => Some(unloads::run(bench, keeps, count)),
        _ => None,
    }
}

/// Runs a workload in memory. None if the name is of none.
fn run(bench: Bench, name: &str, count: u32) -> Option<io::Result<()>> {
    match name {
        "cache" => Some(cache::run(bench, count)),
        "directory" => Some(directory::run(bench, count)),
        "inodes" => Some(inodes::run(bench, count)),
        "lines" => Some(lines::run(bench, count)),
        "overlay" => Some(overlay::run(bench, count)),
        "tree" => Some(tree::run(bench, count)),
        "waits" => Some(waits::run(bench, count)),
        _ => run_over(bench, &InMemory, name, count),
    }
}

/// Runs a workload over files in a directory. None if the name is of no such workload.
fn run_on(bench: Bench, name: &str, count: u32, folder: &str) -> Option<io::Result<()>> {
    let folder = PathBuf::from(String::from_str(bench.alloc(), folder).ok()?);
    let keeps = InFolder {
        rt: bench.rt,
        folder: &folder,
    };
    run_over(bench, &keeps, name, count)
}

/// Runs the workload that the words name. None if they name none.
fn run_words(rt: &HostRuntime, words: &[String]) -> Option<io::Result<()>> {
    let name = words.get(1)?.as_str();
    let count = words.get(2)?.as_str().parse::<u32>().ok()?;
    let is_timed = words.get(3).is_some_and(|word| word.as_str() == "timed");
    let bench = Bench { rt, is_timed };
    match words {
        [_, _, _] => run(bench, name, count),
        [_, _, _, _] if is_timed => run(bench, name, count),
        [_, _, _, _, folder] if is_timed => run_on(bench, name, count, folder.as_str()),
        _ => None,
    }
}

fn words(rt: &(impl Env + Alloc<A = Global>)) -> io::Result<Vec<String>> {
    let words: Vec<String> = env::args(rt)?.collect(rt.alloc())?;
    Ok(words)
}

/// Answers the requests of standard input on the slow oracle.
fn answer(rt: &HostRuntime) -> io::Result<ExitCode> {
    let mut reader = rt.stdin();
    let mut writer = rt.stdout();
    match oracle::run(rt.alloc(), &mut reader, &mut writer) {
        Ok(()) => Ok(ExitCode::SUCCESS),
        Err(fault) => {
            eprintln!(rt; "eden_bench: session {}", fault.name())?;
            Ok(ExitCode::from(4))
        }
    }
}

fn main(rt: HostRuntime) -> io::Result<ExitCode> {
    let words = words(&rt)?;
    if let [_, name] = words.as_slice()
        && name.as_str() == "oracle"
    {
        return answer(&rt);
    }
    match run_words(&rt, words.as_slice()) {
        Some(Ok(())) => Ok(ExitCode::SUCCESS),
        Some(Err(fault)) => Err(fault),
        None => {
            eprintln!(rt; "{USAGE}")?;
            Ok(ExitCode::from(2))
        }
    }
}
