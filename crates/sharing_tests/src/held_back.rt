//! A fetch that ends only once another client's request was answered. It would never end if the mount's lock is held
//! while a source is asked, nor if one fetcher does all fetches.

ghost use Rattle.std.specs.Prelude.{◌≡◌, length};
ghost use Rattle.eden_shared.specs.Lanes.{names_of};
ghost use Rattle.eden_shared.specs.Opening.{AreTied};
ghost use Rattle.eden_shared.specs.Passes.{AreNewcomers};

use crate::late::end_late;
use crate::mounts::{Held, Objects, Size, open, serve};
use eden_host::Accepts;
use eden_model::{Cause, Id, Outside};
use eden_mount::Unloading;
use eden_shared::{Naming, Pass, Ties};
use eden_source::Source;
use std::alloc::Global;
use std::io::{self, Write};
use std::marker::Brand;
use std::process::Abort;
use std::sync::atomic::{AtomicBool, Ordering};
use std::sync::{Mutex, Wait};
use std::thread::{self, Threads, yield_now};
use test_random::Commit;
use test_samples::NEW_FILE;

/// A pass and a fetcher for each of two clients.
const TWO: Size = Size {
    passes: 2,
    flights: 2,
    history: 2,
    objects: 3,
};

/// How often the source looks whether the other client was answered: for seconds.
const TRIES: u32 = 1_000_000;

/// A client of one line: what it heard, and whether that is a whole reply.
#[derive(Drop)]
struct Client {
    line: &'static [u8],
    heard: Mutex<Vec<u8>>,
    is_told: AtomicBool,
}

impl Client {
    fn new(alloc: Global, line: &'static [u8]) -> Client {
        Client {
            line,
            heard: Mutex::new(Vec::new(alloc)),
            is_told: AtomicBool::new(false),
        }
    }

    /// Whether it is told in time.
    fn is_told_in_time(&self) -> bool {
        for _ in 0..TRIES {
            if self.is_told.load(Ordering::SeqCst) {
                return true;
            }
            yield_now();
        }
        false
    }
}

/// Where a client is answered.
#[derive(Drop)]
struct Hearing<'a, R: Wait> {
    rt: &'a R,
    client: &'a Client,
}

impl<R: Wait> Write for Hearing<'_, R> {
    fn write(&mut self, buf: &[u8]) -> io::Result<usize> {
        let mut heard = self.client.heard.lock(self.rt);
        heard.extend_from_slice(buf)?;
        if buf.ends_with(b"\n") {
            self.client.is_told.store(true, Ordering::SeqCst);
        }
        Ok(buf.len())
    }

    fn flush(&mut self) -> io::Result<()> {
        Ok(())
    }
}

/// Clients that connect one after another.
#[derive(Drop)]
struct Arrivals<'a, R: Wait> {
    rt: &'a R,
    left: &'a [Client],
}

impl<'a, R: Wait> Accepts<&'static [u8], Hearing<'a, R>> for Arrivals<'a, R> {
    fn accept(&mut self) -> Option<(&'static [u8], Hearing<'a, R>)> {
        let (client, left) = self.left.split_first()?;
        self.left = left;
        let hearing = Hearing {
            rt: self.rt,
            client,
        };
        Some((client.line, hearing))
    }

    /// What the client hears then shows it: nothing.
    fn close_unserved(&mut self) {}
}

/// A commit's objects. The blob of `new.txt` comes only once the other client was answered, and is missing else.
#[derive(Drop)]
struct HeldBack<'a> {
    objects: Objects<'a>,
    other: &'a Client,
}

impl<'a> Source<Outside> for HeldBack<'a> {
    ghost fetched = { λ _ _ _ _. Unit {0} };

    ghost failures = { λ _. 0 };

    fn failures(&self) -> u64 {
        0
    }

    fn fetch(&mut self, alloc: Global, id: Id) -> Result<Vec<u8>, Cause> {
        if id == NEW_FILE.id && !self.other.is_told_in_time() {
            return Err(Cause::Missing);
        }
        self.objects.fetch(alloc, id)
    }
}

/// Serves the two clients with two fetchers. How many requests they had.
fn serve_both<'a, J: Naming + Send + Sync, R: Threads + Wait + Abort + Sync>(
    rt: &'a R,
    alloc: Global,
    shared: Held<J>,
    passes: Vec<Pass<J>>,
    commit: &'a Commit,
    clients: &'a [Client; 2],
) -> usize
    requires { AreNewcomers passes.items (length J.names) }
{
    let mut sources = Vec::new(alloc);
    for _ in 0..TWO.flights {
        let objects = Objects { commit };
        let other = &clients[1];
        sources
            .push(HeldBack { objects, other })
            .expect(rt, "memory");
    }
    let left = clients.as_slice();
    let mount = serve(
        rt,
        alloc,
        Arrivals { rt, left },
        shared,
        passes,
        sources,
        Unloading::usual(),
    );
    mount.history().len()
}

fn has_heard(rt: &impl Wait, client: &Client, text: &[u8]) -> bool {
    client.heard.lock(rt).as_slice() == text
}

/// Two clients read a file each, and the first one's comes after the second one's reply.
fn race<J: Naming + Send + Sync, R: Threads + Wait + Abort + Sync>(
    rt: &R,
    alloc: Global,
    commit: &Commit,
    ties: Ties,
)
    requires ties { AreTied ties.lanes.items ties.ends.items 2 }
    requires names { names_of ties.lanes.items ≡ J.names }
{
    let (shared, passes) = open::<J>(rt, alloc, commit.root(), TWO, ties);
    let clients = [
        Client::new(alloc, b"read /new.txt 0 100\n"),
        Client::new(alloc, b"read /test.txt 0 100\n"),
    ];
    assert!(rt; serve_both(rt, alloc, shared, passes, commit, &clients) == 2);
    let [first, second] = &clients;
    assert!(rt; has_heard(rt, first, b"data 9 6e65772066696c650a\n"));
    assert!(rt; has_heard(rt, second, b"data 10 76657273696f6e20320a\n"));
}

#[test]
fn a_fetch_holds_up_no_other_client(rt: HostRuntime) {
    let late = thread::spawn(&rt, move || end_late(&rt));
    drop(late);
    let alloc = rt.alloc();
    let commit = Commit::two_files(alloc).expect(&rt, "a commit");
    for _round in 0..20u32 {
        let ties = Ties::new(alloc, 2).ok().expect(&rt, "memory");
        race::<Brand, HostRuntime>(&rt, alloc, &commit, ties);
    }
}
