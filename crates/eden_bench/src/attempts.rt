// Attempts of requests on a warm checkout: each kind of request again and again, nothing fetched.
use crate::bench::Bench;
use crate::checkout::{
    Place, Tree, Use, add_request, do_all, does, is_used, opened, path_to, request,
};
use crate::keeps::Keeps;
use crate::name::{deep, name};
use eden_model::{Outside, Request};
use eden_overlay::Files;
use std::alloc::{AllocError, Global};
use std::io;
use std::slice::from_ref;

/// How deep the directories stand, one inside the other.
const DEEPEST: u32 = 64;

/// The depths of those that are looked at, and what is printed of each.
const DEPTHS: &[(u32, &str)] = &[
    (1, "kind at depth 1"),
    (8, "kind at depth 8"),
    (64, "kind at depth 64"),
];

/// The sizes in bytes of the files that are read and written; each file's number is its size.
const SIZES: &[u64] = &[4_096, 1 << 20];

/// What is asked of the files again and again, and what is printed of it.
const USES: &[(u64, Use, &str)] = &[
    (4_096, Use::Read(0, 4_096), "read of 4096 bytes of 4096"),
    (4_096, Use::Read(0, 65_536), "read of 65536 bytes of 4096"),
    (4_096, Use::Write(0, 4_096), "write of 4096 bytes into 4096"),
    (
        1 << 20,
        Use::Read(0, 4_096),
        "read of 4096 bytes of 1048576",
    ),
    (
        1 << 20,
        Use::Read(0, 65_536),
        "read of 65536 bytes of 1048576",
    ),
    (
        1 << 20,
        Use::Write(0, 4_096),
        "write of 4096 bytes into 1048576",
    ),
];

/// How often a look in memory is repeated, and how often a request on contents.
const LOOKS: u32 = 100_000;

const ROUNDS: u32 = 1_000;

/// Makes the requests in turn, this many times, and answers how many were done.
fn repeat<F: Files<Outside>>(
    alloc: Global,
    tree: &mut Tree<F>,
    requests: &[Request],
    rounds: u32,
) -> u32 {
    let mut done = 0u32;
    for _ in 0..rounds {
        done = done.saturating_add(do_all(alloc, tree, requests));
    }
    done
}

/// Makes the requests in turn, this many times, and prints how many were done, and how long each took. They were made
/// once before, so that what they look at is loaded.
fn measure<F: Files<Outside>>(
    bench: Bench,
    tree: &mut Tree<F>,
    what: &str,
    requests: &[Request],
    rounds: u32,
) -> io::Result<()> {
    repeat(bench.alloc(), tree, requests, 1);
    let start = bench.start();
    let done = repeat(bench.alloc(), tree, requests, rounds);
    println!(bench.rt; "  {what}: {done}")?;
    bench.time_each(what, start, done)
}

/// Makes the request this many times, and prints that.
fn measure_one<F: Files<Outside>>(
    bench: Bench,
    tree: &mut Tree<F>,
    what: &str,
    request: Request,
    rounds: u32,
) -> io::Result<()> {
    let told = measure(bench, tree, what, from_ref(&request), rounds);
    drop(request);
    told
}

/// Makes directories, one inside the other.
fn make_chain<F: Files<Outside>>(alloc: Global, tree: &mut Tree<F>) -> Result<(), AllocError> {
    for depth in 1..=DEEPEST {
        if let Some(path) = deep(alloc, depth)? {
            does(alloc, tree, Request::Mkdir(path));
        }
    }
    Ok(())
}

/// The kinds of directories that stand so deep.
fn measure_kinds<F: Files<Outside>>(bench: Bench, tree: &mut Tree<F>) -> io::Result<()> {
    for (depth, what) in DEPTHS {
        if let Some(path) = deep(bench.alloc(), *depth)? {
            measure_one(bench, tree, what, Request::Kind(path), LOOKS)?;
        }
    }
    Ok(())
}

/// Makes a file of that size, of zeros.
fn make_file<F: Files<Outside>>(
    alloc: Global,
    tree: &mut Tree<F>,
    size: u64,
) -> Result<(), AllocError> {
    is_used(alloc, tree, size, Use::Create)?;
    is_used(alloc, tree, size, Use::Truncate(size))?;
    Ok(())
}

/// Reads of the files, and writes, after each of which the whole file is stored.
fn measure_uses<F: Files<Outside>>(bench: Bench, tree: &mut Tree<F>) -> io::Result<()> {
    for (number, used, what) in USES {
        if let Some(request) = request(bench.alloc(), Place::Root, *number, *used)? {
            measure_one(bench, tree, what, request, ROUNDS)?;
        }
    }
    Ok(())
}

/// The request for a page of the commit's directory, from its middle on. None if its path is none.
fn page(alloc: Global, count: u32) -> Result<Option<Request>, AllocError> {
    match path_to(alloc, Place::Directory, None)? {
        None => Ok(None),
        Some(path) => {
            let after = name(alloc, u64::from(count / 2))?;
            Ok(Some(Request::List(path, after, 100)))
        }
    }
}

/// A page of the commit's directory.
fn measure_pages<F: Files<Outside>>(
    bench: Bench,
    tree: &mut Tree<F>,
    count: u32,
) -> io::Result<()> {
    match page(bench.alloc(), count)? {
        None => Ok(()),
        Some(request) => measure_one(bench, tree, "list of 100", request, ROUNDS),
    }
}

/// A file that is made in the commit's directory, and removed.
fn coming_and_going(alloc: Global, number: u64) -> Result<Vec<Request>, AllocError> {
    let mut requests = Vec::new(alloc);
    for used in &[Use::Create, Use::Unlink] {
        add_request(alloc, &mut requests, Place::Directory, number, *used)?;
    }
    Ok(requests)
}

/// Makes a file in the commit's directory and removes it, again and again.
fn measure_coming<F: Files<Outside>>(
    bench: Bench,
    tree: &mut Tree<F>,
    count: u32,
) -> io::Result<()> {
    let requests = coming_and_going(bench.alloc(), u64::from(count).saturating_add(1))?;
    measure(
        bench,
        tree,
        "create and unlink",
        requests.as_slice(),
        ROUNDS,
    )
}

/// Directories, one inside the other, that are looked at.
fn measure_chain<F: Files<Outside>>(bench: Bench, tree: &mut Tree<F>) -> io::Result<()> {
    make_chain(bench.alloc(), tree)?;
    measure_kinds(bench, tree)
}

/// Files of each size, that are read and written.
fn measure_files<F: Files<Outside>>(bench: Bench, tree: &mut Tree<F>) -> io::Result<()> {
    for size in SIZES {
        make_file(bench.alloc(), tree, *size)?;
    }
    measure_uses(bench, tree)
}

/// Attempts over files, on a commit with a directory of this many files.
fn run_on<F: Files<Outside>>(bench: Bench, tree: &mut Tree<F>, count: u32) -> io::Result<()> {
    println!(bench.rt; "attempts, a directory of {count} files among them")?;
    measure_chain(bench, tree)?;
    measure_files(bench, tree)?;
    measure_pages(bench, tree, count)?;
    measure_coming(bench, tree, count)
}

/// Attempts over the files that are kept there.
pub fn run<F: Files<Outside>, K: Keeps<F>>(bench: Bench, keeps: &K, count: u32) -> io::Result<()> {
    let files = keeps.files(bench.alloc())?;
    match opened(bench.alloc(), files, count)? {
        None => println!(bench.rt; "not opened"),
        Some(mut tree) => {
            let told = run_on(bench, &mut tree, count);
            drop(tree);
            told
        }
    }
}
