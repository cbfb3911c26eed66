// A checkout of a commit whose objects are at hand, and requests on its files.
use crate::name::name;
use crate::tree::{Order, framed_tree};
use eden_cache::ObjectCache;
use eden_checkout::Checkout;
use eden_model::{Attempt, Bytes, Id, Key, Name, ObjKind, Outside, Path, Reply, Request};
use eden_mount::Attempts;
use eden_object::{Object, id_of};
use eden_overlay::Files;
use std::alloc::{AllocError, Global};

/// How many bytes the objects that are at hand have at most.
const CACHE_BYTES: u64 = 1 << 30;

/// The name of the commit's one directory.
const DIRECTORY: &[u8] = b"d";

pub type Tree<F> = Checkout<Global, Outside, F>;

/// Where a file stands.
#[derive(Clone, Copy)]
pub enum Place {
    Root,
    /// In the commit's directory.
    Directory,
}

/// What is asked of a file: an offset stands before a length.
#[derive(Clone, Copy)]
pub enum Use {
    Create,
    Unlink,
    Truncate(u64),
    Read(u64, u64),
    Write(u64, usize),
}

/// The tree whose one entry is that directory.
fn framed_root(alloc: Global, directory: Id) -> Result<Vec<u8>, AllocError> {
    let mut framed = Vec::from_slice(alloc, b"tree 28\x0040000 d\0".as_slice())?;
    framed.extend_from_slice(directory.bytes.as_slice())?;
    Ok(framed)
}

/// Puts a tree in. False if it is none, or if memory is refused.
fn bring<F: Files<Outside>>(alloc: Global, tree: &mut Tree<F>, framed: Vec<u8>) -> bool {
    let key = Key {
        kind: ObjKind::Tree,
        id: id_of(framed.as_slice()),
    };
    match Object::checked(alloc, key, framed) {
        Err(_) => false,
        Ok(object) => tree.put(key, object).is_ok(),
    }
}

/// A checkout over these files of the commit with that root. None if it isn't opened.
fn open<F: Files<Outside>>(alloc: Global, files: F, root: Id) -> Option<Tree<F>> {
    let cache = ObjectCache::new(alloc, 8, CACHE_BYTES, 8).ok()?;
    Checkout::open(alloc, alloc, files, root, cache).ok()
}

/// The trees of a commit: the root, and its one directory.
#[derive(Drop)]
struct Commit {
    root: Vec<u8>,
    directory: Vec<u8>,
}

/// A commit whose directory has this many files.
fn new_commit(alloc: Global, count: u32) -> Result<Commit, AllocError> {
    let directory = framed_tree(alloc, Order::Git, count)?;
    let root = framed_root(alloc, id_of(directory.as_slice()))?;
    Ok(Commit { root, directory })
}

/// Puts both trees in. False if memory is refused.
fn bring_both<F: Files<Outside>>(alloc: Global, tree: &mut Tree<F>, commit: Commit) -> bool {
    bring(alloc, tree, commit.directory) && bring(alloc, tree, commit.root)
}

/// A checkout over these files of that commit. None if it isn't opened.
fn open_commit<F: Files<Outside>>(alloc: Global, files: F, commit: Commit) -> Option<Tree<F>> {
    let mut tree = open(alloc, files, id_of(commit.root.as_slice()))?;
    if bring_both(alloc, &mut tree, commit) {
        Some(tree)
    } else {
        None
    }
}

/// A checkout over these files of a commit whose directory has this many files. None if it isn't opened.
pub fn opened<F: Files<Outside>>(
    alloc: Global,
    files: F,
    count: u32,
) -> Result<Option<Tree<F>>, AllocError> {
    let commit = new_commit(alloc, count)?;
    Ok(open_commit(alloc, files, commit))
}

/// The directory's name. None for the root.
fn directory(alloc: Global, place: Place) -> Result<Option<Name>, AllocError> {
    match place {
        Place::Root => Ok(None),
        Place::Directory => Ok(Name::new(Vec::from_slice(alloc, DIRECTORY)?).ok()),
    }
}

/// The names on the way to a place and, if there is a number, to the file of that number.
fn names_to(alloc: Global, place: Place, number: Option<u64>) -> Result<Vec<Name>, AllocError> {
    let mut names = Vec::new(alloc);
    if let Some(directory) = directory(alloc, place)? {
        names.push(directory)?;
    }
    if let Some(number) = number
        && let Some(name) = name(alloc, number)?
    {
        names.push(name)?;
    }
    Ok(names)
}

/// The path to a place and, if there is a number, to the file of that number. None if it is none.
pub fn path_to(
    alloc: Global,
    place: Place,
    number: Option<u64>,
) -> Result<Option<Path>, AllocError> {
    Ok(Path::new(names_to(alloc, place, number)?).ok())
}

/// The request on the file at a path.
fn request_at(alloc: Global, path: Path, what: Use) -> Result<Request, AllocError> {
    Ok(match what {
        Use::Create => Request::Create(path),
        Use::Unlink => Request::Unlink(path),
        Use::Truncate(size) => Request::Truncate(path, size),
        Use::Read(offset, length) => Request::Read(path, offset, length),
        Use::Write(offset, length) => {
            let bytes = Bytes::new(Vec::from_elem(alloc, 0x2a, length)?);
            Request::Write(path, offset, bytes)
        }
    })
}

/// The request on the file of that number. None if its path is none.
pub fn request(
    alloc: Global,
    place: Place,
    number: u64,
    what: Use,
) -> Result<Option<Request>, AllocError> {
    match path_to(alloc, place, Some(number))? {
        None => Ok(None),
        Some(path) => Ok(Some(request_at(alloc, path, what)?)),
    }
}

/// Whether an attempt ended with a reply that is no error and no fault.
fn is_answer(attempt: &Attempt) -> bool {
    match attempt {
        Attempt::Need(_) => false,
        Attempt::Finished(reply) => !matches!(reply, Reply::Err(_) | Reply::Fault(_)),
    }
}

/// Whether an attempt ends with a reply that is no error and no fault.
fn is_done<F: Files<Outside>>(alloc: Global, tree: &mut Tree<F>, request: &Request) -> bool {
    let attempt = tree.attempt(alloc, request, &mut None);
    is_answer(&attempt)
}

/// Makes a request: whether it is done.
pub fn does<F: Files<Outside>>(alloc: Global, tree: &mut Tree<F>, request: Request) -> bool {
    let is_done = is_done(alloc, tree, &request);
    drop(request);
    is_done
}

/// Whether the root's file of that number is so used.
pub fn is_used<F: Files<Outside>>(
    alloc: Global,
    tree: &mut Tree<F>,
    number: u64,
    what: Use,
) -> Result<bool, AllocError> {
    match request(alloc, Place::Root, number, what)? {
        None => Ok(false),
        Some(request) => Ok(does(alloc, tree, request)),
    }
}

/// Adds the request on the file of that number, if it has a path.
pub fn add_request(
    alloc: Global,
    requests: &mut Vec<Request>,
    place: Place,
    number: u64,
    what: Use,
) -> Result<(), AllocError> {
    match request(alloc, place, number, what)? {
        None => Ok(()),
        Some(request) => Ok(requests.push(request)?),
    }
}

/// Makes the requests in turn, and answers how many were done.
pub fn do_all<F: Files<Outside>>(alloc: Global, tree: &mut Tree<F>, requests: &[Request]) -> u32 {
    let mut done = 0u32;
    for request in requests {
        done = done.saturating_add(u32::from(is_done(alloc, tree, request)));
    }
    done
}
