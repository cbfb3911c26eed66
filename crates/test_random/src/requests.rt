use crate::looks::{kind_at, look_at};
use crate::names::{Places, bytes, name, name_at, path_of, some_place};
use crate::unmade::Unmade;
use eden_model::{Bytes, Kind, Name, Path, Request, SharedBytes};
use eden_oracle::WholeTree;
use std::alloc::{AllocError, Global};
use test_samples::random;

/// The deepest paths of requests have this many names.
const DEEPEST: u32 = 4;

/// The most bytes of a write.
const MOST: u32 = 12;

fn is_dir(alloc: Global, tree: &mut WholeTree, places: &[u8]) -> Result<bool, Unmade> {
    Ok(matches!(kind_at(alloc, tree, places)?, Some(Kind::Dir)))
}

/// Whether a path gets one more name.
fn goes_on(is_dir: bool, seed: &mut u64) -> bool {
    random(seed) % 6 != 0 && (is_dir || random(seed) % 12 == 0)
}

/// A path that continues below directories, and now and then below what is none.
fn some_places(alloc: Global, tree: &mut WholeTree, seed: &mut u64) -> Result<Places, Unmade> {
    let mut places = Vec::new(alloc);
    for _ in 0..DEEPEST {
        if !goes_on(is_dir(alloc, tree, &places)?, seed) {
            break;
        }
        places.push(some_place(random(seed)))?;
    }
    Ok(places)
}

/// A random path, and what stands there.
#[derive(Drop)]
struct Spot {
    at: Path,
    kind: Option<Kind>,
}

fn some_spot(alloc: Global, tree: &mut WholeTree, seed: &mut u64) -> Result<Spot, Unmade> {
    let places = some_places(alloc, tree, seed)?;
    Ok(Spot {
        kind: kind_at(alloc, tree, &places)?,
        at: path_of(alloc, &places)?,
    })
}

fn some_bytes(alloc: Global, seed: &mut u64) -> Result<Bytes, AllocError> {
    let word = random(seed);
    let text = b"abcdefghijkl";
    bytes(alloc, &text[..(word % MOST) as usize])
}

fn shared(alloc: Global, bytes: Bytes) -> Result<SharedBytes, AllocError> {
    SharedBytes::new(alloc, bytes.into_vec())
}

fn after(alloc: Global, word: u32) -> Result<Option<Name>, Unmade> {
    if word % 2 == 0 {
        return Ok(None);
    }
    Ok(Some(name(alloc, name_at(some_place(word / 2)))?))
}

fn look(alloc: Global, at: Path, seed: &mut u64) -> Result<Request, Unmade> {
    let word = random(seed);
    let (few, more) = (u64::from(word % 16), u64::from(word / 16 % 16));
    Ok(match random(seed) % 5 {
        0 => Request::Kind(at),
        1 => Request::Stat(at),
        2 => Request::Read(at, few, more),
        3 => Request::ReadLink(at),
        _ => Request::List(at, after(alloc, word)?, more % 5),
    })
}

/// A change of a file.
fn edit(alloc: Global, at: Path, seed: &mut u64) -> Result<Request, Unmade> {
    let word = random(seed);
    let few = u64::from(word % 16);
    Ok(match random(seed) % 6 {
        0..=1 => Request::Write(at, few, some_bytes(alloc, seed)?),
        2 => Request::Patch(at, few, shared(alloc, some_bytes(alloc, seed)?)?),
        3..=4 => Request::Truncate(at, few),
        _ => Request::SetExec(at, word % 2 == 0),
    })
}

/// An entry comes.
fn add(alloc: Global, at: Path, seed: &mut u64) -> Result<Request, Unmade> {
    Ok(match random(seed) % 8 {
        0..=2 => Request::Create(at),
        3 => Request::Symlink(at, some_bytes(alloc, seed)?),
        _ => Request::Mkdir(at),
    })
}

fn rename(alloc: Global, at: Path, to: &[u8]) -> Result<Request, Unmade> {
    Ok(Request::Rename(at, path_of(alloc, to)?))
}

/// Any request.
fn any(alloc: Global, at: Path, to: &[u8], seed: &mut u64) -> Result<Request, Unmade> {
    match random(seed) % 12 {
        0..=3 => look(alloc, at, seed),
        4 => Ok(Request::Unlink(at)),
        5 => Ok(Request::Rmdir(at)),
        6..=7 => rename(alloc, at, to),
        8 => add(alloc, at, seed),
        _ => edit(alloc, at, seed),
    }
}

/// A request that fits what stands at its path, most often.
fn fitting(
    alloc: Global,
    kind: Option<Kind>,
    at: Path,
    to: &[u8],
    seed: &mut u64,
) -> Result<Request, Unmade> {
    let word = random(seed);
    match (word % 8, kind) {
        (0..=2, _) => any(alloc, at, to, seed),
        (_, None) => add(alloc, at, seed),
        (3..=4, Some(_)) => rename(alloc, at, to),
        (5, Some(Kind::Dir)) => Ok(Request::Rmdir(at)),
        (_, Some(Kind::Dir)) => Ok(Request::List(at, after(alloc, word / 8)?, 3)),
        (5, Some(Kind::Link)) => Ok(Request::Unlink(at)),
        (_, Some(Kind::Link)) => Ok(Request::ReadLink(at)),
        (5, Some(_)) if word % 16 == 5 => Ok(Request::Unlink(at)),
        _ => edit(alloc, at, seed),
    }
}

/// A random request, most often of what stands there. The oracle's tree says what stands where, and stays as it is.
pub fn request(alloc: Global, tree: &mut WholeTree, seed: &mut u64) -> Result<Request, Unmade> {
    let spot = some_spot(alloc, tree, seed)?;
    let to = some_places(alloc, tree, seed)?;
    fitting(alloc, spot.kind, spot.at, &to, seed)
}

/// A random look at all that stands at its path.
pub fn some_look(alloc: Global, tree: &mut WholeTree, seed: &mut u64) -> Result<Request, Unmade> {
    let spot = some_spot(alloc, tree, seed)?;
    Ok(look_at(spot.kind, spot.at))
}
