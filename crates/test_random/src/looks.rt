use crate::names::{Places, below, path_of};
use crate::unmade::Unmade;
use eden_model::{Kind, Path, Reply, Request};
use eden_oracle::WholeTree;
use std::alloc::{AllocError, Global};

fn kind_in(reply: &Option<Reply>) -> Option<Kind> {
    match reply {
        Some(Reply::Kind(kind)) => Some(*kind),
        _ => None,
    }
}

/// What stands at a path. None if nothing does that the oracle knows. The request and the reply go by a call, so that
/// what drops each variant of them is not written out here.
pub fn kind_at(alloc: Global, tree: &mut WholeTree, places: &[u8]) -> Result<Option<Kind>, Unmade> {
    let request = Request::Kind(path_of(alloc, places)?);
    let reply = tree.step(alloc, &request);
    drop(request);
    let reply = reply?;
    let kind = kind_in(&reply);
    drop(reply);
    Ok(kind)
}

/// What is asked of an entry to see all of it.
pub(crate) fn look_at(kind: Option<Kind>, at: Path) -> Request {
    match kind {
        None => Request::Kind(at),
        Some(Kind::Dir) => Request::List(at, None, 1_000),
        Some(Kind::Link) => Request::ReadLink(at),
        Some(Kind::File | Kind::Exec) => Request::Read(at, 0, 65_536),
    }
}

/// Notes the four paths that continue with one name more.
fn push_below(alloc: Global, paths: &mut Vec<Places>, places: &[u8]) -> Result<(), AllocError> {
    for place in 0..4 {
        paths.push(below(alloc, places, place)?)?;
    }
    Ok(())
}

/// Asks all of one path, and notes those below it if it is a directory's.
fn push_looks(
    alloc: Global,
    tree: &mut WholeTree,
    looks: &mut Vec<Request>,
    paths: &mut Vec<Places>,
    places: &[u8],
) -> Result<(), Unmade> {
    let kind = kind_at(alloc, tree, places)?;
    looks.push(look_at(kind, path_of(alloc, places)?))?;
    looks.push(Request::Stat(path_of(alloc, places)?))?;
    if kind == Some(Kind::Dir) {
        push_below(alloc, paths, places)?;
    }
    Ok(())
}

/// Requests whose replies say all of the oracle's tree, which stays as it is.
pub fn all_looks(alloc: Global, tree: &mut WholeTree) -> Result<Vec<Request>, Unmade> {
    let mut looks = Vec::new(alloc);
    let mut paths = Vec::new(alloc);
    paths.push(Vec::<u8>::new(alloc))?;
    for _ in 0..u64::MAX {
        let Some(places) = paths.pop() else {
            return Ok(looks);
        };
        push_looks(alloc, tree, &mut looks, &mut paths, &places)?;
    }
    Ok(looks)
}
