// Paths of messages, or the numbers of errors.
ghost use Rattle.std.specs.Prelude.{◌≡◌, IfOk};
ghost use Rattle.eden_fuse_meaning.specs.Steps.{below, child_at, path_inside};

use eden_model::{Name, Path, name_refusal};
use std::alloc::{AllocError, Global};

const ENOENT: u32 = 2;

/// What is asked of a node that lies nowhere is refused so.
pub(crate) const ESTALE: u32 = 116;

/// The path of a message's node.
pub(crate) fn path_at(
    alloc: Global,
    at: &Result<Path, u32>,
) -> Result<Result<Path, u32>, AllocError>
    ensures { IfOk result (λ r. r ≡ at.now) }
{
    match at {
        Ok(path) => Ok(Ok(path.copy(alloc)?)),
        Err(errno) => Ok(Err(*errno)),
    }
}

// The path of a name below another.
fn child_of(alloc: Global, path: &Path, name: &[u8]) -> Result<Result<Path, u32>, AllocError>
    ensures { IfOk result (λ r. r ≡ path_inside path.now name.now) }
{
    if let Some(errno) = name_refusal(name) {
        return Ok(Err(u32::from(errno.number())));
    }
    let mut names = path.copy(alloc)?.into_vec();
    match Name::new(Vec::from_slice(alloc, name)?) {
        Ok(name) => names.push(name)?,
        Err(errno) => return Ok(Err(u32::from(errno.number()))),
    }
    match Path::new(names) {
        Ok(path) => Ok(Ok(path)),
        Err(errno) => Ok(Err(u32::from(errno.number()))),
    }
}

// The number of the error with which a name is refused that is below a node without a path.
fn below(errno: u32) -> u32
    ensures { result ≡ below errno }
{
    if errno == ESTALE { ENOENT } else { errno }
}

/// The path of a name below a message's node.
pub(crate) fn child_at(
    alloc: Global,
    at: &Result<Path, u32>,
    name: &[u8],
) -> Result<Result<Path, u32>, AllocError>
    ensures { IfOk result (λ r. r ≡ child_at at.now name.now) }
{
    match at {
        Ok(path) => child_of(alloc, path, name),
        Err(errno) => Ok(Err(below(*errno))),
    }
}
