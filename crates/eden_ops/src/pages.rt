//! Pages of loaded directories.
ghost use Rattle.std.specs.Prelude.{◌≡◌, ◌≤◌, ◌-◌, length, take, drop, filter, IfOk};
ghost use Rattle.eden_model.specs.Operations.{is_after, page_of};
ghost use Rattle.eden_ops.specs.Known.{IsKnownLoadedAt};
ghost use Rattle.eden_ops.specs.Listings.{kinds_in, IsPage};

use eden_coupling::shown_laws;
use eden_inode::Inodes;
use eden_model::{Entries, Kind, Name, Path, Reply, World};
use eden_overlay::Files;
use eden_tree::Dir;
use std::alloc::{AllocError, Allocator, Global};

/// How many entries stand before those after a name; none if it is left out.
fn first_behind<A: Allocator>(dir: &Dir<A>, after: &Option<Name>) -> u32
    ensures within { result ≤ length dir.now.rows }
    ensures greater { drop result dir.now.rows ≡ filter (λ r. is_after after.now r.0) dir.now.rows }
{
    match after {
        None => 0,
        Some(name) => dir.behind(name),
    }
}

/// The names and kinds of the entries from one position up to another.
fn kinds_between<A: Allocator>(
    alloc: Global,
    dir: &Dir<A>,
    first: u32,
    end: u32,
) -> Result<Vec<(Name, Kind)>, AllocError>
    requires rises { first ≤ end }
    requires within { end ≤ length dir.now.rows }
    ensures { IfOk result (λ v. v.items ≡ take (end - first) (drop first (kinds_in dir.now))) }
{
    let mut kinds = Vec::with_capacity(alloc, (end - first) as usize)?;
    for i in first..end {
        match dir.at(i) {
            None => unreachable!(),
            Some((name, entry)) => kinds.push((name.copy(alloc)?, entry.kind))?,
        }
    }
    Ok(kinds)
}

/// The first entries of a directory after a name, at most this many, and whether others come after them.
fn page<A: Allocator>(
    alloc: Global,
    dir: &Dir<A>,
    after: &Option<Name>,
    limit: u64,
) -> Result<Reply, AllocError>
    ensures { IfOk result (λ r. r ≡ page_of after.now limit (kinds_in dir.now)) }
{
    let first = first_behind(dir, after);
    let left = dir.count() - first;
    let count = (left as u64).min(limit) as u32;
    let kinds = kinds_between(alloc, dir, first, first + count)?;
    Ok(Reply::Entries(Entries::new(kinds), left as u64 > limit))
}

/// The first entries after a name of the directory that is loaded at a path, at most this many, and whether others come
/// after them.
pub(crate) fn page_at<A: Allocator + Clone, W: World, F: Files<W>>(
    inodes: &Inodes<A, W, F>,
    alloc: Global,
    path: &Path,
    after: &Option<Name>,
    limit: u64,
) -> Result<Reply, AllocError>
    requires { IsKnownLoadedAt path.now inodes.now.root }
    ensures { IfOk result (IsPage W.World F.Files path.now inodes.now after.now limit) }
{
    shown_laws();
    inodes.holds();
    match inodes.directory(path.as_slice()) {
        None => unreachable!(),
        Some(dir) => page(alloc, dir, after, limit),
    }
}
