//! Entries that are renamed.
ghost use Rattle.std.specs.Prelude.{◌⊎◌, ◌≡◌, ◌≤◌, ◌+◌, ◌*◌, ◌∷◌, [], length, true, false, IfSome, OnOk, OnErr};
ghost use Rattle.eden_model.specs.declared.errno.Errno as errno;
ghost use Rattle.eden_model.specs.declared.reply.Reply.TheVariants as say;
ghost use Rattle.eden_model.specs.declared.request.Request.TheVariants as ask;
ghost use Rattle.eden_model.specs.Operations.{is_front};
ghost use Rattle.eden_inode.specs.Tables.{shows};
ghost use Rattle.eden_inode.specs.Trails.{Leads};
ghost use Rattle.eden_cache.specs.Stock.{FindsTheSame};
ghost use Rattle.eden_ops.specs.Attempts.{Attempts, Meets, MeetsShown};
ghost use Rattle.eden_ops.specs.Keeping.{Keeps};
ghost use Rattle.eden_ops.specs.Renumbering.{EditsNumbers};
ghost use Rattle.eden_ops.specs.Stamps.{IsWalked};
ghost use Rattle.eden_ops.specs.Trails.{LeadsToNeed, walked_of};
ghost use Rattle.eden_ops.specs.Leaving.{LeavesAfter, StampsItsWalk};
ghost use Rattle.eden_ops.specs.Renames.{IsTold, IsByPaths};

use crate::ended::ended;
use crate::entry_kind::what;
use crate::land::land;
use crate::meet::meet;
use crate::place::Place;
use crate::relocate::relocate;
use crate::walk_end::Stop;
use eden_cache::Stock;
use eden_inode::{Inodes, Seen, Trail};
use eden_model::{Attempt, Errno, Kind, Name, Path, Reply, World};
use eden_overlay::Files;
use std::alloc::{Allocator, Global};

/// Whether the path begins with the front.
fn is_front(front: &[Name], path: &[Name]) -> bool
    ensures { result ≡ is_front front.now path.now }
{
    match front.split_first() {
        None => return true,
        Some((name, rest)) => match path.split_first() {
            None => return false,
            Some((other, beyond)) => {
                if *name == *other {
                    return is_front(rest, beyond);
                }
                return false;
            }
        },
    }
}

/// Whether the entry is a directory.
fn is_dir(seen: Seen) -> bool
    ensures { IsTold seen result }
{
    match what(seen) {
        Kind::Dir => true,
        Kind::File | Kind::Exec | Kind::Link => false,
    }
}

/// The reply that the two paths alone decide, for a directory, or else a file or a link, at the first.
fn by_paths(from: &Path, to: &Path, dir: bool) -> Option<Reply>
    ensures told { IsByPaths from.now to.now dir result }
    ensures one { IfSome result (λ reply. reply ≡ say.Ok → from.now ≡ to.now) }
    ensures plain { IfSome result (λ reply. (reply ≡ say.Ok) ⊎ ((e : errno.Errno) × (reply ≡ say.Err e))) }
{
    if from.as_slice() == to.as_slice() {
        return Some(Reply::Ok);
    }
    if dir && is_front(from.as_slice(), to.as_slice()) {
        return Some(Reply::Err(Errno::EINVAL));
    }
    if is_front(to.as_slice(), from.as_slice()) {
        return Some(Reply::Err(Errno::ENOTEMPTY));
    }
    None
}

/// What `meet` answers of the first of a request's two paths. If the walk is on the second already, it goes along the
/// first by names, and keeps the positions of the second; it is on the second once the first is walked.
fn meet_first<A: Allocator + Clone, W: World, F: Files<W>, C: Allocator + Clone>(
    inodes: &mut Inodes<A, W, F>,
    cache: &mut Stock<W, C>,
    alloc: Global,
    path: &Path,
    other: &Path,
    walk: &mut Place,
) -> Result<Option<Seen>, Stop>
    requires leads { Leads (walked_of walk.old.second (path.now ∷ other.now ∷ [])) walk.old.trail.positions
        inodes.old.root }
    ensures meets { Meets W.World F.Files path.now inodes.old inodes.new cache.new result }
    ensures shown { W.honest → MeetsShown W.World F.Files path.now inodes.old inodes.new result }
    ensures same { W.honest → shows W.World F.Files inodes.new ≡ shows W.World F.Files inodes.old }
    ensures keeps { Keeps W.World F.Files (path.now ∷ []) inodes.old inodes.new }
    ensures cache { FindsTheSame cache.old cache.new }
    ensures walked { IsWalked path.now inodes.new.clock inodes.new.root }
    ensures first { OnErr result (walk.new.second ≡ false) }
    ensures second { OnOk result (walk.new.second ≡ true) }
    ensures leads { Leads (walked_of walk.new.second (path.now ∷ other.now ∷ [])) walk.new.trail.positions
        inodes.new.root }
    ensures counts { walk.new.trail.compared ≤ walk.old.trail.compared + 32 * length path.now }
{
    if walk.second {
        let mut first = Trail::new();
        let met = meet(inodes, cache, alloc, path, &mut first);
        walk.trail.add(&first);
        if met.is_err() {
            walk.trail.clear();
            walk.second = false;
        }
        return met;
    }
    let met = meet(inodes, cache, alloc, path, &mut walk.trail);
    if met.is_ok() {
        walk.trail.clear();
        walk.second = true;
    }
    met
}

/// Moves an entry, with all that stands below it, to another path, where it replaces a file or a link, or as a
/// directory one without entries. Both paths the same change nothing.
///
/// Errors, in the order of the checks: `EBUSY` from or to the root; those of the walk to the entry, and `ENOENT`;
/// `EINVAL` for a directory to below itself; `ENOTEMPTY` to above itself; those of the walk to the other path; and
/// there `ENOTDIR` for a directory over what is none, `EISDIR` for a file or a link over a directory, and `ENOTEMPTY`
/// over one with entries. After a fault the directory above the entry may be left unsaved.
pub fn rename<A: Allocator + Clone, W: World, F: Files<W>, C: Allocator + Clone>(
    inodes: &mut Inodes<A, W, F>,
    cache: &mut Stock<W, C>,
    alloc: Global,
    from: &Path,
    to: &Path,
    walk: &mut Place,
) -> Attempt
    requires leads { Leads (walked_of walk.old.second (from.now ∷ to.now ∷ [])) walk.old.trail.positions
        inodes.old.root }
    ensures attempts { Attempts W.World F.Files
        (ask.Rename from.now to.now) inodes.old inodes.new cache.old cache.new result }
    ensures leaves { LeavesAfter W.World F.Files (ask.Rename from.now to.now) inodes.old inodes.new result }
    ensures edits { EditsNumbers W.World F.Files (ask.Rename from.now to.now) inodes.old inodes.new result }
    ensures stamps { StampsItsWalk (ask.Rename from.now to.now)
        inodes.old.clock inodes.old.root inodes.new.root result }
    ensures counts { walk.new.trail.compared
        ≤ walk.old.trail.compared + 32 * (length from.now + length to.now) }
    ensures leads { LeadsToNeed (walked_of walk.new.second (from.now ∷ to.now ∷ [])) walk.new.trail.positions
        inodes.new.root result }
{
    if from.is_root() || to.is_root() {
        return Attempt::Finished(Reply::Err(Errno::EBUSY));
    }
    let seen = match meet_first(inodes, cache, alloc, from, to, walk) {
        Err(stop) => return ended(stop),
        Ok(None) => return Attempt::Finished(Reply::Err(Errno::ENOENT)),
        Ok(Some(seen)) => seen,
    };
    let dir = is_dir(seen);
    match by_paths(from, to, dir) {
        Some(reply) => return Attempt::Finished(reply),
        None => {}
    }
    match land(inodes, cache, alloc, to, dir, &mut walk.trail) {
        Err(stop) => return ended(stop),
        Ok(()) => {}
    }
    match relocate(inodes, alloc, from, to) {
        Ok(()) => Attempt::Finished(Reply::Ok),
        Err(fault) => Attempt::Finished(Reply::Fault(fault)),
    }
}
