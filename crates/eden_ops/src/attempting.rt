//! One attempt of any request.
ghost use Rattle.std.specs.Prelude.{◌≡◌, ◌≤◌, ◌+◌, ◌-◌, ◌*◌, ◌∷◌, [], length};
ghost use Rattle.eden_model.specs.declared.attempt.Attempt.TheVariants.{Finished};
ghost use Rattle.eden_model.specs.declared.reply.Reply as reply;
ghost use Rattle.eden_model.specs.Trees.{Path};
ghost use Rattle.eden_model.specs.Requests.{paths_of};
ghost use Rattle.eden_ops.specs.Already.{IsSoAlready};
ghost use Rattle.eden_ops.specs.Attempts.{Attempts};
ghost use Rattle.eden_ops.specs.Keeping.{Keeps};
ghost use Rattle.eden_ops.specs.Leaving.{LeavesAfter, StampsItsWalk};
ghost use Rattle.eden_ops.specs.Looks.{IsLook, IsChange, IsBeyondLimits, MovesNoName};
ghost use Rattle.eden_ops.specs.Renumbering.{EditsNumbers, TellsItsNumber, Renumbered};
ghost use Rattle.eden_ops.specs.Stamps.{AreWalked};
ghost use Rattle.eden_ops.specs.Trails.{Counts, IsBare, LeadsFor, LeadsToNeed};
ghost use Rattle.eden_ops.specs.Trails.{components, first_of, remembered, walked_of};
ghost use Rattle.eden_inode.specs.Tables.{shows_numbers};
ghost use Rattle.eden_inode.specs.Trails.{Leads};

use crate::laws::keeps_laws;
use crate::looks::look;
use crate::place::{Place, recall};
use crate::requests::create::create;
use crate::requests::mkdir::mkdir;
use crate::requests::patch::patch;
use crate::requests::rename::rename;
use crate::requests::rmdir::rmdir;
use crate::requests::set_exec::set_exec;
use crate::requests::symlink::symlink;
use crate::requests::truncate::truncate;
use crate::requests::unlink::unlink;
use crate::requests::write::write;
use eden_cache::Stock;
use eden_inode::{Inodes, Trail};
use eden_model::{Attempt, Request, World, backing_laws};
use eden_overlay::Files;
use std::alloc::{Allocator, Global};

/// One attempt of a change at one path: a `write`, `patch`, `truncate`, `create`, `setexec`, `mkdir`, `symlink`,
/// `unlink` or `rmdir`.
pub fn change<A: Allocator + Clone, W: World, F: Files<W>, C: Allocator + Clone>(
    inodes: &mut Inodes<A, W, F>,
    cache: &mut Stock<W, C>,
    alloc: Global,
    request: &Request,
    trail: &mut Trail,
) -> Attempt
    requires change { IsChange request.now }
    requires leads { Leads (first_of (paths_of request.now)) trail.old.positions inodes.old.root }
    ensures attempts { Attempts W.World F.Files request.now inodes.old inodes.new cache.old cache.new result }
    ensures leaves { LeavesAfter W.World F.Files request.now inodes.old inodes.new result }
    ensures stamps { StampsItsWalk request.now inodes.old.clock inodes.old.root inodes.new.root result }
    ensures edits { EditsNumbers W.World F.Files request.now inodes.old inodes.new result }
    ensures already { IsSoAlready W.World F.Files request.now inodes.old
        → Keeps W.World F.Files (paths_of request.now) inodes.old inodes.new }
    ensures refused { IsBeyondLimits request.now → inodes.new ≡ inodes.old }
    ensures in_place { MovesNoName request.now → inodes.new.changes ≡ inodes.old.changes }
    ensures counts { Counts (first_of (paths_of request.now)) trail.old trail.new }
    ensures leads { LeadsToNeed (first_of (paths_of request.now)) trail.new.positions inodes.new.root result }
{
    match request {
        Request::Write(path, offset, data) => {
            write(inodes, cache, alloc, path, *offset, data.as_slice(), trail)
        }
        Request::Patch(path, offset, data) => {
            patch(inodes, cache, alloc, path, *offset, data.as_slice(), trail)
        }
        Request::Truncate(path, size) => truncate(inodes, cache, alloc, path, *size, trail),
        Request::Create(path) => create(inodes, cache, alloc, path, trail),
        Request::SetExec(path, exec) => set_exec(inodes, cache, alloc, path, *exec, trail),
        Request::Mkdir(path) => mkdir(inodes, cache, alloc, path, trail),
        Request::Symlink(path, target) => symlink(
            inodes,
            cache,
            alloc,
            path,
            target.as_slice(),
            trail,
        ),
        Request::Unlink(path) => unlink(inodes, cache, alloc, path, trail),
        Request::Rmdir(path) => rmdir(inodes, cache, alloc, path, trail),
        Request::Kind(_)
        | Request::Stat(_)
        | Request::Read(..)
        | Request::ReadLink(_)
        | Request::List(..)
        | Request::Rename(..) => unreachable!(),
    }
}

/// One attempt of a request: it is answered as the table of operations answers it on what is shown, or ends in a fault,
/// or needs an object that the cache lacks. Nothing is fetched. If it asks for what is so already nothing is stored.
/// One that moves no name, as a `write`, leaves the count of changes.
pub fn attempt<A: Allocator + Clone, W: World, F: Files<W>, C: Allocator + Clone>(
    inodes: &mut Inodes<A, W, F>,
    cache: &mut Stock<W, C>,
    alloc: Global,
    request: &Request,
) -> Attempt
    ensures attempts { Attempts W.World F.Files request.now inodes.old inodes.new cache.old cache.new result }
    ensures leaves { LeavesAfter W.World F.Files request.now inodes.old inodes.new result }
    ensures stamps { ¬ IsLook request.now
        → StampsItsWalk request.now inodes.old.clock inodes.old.root inodes.new.root result }
    ensures renumbers { W.honest → Renumbered W.World F.Files request.now inodes.old inodes.new result }
    ensures already { IsSoAlready W.World F.Files request.now inodes.old
        → Keeps W.World F.Files (paths_of request.now) inodes.old inodes.new }
    ensures refused { IsBeyondLimits request.now → inodes.new ≡ inodes.old }
    ensures in_place { MovesNoName request.now → inodes.new.changes ≡ inodes.old.changes }
    ensures walked { IsLook request.now → ¬ IsBeyondLimits request.now
        → AreWalked (paths_of request.now) inodes.new.clock inodes.new.root }
    ensures looks { IsLook request.now → Keeps W.World F.Files (paths_of request.now) inodes.old inodes.new }
{
    attempt_from(inodes, cache, alloc, request, &mut Place::new(), &mut 0)
}

/// `attempt`, from the place where an earlier one waited, if no name has changed since; any other place is passed over.
/// Where this one waits is left there; if it ends nothing is, and of a place without positions no more than their
/// number is read or written. To `compared` it adds how many names it compared on its paths: at most 32 for each
/// component of the path that the place doesn't lead to.
pub fn attempt_from<A: Allocator + Clone, W: World, F: Files<W>, C: Allocator + Clone>(
    inodes: &mut Inodes<A, W, F>,
    cache: &mut Stock<W, C>,
    alloc: Global,
    request: &Request,
    place: &mut Place,
    compared: &mut u32,
) -> Attempt
    requires leads { LeadsFor request.now inodes.old.changes inodes.old.root place.old }
    ensures attempts { Attempts W.World F.Files request.now inodes.old inodes.new cache.old cache.new result }
    ensures leaves { LeavesAfter W.World F.Files request.now inodes.old inodes.new result }
    ensures stamps { ¬ IsLook request.now
        → StampsItsWalk request.now inodes.old.clock inodes.old.root inodes.new.root result }
    ensures renumbers { W.honest → Renumbered W.World F.Files request.now inodes.old inodes.new result }
    ensures already { IsSoAlready W.World F.Files request.now inodes.old
        → Keeps W.World F.Files (paths_of request.now) inodes.old inodes.new }
    ensures refused { IsBeyondLimits request.now → inodes.new ≡ inodes.old }
    ensures in_place { MovesNoName request.now → inodes.new.changes ≡ inodes.old.changes }
    ensures walked { IsLook request.now → ¬ IsBeyondLimits request.now
        → AreWalked (paths_of request.now) inodes.new.clock inodes.new.root }
    ensures looks { IsLook request.now → Keeps W.World F.Files (paths_of request.now) inodes.old inodes.new }
    ensures waits { place.new.changes ≡ inodes.new.changes }
    ensures leads { LeadsFor request.now inodes.new.changes inodes.new.root place.new }
    ensures ends { (r : reply.Reply) → result ≡ Finished r → IsBare place.new }
    ensures counts { compared.new ≤ compared.old + 32 * components (paths_of request.now) }
    ensures resumes { (p : Path) → paths_of request.now ≡ p ∷ []
        → compared.new ≤ compared.old + 32 * (length p - length (remembered inodes.old.changes place.old)) }
{
    keeps_laws::<W, F>();
    backing_laws();
    inodes.holds();
    recall(place, inodes.changes());
    let attempt = attempt_along(inodes, cache, alloc, request, place);
    inodes.holds();
    *compared = compared.saturating_add(place.trail.compared());
    place.changes = inodes.changes();
    if let Attempt::Finished(_) = &attempt {
        place.forget();
    }
    attempt
}

/// One attempt of a request, along the walk.
fn attempt_along<A: Allocator + Clone, W: World, F: Files<W>, C: Allocator + Clone>(
    inodes: &mut Inodes<A, W, F>,
    cache: &mut Stock<W, C>,
    alloc: Global,
    request: &Request,
    walk: &mut Place,
) -> Attempt
    requires leads { Leads (walked_of walk.old.second (paths_of request.now)) walk.old.trail.positions
        inodes.old.root }
    ensures attempts { Attempts W.World F.Files request.now inodes.old inodes.new cache.old cache.new result }
    ensures leaves { LeavesAfter W.World F.Files request.now inodes.old inodes.new result }
    ensures stamps { ¬ IsLook request.now
        → StampsItsWalk request.now inodes.old.clock inodes.old.root inodes.new.root result }
    ensures edits { ¬ IsLook request.now
        → EditsNumbers W.World F.Files request.now inodes.old inodes.new result }
    ensures tells { TellsItsNumber request.now result (shows_numbers F.Files inodes.new) }
    ensures already { IsSoAlready W.World F.Files request.now inodes.old
        → Keeps W.World F.Files (paths_of request.now) inodes.old inodes.new }
    ensures refused { IsBeyondLimits request.now → inodes.new ≡ inodes.old }
    ensures in_place { MovesNoName request.now → inodes.new.changes ≡ inodes.old.changes }
    ensures walked { IsLook request.now → ¬ IsBeyondLimits request.now
        → AreWalked (paths_of request.now) inodes.new.clock inodes.new.root }
    ensures looks { IsLook request.now → Keeps W.World F.Files (paths_of request.now) inodes.old inodes.new }
    ensures leads { LeadsToNeed (walked_of walk.new.second (paths_of request.now)) walk.new.trail.positions
        inodes.new.root result }
    ensures counts { walk.new.trail.compared ≤ walk.old.trail.compared + 32 * components (paths_of request.now) }
    ensures resumes { (p : Path) → paths_of request.now ≡ p ∷ []
        → Counts p walk.old.trail walk.new.trail }
{
    keeps_laws::<W, F>();
    match request {
        Request::Kind(_)
        | Request::Stat(_)
        | Request::Read(..)
        | Request::ReadLink(_)
        | Request::List(..) => {
            walk.second = false;
            look(inodes, cache, alloc, request, &mut walk.trail)
        }
        Request::Rename(from, to) => rename(inodes, cache, alloc, from, to, walk),
        Request::Write(..)
        | Request::Patch(..)
        | Request::Truncate(..)
        | Request::Create(_)
        | Request::SetExec(..)
        | Request::Mkdir(_)
        | Request::Symlink(..)
        | Request::Unlink(_)
        | Request::Rmdir(_) => {
            walk.second = false;
            change(inodes, cache, alloc, request, &mut walk.trail)
        }
    }
}
