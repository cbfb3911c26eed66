//! The looks, by their request.
ghost use Rattle.std.specs.Prelude.{◌≡◌};
ghost use Rattle.eden_model.specs.Requests.{paths_of};
ghost use Rattle.eden_ops.specs.Attempts.{Attempts};
ghost use Rattle.eden_ops.specs.Keeping.{Keeps};
ghost use Rattle.eden_ops.specs.Looks.{IsLook, IsBeyondLimits};
ghost use Rattle.eden_ops.specs.Renumbering.{TellsItsNumber};
ghost use Rattle.eden_ops.specs.Stamps.{AreWalked};
ghost use Rattle.eden_ops.specs.Trails.{Counts, LeadsToNeed, first_of};
ghost use Rattle.eden_inode.specs.Tables.{shows_numbers};
ghost use Rattle.eden_inode.specs.Trails.{Leads};

use crate::requests::kind::kind;
use crate::requests::list::list;
use crate::requests::read::read;
use crate::requests::readlink::readlink;
use crate::requests::stat::stat;
use eden_cache::Stock;
use eden_inode::{Inodes, Trail};
use eden_model::{Attempt, Request, World};
use eden_overlay::Files;
use std::alloc::{Allocator, Global};

/// One attempt of a request that changes nothing: a `kind`, `stat`, `read`, `readlink` or `list`.
pub fn look<A: Allocator + Clone, W: World, F: Files<W>, C: Allocator + Clone>(
    inodes: &mut Inodes<A, W, F>,
    cache: &mut Stock<W, C>,
    alloc: Global,
    request: &Request,
    trail: &mut Trail,
) -> Attempt
    requires look { IsLook request.now }
    requires leads { Leads (first_of (paths_of request.now)) trail.old.positions inodes.old.root }
    ensures attempts { Attempts W.World F.Files request.now inodes.old inodes.new cache.old cache.new result }
    ensures keeps { Keeps W.World F.Files (paths_of request.now) inodes.old inodes.new }
    ensures refused { IsBeyondLimits request.now → inodes.new ≡ inodes.old }
    ensures walked { ¬ IsBeyondLimits request.now
        → AreWalked (paths_of request.now) inodes.new.clock inodes.new.root }
    ensures tells { TellsItsNumber request.now result (shows_numbers F.Files inodes.new) }
    ensures counts { Counts (first_of (paths_of request.now)) trail.old trail.new }
    ensures leads { LeadsToNeed (first_of (paths_of request.now)) trail.new.positions inodes.new.root result }
{
    match request {
        Request::Kind(path) => kind(inodes, cache, alloc, path, trail),
        Request::Stat(path) => stat(inodes, cache, alloc, path, trail),
        Request::Read(path, offset, count) => read(
            inodes, cache, alloc, path, *offset, *count, trail,
        ),
        Request::ReadLink(path) => readlink(inodes, cache, alloc, path, trail),
        Request::List(path, after, limit) => list(inodes, cache, alloc, path, after, *limit, trail),
        Request::Write(..)
        | Request::Patch(..)
        | Request::Truncate(..)
        | Request::Create(_)
        | Request::SetExec(..)
        | Request::Mkdir(_)
        | Request::Symlink(..)
        | Request::Unlink(_)
        | Request::Rmdir(_)
        | Request::Rename(..) => unreachable!(),
    }
}
