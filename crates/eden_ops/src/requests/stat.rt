//! What stands at a path, how long it is, and its number.
ghost use Rattle.std.specs.Prelude.{◌≡◌, ℕ, List, length, Some, None, Err, IfOk, IfErr, OnErr, MatchOption, ◌∷◌, []};
ghost use Rattle.eden_model.specs.declared.id.Key as key;
ghost use Rattle.eden_model.specs.declared.id.ObjKind.TheVariants as objects;
ghost use Rattle.eden_model.specs.declared.attempt.Attempt.TheVariants.{Finished};
ghost use Rattle.eden_model.specs.declared.kind.Kind as kind;
ghost use Rattle.eden_model.specs.declared.reply.Reply.TheVariants as say;
ghost use Rattle.eden_model.specs.declared.request.Request.TheVariants as ask;
ghost use Rattle.eden_inode.specs.Tables.{shows, shows_numbers};
ghost use Rattle.eden_ops.specs.declared.walk_end.Stop.TheVariants as stops;
ghost use Rattle.eden_ops.specs.Attempts.{Attempts, Lacks};
ghost use Rattle.eden_cache.specs.Stock.{FindsTheSame, IsSize, object_at, size_at};
ghost use Rattle.eden_ops.specs.Contents.{HasContent, HasLength};
ghost use Rattle.eden_ops.specs.Keeping.{Keeps};
ghost use Rattle.eden_ops.specs.Stamps.{IsWalked};
ghost use Rattle.eden_ops.specs.Trails.{Counts, LeadsToNeed};
ghost use Rattle.eden_inode.specs.Trails.{Leads};

use crate::ended::ended;
use crate::entry_kind::what;
use crate::laws::keeps_laws;
use crate::meet::meet;
use crate::walk_end::Stop;
use eden_cache::{Stock, cache_laws};
use eden_inode::{Inodes, Trail};
use eden_model::{Attempt, Errno, Id, Key, Kind, ObjKind, Origin, Path, Reply, World};
use eden_overlay::Files;
use std::alloc::{Allocator, Global};

/// The length of a cached blob.
fn blob_size<W: World, C: Allocator + Clone>(cache: &mut Stock<W, C>, id: Id) -> Option<u64>
    ensures finds { FindsTheSame cache.old cache.new }
    ensures size { MatchOption result (object_at cache.old (record { kind = objects.Blob; id = id }) ≡ None)
        (λ n. W.honest → IsSize W.repository id n) }
{
    cache_laws();
    let kind = ObjKind::Blob;
    match cache.get(Key { kind, id }) {
        None => None,
        Some(object) => Some(object.len() as u64),
    }
}

/// The length of a blob that is kept.
fn kept_size<W: World, C: Allocator + Clone>(cache: &mut Stock<W, C>, id: Id) -> Option<u64>
    ensures finds { FindsTheSame cache.old cache.new }
    ensures size { MatchOption result (size_at cache.old id ≡ None) (λ n. W.honest → IsSize W.repository id n) }
{
    cache_laws();
    cache.size_of(id)
}

/// The length of a blob, kept or cached. The only stop is the want of it.
fn object_size<W: World, C: Allocator + Clone>(cache: &mut Stock<W, C>, id: Id) -> Result<u64, Stop>
    ensures finds { FindsTheSame cache.old cache.new }
    ensures ok { W.honest → IfOk result (IsSize W.repository id) }
    ensures err { IfErr result (λ z. z ≡ stops.Needs (record { kind = objects.Blob; id = id })) }
    ensures lacks { OnErr result (object_at cache.new (record { kind = objects.Blob; id = id }) ≡ None) }
    ensures unkept { OnErr result (size_at cache.new id ≡ None) }
{
    if let Some(size) = kept_size(cache, id) {
        return Ok(size);
    }
    match blob_size(cache, id) {
        Some(size) => Ok(size),
        None => {
            let kind = ObjKind::Blob;
            Err(Stop::Needs(Key { kind, id }))
        }
    }
}

/// The length of the content of the file or link at a path, which comes from that origin. No body of an own file is
/// read.
fn size<A: Allocator + Clone, W: World, F: Files<W>, C: Allocator + Clone>(
    inodes: &mut Inodes<A, W, F>,
    cache: &mut Stock<W, C>,
    path: &Path,
    origin: Origin,
) -> Result<u64, Stop>
    requires content { HasContent path.now inodes.old.root origin }
    ensures ok { IfOk result (HasLength W.World F.Files path.now inodes.old) }
    ensures lacks { IfErr result (Lacks W.World F.Files path.now inodes.old inodes.new cache.new) }
    ensures unkept { (k : key.Key) → result ≡ Err (stops.Needs k) → size_at cache.new k.id ≡ None }
    ensures still { inodes.new.root ≡ inodes.old.root }
    ensures same { W.honest → shows W.World F.Files inodes.new ≡ shows W.World F.Files inodes.old }
    ensures keeps { Keeps W.World F.Files (path.now ∷ []) inodes.old inodes.new }
    ensures cache { FindsTheSame cache.old cache.new }
{
    keeps_laws::<W, F>();
    inodes.holds();
    match origin {
        Origin::Empty => unreachable!(),
        Origin::Own => Ok(inodes.content_len(path.as_slice())?),
        Origin::Object(id) => object_size(cache, id),
    }
}

/// What stands at the path, the length of its content, 0 for a directory, and its inode number.
pub fn stat<A: Allocator + Clone, W: World, F: Files<W>, C: Allocator + Clone>(
    inodes: &mut Inodes<A, W, F>,
    cache: &mut Stock<W, C>,
    alloc: Global,
    path: &Path,
    trail: &mut Trail,
) -> Attempt
    requires leads { Leads path.now trail.old.positions inodes.old.root }
    ensures attempts { Attempts W.World F.Files (ask.Stat path.now) inodes.old inodes.new cache.old cache.new result }
    ensures keeps { Keeps W.World F.Files (path.now ∷ []) inodes.old inodes.new }
    ensures walked { IsWalked path.now inodes.new.clock inodes.new.root }
    ensures tells { (k : kind.Kind) → (size : ℕ) → (number : ℕ) → result ≡ Finished (say.Stat k size number)
        → shows_numbers F.Files inodes.new path.now ≡ Some number }
    ensures counts { Counts path.now trail.old trail.new }
    ensures leads { LeadsToNeed path.now trail.new.positions inodes.new.root result }
{
    let seen = match meet(inodes, cache, alloc, path, trail) {
        Err(stop) => return ended(stop),
        Ok(None) => return Attempt::Finished(Reply::Err(Errno::ENOENT)),
        Ok(Some(seen)) => seen,
    };
    let kind = what(seen);
    match kind {
        Kind::Dir => return Attempt::Finished(Reply::Stat(Kind::Dir, 0, seen.number)),
        Kind::File | Kind::Exec | Kind::Link => {}
    }
    match size(inodes, cache, path, seen.origin) {
        Err(stop) => ended(stop),
        Ok(length) => Attempt::Finished(Reply::Stat(kind, length, seen.number)),
    }
}
