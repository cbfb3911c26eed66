//! Contents of files and links.
ghost use Rattle.std.specs.Prelude.{◌≡◌, ◌≤◌, ◌^◌, ◌∷◌, [], ℕ, List, length, Some, None, IfOk, IfErr, IfSome};
ghost use Rattle.std.specs.Prelude.{IfNone};
ghost use Rattle.eden_model.specs.declared.id.ObjKind.TheVariants as objects;
ghost use Rattle.eden_inode.specs.Tables.{shows};
ghost use Rattle.eden_ops.specs.Attempts.{Lacks};
ghost use Rattle.eden_cache.specs.Stock.{FindsTheSame, object_at};
ghost use Rattle.eden_ops.specs.Contents.{HasContent, IsPart, IsPartOfBlob};
ghost use Rattle.eden_ops.specs.Keeping.{Keeps};

use crate::laws::keeps_laws;
use crate::walk_end::Stop;
use eden_cache::{Stock, cache_laws};
use eden_inode::Inodes;
use eden_model::{Bytes, Id, Key, ObjKind, Origin, Path, World};
use eden_overlay::{Files, part_of};
use std::alloc::{AllocError, Allocator, Global};

/// The bytes of a cached blob from an offset on, at most this many.
fn cached_part<W: World, C: Allocator + Clone>(
    cache: &mut Stock<W, C>,
    alloc: Global,
    id: Id,
    offset: u64,
    count: u64,
) -> Result<Option<Bytes>, AllocError>
    ensures finds { FindsTheSame cache.old cache.new }
    ensures lacks { IfOk result
        (λ o. IfNone o (object_at cache.old (record { kind = objects.Blob; id = id }) ≡ None)) }
    ensures part { IfOk result (λ o. IfSome o (IsPartOfBlob W.World id offset count)) }
    ensures bounded { IfOk result (λ o. IfSome o (λ b. length b ≤ count)) }
{
    cache_laws();
    let kind = ObjKind::Blob;
    match cache.get(Key { kind, id }) {
        None => Ok(None),
        Some(object) => Ok(Some(Bytes::new(part_of(alloc, object.body(), offset, count)?))),
    }
}

/// The bytes of the file or link at a path, which comes from that origin, from an offset on, at most this many.
pub(crate) fn part<A: Allocator + Clone, W: World, F: Files<W>, C: Allocator + Clone>(
    inodes: &mut Inodes<A, W, F>,
    cache: &mut Stock<W, C>,
    alloc: Global,
    path: &Path,
    origin: Origin,
    offset: u64,
    count: u64,
) -> Result<Bytes, Stop>
    requires { HasContent path.now inodes.old.root origin }
    ensures ok { IfOk result (IsPart W.World F.Files path.now inodes.old offset count) }
    ensures bounded { IfOk result (λ b. length b ≤ count) }
    ensures lacks { IfErr result (Lacks W.World F.Files path.now inodes.old inodes.new cache.new) }
    ensures still { inodes.new.root ≡ inodes.old.root }
    ensures changes { inodes.new.changes ≡ inodes.old.changes }
    ensures same { W.honest → shows W.World F.Files inodes.new ≡ shows W.World F.Files inodes.old }
    ensures keeps { Keeps W.World F.Files (path.now ∷ []) inodes.old inodes.new }
    ensures cache { FindsTheSame cache.old cache.new }
{
    keeps_laws::<W, F>();
    inodes.holds();
    match origin {
        Origin::Empty => unreachable!(),
        Origin::Own => {
            let bytes = inodes.content_part(alloc, path.as_slice(), offset, count)?;
            Ok(Bytes::new(bytes))
        }
        Origin::Object(id) => match cached_part(cache, alloc, id, offset, count)? {
            None => {
                let kind = ObjKind::Blob;
                Err(Stop::Needs(Key { kind, id }))
            }
            Some(bytes) => Ok(bytes),
        },
    }
}
