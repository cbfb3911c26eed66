//! One directory, loaded.
ghost use Rattle.std.specs.Prelude.{◌≡◌, None, IfOk, IfErr, OnOk, OnErr, MatchOption, ◌∷◌, []};
ghost use Rattle.eden_model.specs.declared.id.ObjKind.TheVariants as objects;
ghost use Rattle.eden_model.specs.declared.kind.Origin.TheVariants as origins;
ghost use Rattle.eden_object.specs.Trees.{NamesDiffer};
ghost use Rattle.eden_coupling.specs.Loading.{IsAt};
ghost use Rattle.eden_inode.specs.Saved.{LacksNumbers};
ghost use Rattle.eden_inode.specs.Tables.{HasTree, HasNoTree};
ghost use Rattle.eden_ops.specs.Attempts.{Lacks};
ghost use Rattle.eden_ops.specs.Faults.{IsCaused};
ghost use Rattle.eden_cache.specs.Stock.{FindsTheSame, object_at};
ghost use Rattle.eden_ops.specs.Keeping.{Keeps};
ghost use Rattle.eden_ops.specs.Known.{IsKnownLoadedAt};

use crate::walk_end::Stop;
use eden_cache::{Stock, cache_laws};
use eden_inode::Inodes;
use eden_model::{Fault, Id, Key, Name, ObjKind, Origin, TreeEntry, World};
use eden_overlay::Files;
use std::alloc::{AllocError, Allocator, Global};

/// The entries of a tree object, if it is cached.
fn cached_tree<W: World, C: Allocator + Clone>(
    cache: &mut Stock<W, C>,
    alloc: Global,
    id: Id,
) -> Result<Option<Vec<TreeEntry>>, AllocError>
    ensures finds { FindsTheSame cache.old cache.new }
    ensures entries { IfOk result
        (λ o. MatchOption o (object_at cache.old (record { kind = objects.Tree; id = id }) ≡ None)
        (λ es. NamesDiffer es.items × (W.honest → W.repository.tree id ≡ Some es.items))) }
{
    cache_laws();
    let kind = ObjKind::Tree;
    match cache.get(Key { kind, id }) {
        None => Ok(None),
        Some(object) => Ok(Some(object.entries(alloc)?)),
    }
}

/// Loads the directory at a path without a tree object: from its stored file, with the numbers saved for it, or as an
/// empty one.
fn bring_stored<A: Allocator + Clone, W: World, F: Files<W>>(
    inodes: &mut Inodes<A, W, F>,
    alloc: Global,
    path: &[Name],
) -> Result<(), Fault>
    requires none { HasNoTree W.honest (F.stored inodes.old.files) path.now inodes.old.root }
    ensures ok { OnOk result (IsKnownLoadedAt path.now inodes.new.root) }
    ensures err { OnErr result (inodes.new.root ≡ inodes.old.root) }
    ensures caused { IfErr result (IsCaused W.World F.Files path.now inodes.old inodes.new) }
    ensures keeps { Keeps W.World F.Files (path.now ∷ []) inodes.old inodes.new }
{
    inodes.holds();
    inodes.load(alloc, path, None)
}

/// Loads the directory at a path from the entries of its tree object.
fn bring_object<A: Allocator + Clone, W: World, F: Files<W>>(
    inodes: &mut Inodes<A, W, F>,
    alloc: Global,
    path: &[Name],
    entries: &[TreeEntry],
) -> Result<(), Fault>
    requires tree { HasTree W.repository W.honest (F.stored inodes.old.files) path.now inodes.old.root entries.now }
    ensures ok { OnOk result (IsKnownLoadedAt path.now inodes.new.root) }
    ensures err { OnErr result (inodes.new.root ≡ inodes.old.root) }
    ensures caused { IfErr result (IsCaused W.World F.Files path.now inodes.old inodes.new) }
    ensures keeps { Keeps W.World F.Files (path.now ∷ []) inodes.old inodes.new }
{
    inodes.load(alloc, path, Some(entries))
}

/// Loads the directory at a path from its tree object, for which no numbers are saved, if that is cached.
fn bring_cached<A: Allocator + Clone, W: World, F: Files<W>, C: Allocator + Clone>(
    inodes: &mut Inodes<A, W, F>,
    cache: &mut Stock<W, C>,
    alloc: Global,
    path: &[Name],
    id: Id,
) -> Result<(), Stop>
    requires at { IsAt path.now inodes.old.root (origins.Object id) }
    requires unsaved { LacksNumbers W.honest (F.stored inodes.old.files) path.now inodes.old.root }
    ensures ok { OnOk result (IsKnownLoadedAt path.now inodes.new.root) }
    ensures err { OnErr result (inodes.new.root ≡ inodes.old.root) }
    ensures lacks { IfErr result (Lacks W.World F.Files path.now inodes.old inodes.new cache.new) }
    ensures keeps { Keeps W.World F.Files (path.now ∷ []) inodes.old inodes.new }
    ensures cache { FindsTheSame cache.old cache.new }
{
    match cached_tree(cache, alloc, id)? {
        None => {
            let kind = ObjKind::Tree;
            Err(Stop::Needs(Key { kind, id }))
        }
        Some(entries) => {
            bring_object(inodes, alloc, path, entries.as_slice())?;
            Ok(())
        }
    }
}

/// Loads the directory at a path, which stands on that tree object: with the numbers saved for it, and without the
/// object; or else from the object, if it is cached.
fn bring_tree<A: Allocator + Clone, W: World, F: Files<W>, C: Allocator + Clone>(
    inodes: &mut Inodes<A, W, F>,
    cache: &mut Stock<W, C>,
    alloc: Global,
    path: &[Name],
    id: Id,
) -> Result<(), Stop>
    requires at { IsAt path.now inodes.old.root (origins.Object id) }
    ensures ok { OnOk result (IsKnownLoadedAt path.now inodes.new.root) }
    ensures err { OnErr result (inodes.new.root ≡ inodes.old.root) }
    ensures lacks { IfErr result (Lacks W.World F.Files path.now inodes.old inodes.new cache.new) }
    ensures keeps { Keeps W.World F.Files (path.now ∷ []) inodes.old inodes.new }
    ensures cache { FindsTheSame cache.old cache.new }
{
    if inodes.numbered(alloc, path)? {
        bring_stored(inodes, alloc, path)?;
        return Ok(());
    }
    bring_cached(inodes, cache, alloc, path, id)
}

/// Loads the directory at a path, which comes from that origin: from its stored file, as an empty one, or by its tree
/// object.
pub(crate) fn bring<A: Allocator + Clone, W: World, F: Files<W>, C: Allocator + Clone>(
    inodes: &mut Inodes<A, W, F>,
    cache: &mut Stock<W, C>,
    alloc: Global,
    path: &[Name],
    origin: Origin,
) -> Result<(), Stop>
    requires at { IsAt path.now inodes.old.root origin }
    ensures ok { OnOk result (IsKnownLoadedAt path.now inodes.new.root) }
    ensures err { OnErr result (inodes.new.root ≡ inodes.old.root) }
    ensures lacks { IfErr result (Lacks W.World F.Files path.now inodes.old inodes.new cache.new) }
    ensures keeps { Keeps W.World F.Files (path.now ∷ []) inodes.old inodes.new }
    ensures cache { FindsTheSame cache.old cache.new }
{
    match origin {
        Origin::Own | Origin::Empty => {
            bring_stored(inodes, alloc, path)?;
            Ok(())
        }
        Origin::Object(id) => bring_tree(inodes, cache, alloc, path, id),
    }
}
