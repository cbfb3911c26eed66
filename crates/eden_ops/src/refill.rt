//! What a file's content becomes, in its place.
ghost use Rattle.std.specs.Prelude.{◌≡◌, ◌≤◌, ◌^◌, ℕ, List, length, Some, None, IfOk, IfErr, OnErr, IfSome, IfNone};
ghost use Rattle.eden_model.specs.declared.id.ObjKind.TheVariants as objects;
ghost use Rattle.eden_model.specs.Limits.{most_file};
ghost use Rattle.eden_tree.specs.Directory.{Row};
ghost use Rattle.eden_cache.specs.Stock.{FindsTheSame, object_at};
ghost use Rattle.eden_ops.specs.Attempts.{Lacks};
ghost use Rattle.eden_ops.specs.Contents.{HasContent, IsFileAt, Fits, made};
ghost use Rattle.eden_ops.specs.Refilling.{Fills, AsksContent, Refills};

use crate::fill::fill;
use crate::laws::keeps_laws;
use crate::walk_end::Stop;
use eden_cache::{Stock, cache_laws};
use eden_inode::Inodes;
use eden_model::{Fault, Id, Key, ObjKind, Origin, Path, World, change_laws};
use eden_overlay::Files;
use eden_overlay_format::Spliced;
use std::alloc::{Allocator, Global};

/// What a content becomes.
#[derive(Clone, Copy)]
pub(crate) enum Form<'a> {
    /// The content with these bytes from an offset on.
    Written(u64, &'a [u8]),
    /// The content cut to a size, or with zeros up to it.
    Resized(u64),
}

/// What a content becomes, of which nothing is copied.
fn spliced<'a>(content: &'a [u8], form: Form<'a>) -> Spliced<'a>
    requires fits { Fits form }
    requires short { length content.now ≤ most_file }
    ensures is { result ≡ made form.entry content.now }
    ensures short { length result ≤ most_file }
{
    change_laws();
    match form {
        Form::Written(offset, bytes) => Spliced::written(content, offset as usize, bytes),
        Form::Resized(size) => Spliced::resized(content, size as usize),
    }
}

/// Stores what the content of a blob becomes for the file at a path, if the blob is cached.
fn refill_cached<A: Allocator + Clone, W: World, F: Files<W>, C: Allocator + Clone>(
    inodes: &mut Inodes<A, W, F>,
    cache: &mut Stock<W, C>,
    alloc: Global,
    path: &Path,
    id: Id,
    form: Form<'_>,
) -> Option<Result<(), Fault>>
    requires there { (y : Row) × IsFileAt path.now inodes.old.root y }
    requires fits { Fits form }
    ensures finds { FindsTheSame cache.old cache.new }
    ensures none { IfNone result (object_at cache.old (record { kind = objects.Blob; id = id }) ≡ None) }
    ensures still { IfNone result (inodes.new ≡ inodes.old) }
    ensures fills { IfSome result (λ answer. (content : List ℕ)
        × ((W.honest → W.repository.blob id ≡ Some content) × ((length content ≤ most_file)
        × Fills W.World F.Files path.now inodes.old inodes.new (made form.entry content) answer))) }
{
    cache_laws();
    let kind = ObjKind::Blob;
    match cache.get(Key { kind, id }) {
        None => None,
        Some(object) => Some(fill(inodes, alloc, path, spliced(object.body(), form))),
    }
}

/// Stores what the content of the file at a path becomes, which comes from that origin: one new file, and no second
/// copy of its bytes. Errors: what lacks for the old content; then nothing is stored.
pub(crate) fn refill<A: Allocator + Clone, W: World, F: Files<W>, C: Allocator + Clone>(
    inodes: &mut Inodes<A, W, F>,
    cache: &mut Stock<W, C>,
    alloc: Global,
    path: &Path,
    origin: Origin,
    form: Form<'_>,
) -> Result<Result<(), Fault>, Stop>
    requires content { HasContent path.now inodes.old.root origin }
    requires there { (y : Row) × IsFileAt path.now inodes.old.root y }
    requires fits { Fits form }
    ensures refills { IfOk result (Refills W.World F.Files path.now form.entry inodes.old inodes.new) }
    ensures lacks { IfErr result (Lacks W.World F.Files path.now inodes.old inodes.new cache.new) }
    ensures asks { OnErr result (AsksContent W.World F.Files path.now inodes.old inodes.new) }
    ensures cache { FindsTheSame cache.old cache.new }
{
    keeps_laws::<W, F>();
    inodes.holds();
    match origin {
        Origin::Empty => unreachable!(),
        Origin::Own => {
            let content = match inodes.content(alloc, path.as_slice()) {
                Err(fault) => return Err(Stop::Faults(fault)),
                Ok(content) => content,
            };
            let answer = fill(inodes, alloc, path, spliced(content.as_slice(), form));
            inodes.spare(content);
            Ok(answer)
        }
        Origin::Object(id) => match refill_cached(inodes, cache, alloc, path, id, form) {
            None => {
                let kind = ObjKind::Blob;
                Err(Stop::Needs(Key { kind, id }))
            }
            Some(answer) => Ok(answer),
        },
    }
}
