//! A commit's checkout opened over an overlay, with the room of a mount, and closed to it.
ghost use Rattle.std.specs.Prelude.{◌≡◌, IfOk, IfErr};
ghost use Rattle.eden_cache.specs.Cache.{empty_cache};
ghost use Rattle.eden_model.specs.Numbers as numbers;
ghost use Rattle.eden_inode.specs.Tables.{shows};
ghost use Rattle.eden_mount.specs.Settings.{room_for};
ghost use Rattle.eden_checkout.specs.Opening.{MayOpen};
ghost use Rattle.eden_stdio_life.specs.Opening.{Closes, IsBacking, IsOpened, IsNotOpened};

use eden_cache::ObjectCache;
use eden_checkout::{Checkout, OpenFault, Opening};
use eden_model::{Id, World};
use eden_mount::{Config, Room};
use eden_overlay::{Files, FilesFault};
use std::alloc::{AllocError, Allocator, Global};

/// What an overlay is opened over, and how.
#[derive(Clone, Copy, Debug, PartialEq, Eq)]
pub struct Base {
    /// The commit's tree.
    pub root: Id,
    /// Whether the overlay was closed, or may have been left by a run that was killed.
    pub opening: Opening,
}

/// What a mount of these settings needs of memory before an overlay is opened.
fn room<A: Allocator + Clone>(
    alloc: Global,
    memory: &A,
    config: &Config,
) -> Result<(Room<A>, ObjectCache<A>), AllocError>
    ensures room { IfOk result (λ r. r.0 ≡ room_for config.now) }
    ensures cache { IfOk result
        (λ r. r.1 ≡ empty_cache config.now.cache_entries config.now.cache_bytes config.now.cache_sizes) }
{
    config.holds();
    let cache = ObjectCache::new(
        memory.clone()?,
        config.cache_entries(),
        config.cache_bytes(),
        config.cache_sizes(),
    )?;
    let room = Room::new(alloc, memory.clone()?, config)?;
    Ok((room, cache))
}

/// Opens an overlay over a commit's tree, for a mount of these settings. Memory for its queue, its seats and the cache
/// is made first, so that the state among the files is removed only once nothing more can be refused. What is queued,
/// cached and loaded lies in `memory`.
///
/// Errors: those of `Checkout::open`, or of `Checkout::open_rescan`, and `Memory`. The files come back as they were.
pub fn open<W: World, A: Allocator + Clone, F: Files<W>>(
    alloc: Global,
    memory: A,
    files: F,
    base: Base,
    config: &Config,
) -> Result<(Room<A>, Checkout<A, W, F>), (OpenFault, F)>
    requires files { W.honest → MayOpen base.opening W.repository W.opening W.numbers base.root (F.stored files) }
    ensures room { IfOk result (λ o. o.0 ≡ room_for config.now) }
    ensures opened { IfOk result (λ o. IsOpened W.World F.Files base config.now files o.1) }
    ensures refused { IfErr result (λ e. IsNotOpened W.World F.Files base files e.0 e.1) }
{
    let Ok((room, cache)) = room(alloc, &memory, config) else {
        return Err((OpenFault::Memory, files));
    };
    match Checkout::open_by(alloc, memory, files, base.root, cache, base.opening) {
        Err(refused) => Err(refused),
        Ok(checkout) => Ok((room, checkout)),
    }
}

/// The files of a checkout that was to be closed.
#[derive(Drop)]
pub struct Closed<F> {
    /// The files as they stand.
    pub files: F,
    /// Why the checkout wasn't closed to them, if it wasn't.
    pub unclosed: Option<FilesFault>,
}

/// Closes a checkout. If that fails, the files are left as they stand. Files that were closed back the inode numbers
/// that the checkout backed.
pub fn close<W: World, A: Allocator + Clone, F: Files<W>>(
    alloc: Global,
    table: Checkout<A, W, F>,
) -> Closed<F>
    ensures { (N : numbers.Numbers) → IsBacking W.World F.Files N table → Closes W.World F.Files table.root table
        (shows W.World F.Files table.inodes) N result.unclosed result.files }
{
    match table.close(alloc) {
        Ok(files) => Closed {
            files,
            unclosed: None,
        },
        Err((fault, table)) => Closed {
            files: table.abandon(),
            unclosed: Some(fault),
        },
    }
}
