//! A mount of two passes, from its opening to its end.
ghost use Rattle.std.specs.Prelude.{◌≡◌, [], IfSome};

use crate::calls::{go, run, start, unload, want};
use crate::script::Script;
use crate::stage::Stage;
use eden_cache::ObjectCache;
use eden_checkout::{Checkout, OpenFault, Opening};
use eden_history::Kept;
use eden_model::{Id, Outside};
use eden_mount::{Config, Mount, Room};
use eden_overlay::{FilesFault, MemoryFiles};
use std::alloc::Global;

pub type Stored = MemoryFiles<Outside>;

pub type Tree = Checkout<Global, Outside, Stored>;

pub type Mounted = Mount<Outside, Tree, Global, Kept>;

/// How many entries a history may have.
pub const HISTORY: u32 = 1_000_000;

/// Room for a mount of these settings, or none.
fn room_once(stage: &mut Stage, config: &Config) -> Option<Room<Global>>
    ensures { IfSome result (λ r. r.queue.passes ≡ config.now.passes) }
{
    stage.teller.begin("room");
    match Room::new(stage.alloc, stage.alloc, config) {
        Ok(room) => {
            stage.teller.end("ok");
            Some(room)
        }
        Err(_) => {
            stage.teller.end("Memory");
            None
        }
    }
}

/// Room for a mount of this many passes. None if memory is refused twice.
pub fn room(stage: &mut Stage, passes: u32) -> Option<Room<Global>>
    ensures { IfSome result (λ r. r.queue.passes ≡ passes) }
{
    let config = Config::new(passes, 2, HISTORY, 1, 1, 1)?;
    match room_once(stage, &config) {
        Some(room) => Some(room),
        None => room_once(stage, &config),
    }
}

/// A cache of two objects, or none.
fn cache_once(stage: &mut Stage) -> Option<ObjectCache<Global>>
    ensures objects { IfSome result (λ c. c.objects ≡ []) }
    ensures sizes { IfSome result (λ c. c.sizes ≡ []) }
{
    stage.teller.begin("cache");
    match ObjectCache::new(stage.alloc, 2, 1 << 20, 8) {
        Ok(cache) => {
            stage.teller.end("ok");
            Some(cache)
        }
        Err(_) => {
            stage.teller.end("Memory");
            None
        }
    }
}

/// A cache of two objects. None if memory is refused twice.
pub fn cache(stage: &mut Stage) -> Option<ObjectCache<Global>>
    ensures objects { IfSome result (λ c. c.objects ≡ []) }
    ensures sizes { IfSome result (λ c. c.sizes ≡ []) }
{
    match cache_once(stage) {
        Some(cache) => Some(cache),
        None => cache_once(stage),
    }
}

/// Opens the files, or gives them back.
fn open_once(stage: &mut Stage, files: Stored, root: Id, opening: Opening) -> Result<Tree, Stored> {
    let Some(cache) = cache(stage) else {
        return Err(files);
    };
    stage.teller.begin("open");
    match Checkout::open_by(stage.alloc, stage.alloc, files, root, cache, opening) {
        Ok(tree) => {
            stage.teller.end("ok");
            Ok(tree)
        }
        Err((fault, files)) => {
            stage.teller.end(want(fault == OpenFault::Memory));
            Err(files)
        }
    }
}

/// Opens the files. None if that fails twice.
pub fn open(stage: &mut Stage, files: Stored, root: Id, opening: Opening) -> Option<Tree> {
    match open_once(stage, files, root, opening) {
        Ok(tree) => Some(tree),
        Err(files) => open_once(stage, files, root, opening).ok(),
    }
}

fn close_once(stage: &mut Stage, tree: Tree) -> Result<Stored, Tree> {
    stage.teller.begin("close");
    match tree.close(stage.alloc) {
        Ok(files) => {
            stage.teller.end("ok");
            Ok(files)
        }
        Err((fault, tree)) => {
            stage.teller.end(want(fault == FilesFault::Memory));
            Err(tree)
        }
    }
}

/// Closes the tree. None if that fails twice.
pub fn close(stage: &mut Stage, tree: Tree) -> Option<Stored> {
    match close_once(stage, tree) {
        Ok(files) => Some(files),
        Err(tree) => close_once(stage, tree).ok(),
    }
}

fn abandon(stage: &mut Stage, tree: Tree) -> Stored {
    stage.teller.begin("abandon");
    let files = tree.abandon();
    stage.teller.end("ok");
    files
}

/// One step within a life. False if it is none.
fn step(stage: &mut Stage, mount: &mut Mounted, line: &[u8]) -> bool {
    match line {
        [b'1', b' ', request @ ..] => start(stage, mount, 1, request),
        [b'2', b' ', request @ ..] => start(stage, mount, 2, request),
        [b'r', b'u', b'n', b' ', request @ ..] => run(stage, mount, request),
        b"go" => go(stage, mount),
        b"unload" => unload(stage, mount),
        _ => false,
    }
}

/// Goes through the steps until the life ends: whether it is to be closed. None if a line is no step.
fn steps(stage: &mut Stage, script: &mut Script, mount: &mut Mounted) -> Option<bool> {
    for _ in 0..u64::MAX {
        match script.next_line()? {
            b"close" => return Some(true),
            b"abandon" => return Some(false),
            line => {
                if !step(stage, mount, line) {
                    return None;
                }
            }
        }
    }
    None
}

/// A mount over these files. None if memory is refused twice.
fn mount(stage: &mut Stage, files: Stored, root: Id, opening: Opening) -> Option<Mounted> {
    let room = room(stage, 2)?;
    let tree = open(stage, files, root, opening)?;
    Some(Mount::new(room, tree, Kept::new(stage.alloc, HISTORY)))
}

/// A life over these files, which it leaves. None if a line is no step, or if something fails twice.
pub fn live(
    stage: &mut Stage,
    script: &mut Script,
    files: Stored,
    root: Id,
    opening: Opening,
) -> Option<Stored> {
    let mut mount = mount(stage, files, root, opening)?;
    if steps(stage, script, &mut mount)? {
        close(stage, mount.into_table())
    } else {
        Some(abandon(stage, mount.into_table()))
    }
}
