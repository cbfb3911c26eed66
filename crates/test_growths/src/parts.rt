//! A cache and a queue by themselves, and with them a directory: few of their calls take memory, and those tell it.
ghost use Rattle.std.specs.Prelude.{◌≡◌, ◌≤◌, true};

use crate::directories::use_directory;
use crate::lives::cache;
use crate::stage::Stage;
use eden_cache::ObjectCache;
use eden_import::{Imports, Wanted};
use eden_model::{Cause, Key, ObjKind};
use eden_object::{Object, id_of};
use std::alloc::{AllocError, Global};

/// Two framed blobs.
const BLOBS: [&[u8]; 2] = [b"blob 1\0a", b"blob 2\0bc"];

fn object(alloc: Global, framed: &[u8]) -> Result<Object, AllocError> {
    let key = key_of(framed);
    let framed = Vec::from_slice(alloc, framed)?;
    Object::checked(alloc, key, framed).map_err(|_| AllocError)
}

fn key_of(framed: &[u8]) -> Key {
    Key {
        kind: ObjKind::Blob,
        id: id_of(framed),
    }
}

/// Tries to put the object in, which comes back if it finds no memory.
fn put(
    stage: &mut Stage,
    cache: &mut ObjectCache<Global>,
    key: Key,
    object: Object,
) -> Result<(), Object> {
    if object.kind() != key.kind {
        return Err(object);
    }
    stage.teller.begin("put");
    let stored = cache.put(key, object);
    stage.teller.end_want(stored.is_err());
    stored
}

/// Puts a blob in. False if that fails twice.
fn keep(stage: &mut Stage, cache: &mut ObjectCache<Global>, framed: &[u8]) -> bool {
    let made = match object(stage.alloc, framed) {
        Ok(object) => Ok(object),
        Err(_) => object(stage.alloc, framed),
    };
    match made {
        Err(_) => false,
        Ok(object) => match put(stage, cache, key_of(framed), object) {
            Ok(()) => true,
            Err(object) => put(stage, cache, key_of(framed), object).is_ok(),
        },
    }
}

/// Whether the cache has the blob.
fn has(cache: &mut ObjectCache<Global>, framed: &[u8]) -> bool {
    cache.get(key_of(framed)).is_some()
}

/// How many lengths of the blobs the cache has.
fn lengths(cache: &mut ObjectCache<Global>) -> u64 {
    let first = cache.size_of(key_of(BLOBS[0]).id) == Some(1);
    let second = cache.size_of(key_of(BLOBS[1]).id) == Some(2);
    u64::from(first) + u64::from(second)
}

/// A cache of two blobs, and its other calls, which tell how many lengths it has. False if memory is refused twice.
fn use_cache(stage: &mut Stage) -> bool {
    let Some(mut cache) = cache(stage) else {
        return false;
    };
    for framed in BLOBS {
        if !keep(stage, &mut cache, framed) {
            return false;
        }
    }
    stage.teller.begin("lengths");
    let is_right = has(&mut cache, BLOBS[0]) && has(&mut cache, BLOBS[1]);
    let count = lengths(&mut cache);
    if is_right && cache.usage().objects == 2 {
        stage.teller.end_number(count);
    } else {
        stage.teller.end("another");
    }
    true
}

fn queue_once(stage: &mut Stage) -> Option<Imports<Global>> {
    stage.teller.begin("queue");
    let queue = Imports::new(stage.alloc, 2, 1).ok();
    stage.teller.end_want(queue.is_none());
    queue
}

fn queue(stage: &mut Stage) -> Option<Imports<Global>> {
    match queue_once(stage) {
        Some(queue) => Some(queue),
        None => queue_once(stage),
    }
}

fn is_pass(queue: &Imports<Global>, pass: u32) -> bool
    ensures { result ≡ true → (1 ≤ pass) × (pass ≤ queue.now.passes) }
{
    1 <= pass && pass <= queue.passes()
}

/// Whether a pass that wants nothing is told so of a key.
fn wants(queue: &mut Imports<Global>, key: Key, pass: u32, told: Wanted) -> bool {
    is_pass(queue, pass) && queue.wanted(pass).is_none() && queue.want(key, pass) == told
}

/// Whether a pass that waits for a key is told so.
fn awaits(queue: &mut Imports<Global>, key: Key, pass: u32, told: Wanted) -> bool {
    is_pass(queue, pass) && queue.await_key(key, pass) == told
}

/// Whether a pass is told that the key failed, and then wants nothing.
fn heard(queue: &mut Imports<Global>, key: Key, pass: u32) -> bool {
    if !is_pass(queue, pass) {
        return false;
    }
    let failure = queue.failure(pass);
    failure == Some((key, Cause::Missing))
}

/// The pass wants nothing any more.
fn stops(queue: &mut Imports<Global>, key: Key, pass: u32) {
    if is_pass(queue, pass) {
        queue.leave(key, pass);
    }
    if is_pass(queue, pass) {
        queue.quit(pass);
    }
}

/// Whether a key that a pass wants is taken, and comes.
fn fetches(queue: &mut Imports<Global>, key: Key) -> bool {
    wants(queue, key, 1, Wanted::Queued) && queue.take() == Some(key) && queue.done(key)
}

/// All calls of a queue of two passes and one flight: whether they answer right.
fn is_queue(queue: &mut Imports<Global>) -> bool {
    let key = key_of(BLOBS[0]);
    let is_awaited = wants(queue, key, 1, Wanted::Queued) && awaits(queue, key, 2, Wanted::Joined);
    stops(queue, key, 2);
    let is_taken = queue.take() == Some(key) && queue.take().is_none() && queue.is_in_flight(key);
    let is_failed = queue.failed(key, Cause::Missing) && heard(queue, key, 1) && !queue.done(key);
    is_awaited && is_taken && is_failed && fetches(queue, key) && queue.flights() == 1
}

/// A queue, and all its other calls. False if memory is refused twice.
fn use_queue(stage: &mut Stage) -> bool {
    let Some(mut queue) = queue(stage) else {
        return false;
    };
    stage.teller.begin("queued");
    let is_right = is_queue(&mut queue);
    stage.teller.end_right(is_right);
    true
}

/// The three by themselves. False if memory is refused twice.
pub fn use_parts(stage: &mut Stage) -> bool {
    use_directory(stage) && use_cache(stage) && use_queue(stage)
}
