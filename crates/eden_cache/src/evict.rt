ghost use Rattle.std.specs.Prelude.{◌≡◌, ◌-◌, ◌<◌, ◌≤◌, length, take};
ghost use Rattle.lru.specs.LruCache.{lru_cache, last_entry};
ghost use Rattle.eden_cache.specs.Bounded.{weight_of, weight_gone, IsLongestFront};

use eden_model::Key;
use eden_object::Object;
use lru::{DefaultHasher, LruCache};
use std::alloc::Allocator;

/// Lets the least recently used objects leave until the others weigh at most so many bytes or one is left, and answers
/// what is left weighs.
pub(crate) fn evict<A: Allocator>(
    objects: &mut LruCache<Key, Object, DefaultHasher, A>,
    weight: u64,
    bytes: u64,
) -> u64
    requires some { 0 < length objects.old.entries }
    requires few { length objects.old.entries ≤ objects.old.cap }
    requires sum { weight ≡ weight_of objects.old.entries }
    ensures front { IsLongestFront objects.old.cap bytes objects.old.entries objects.new.entries }
    ensures sum { result ≡ weight_of objects.new.entries }
    ensures cap { objects.new.cap ≡ objects.old.cap }
{
    let mut left = weight;
    while left > bytes && objects.len() > 1 {
        left -= let_oldest_go(objects);
    }
    left
}

/// Lets the least recently used object go, and answers what it weighed.
fn let_oldest_go<A: Allocator>(objects: &mut LruCache<Key, Object, DefaultHasher, A>) -> u64
    ensures weight { result ≡ weight_gone (last_entry objects.old.entries) }
    ensures left { objects.new ≡ lru_cache (take (length objects.old.entries - 1) objects.old.entries) objects.old.cap }
{
    let_go(objects.pop_lru())
}

/// Drops the object that left, if one did, and answers what it weighed.
pub(crate) fn let_go(object: Option<(Key, Object)>) -> u64
    ensures { result ≡ weight_gone object }
{
    match object {
        Some((_, object)) => object.len() as u64,
        None => 0,
    }
}
