ghost use Rattle.std.specs.Prelude.{◌≡◌, ◌↔◌, Some, length, IfOk, IfSome, OnOk, OnErr, IfErr, IsSome, IsOk, IsTrue};
ghost use Rattle.std.specs.Borrow.{sem};
ghost use Rattle.std.specs.Map.{lookup};
ghost use Rattle.std.specs.Option.{option_copied};
ghost use Rattle.lru.specs.LruCache.{promoted};
ghost use Rattle.eden_cache.specs.Cache.{IsObjectBound, IsByteBound, IsSizeBound};

use crate::evict::{evict, let_go};
use eden_model::{Id, Key, ObjKind};
use eden_object::Object;
use lru::{DefaultHasher, LruCache};
use std::alloc::{AllocError, Allocator};
use std::marker::Model;
use std::num::NonZeroUsize;

/// The greatest bound on the number of objects.
pub const OBJECTS_LIMIT: usize = 65_536;

/// The greatest bound on what the objects weigh together, in bytes.
pub const BYTES_LIMIT: u64 = 1 << 40;

/// The greatest bound on the number of sizes.
pub const SIZES_LIMIT: usize = 65_536;

/// Whether a cache may be made for so many objects, 1 to 65,536, of so many bytes together, 1 to 2^40, and so many
/// sizes, 1 to 65,536.
pub fn are_bounds(entries: usize, bytes: u64, sizes: usize) -> bool
    ensures { IsTrue result ↔ (IsObjectBound entries × IsByteBound bytes × IsSizeBound sizes) }
{
    1 <= entries
        && entries <= OBJECTS_LIMIT
        && 1 <= bytes
        && bytes <= BYTES_LIMIT
        && 1 <= sizes
        && sizes <= SIZES_LIMIT
}

/// How many objects a cache holds, what they weigh together in bytes, and how many sizes it holds.
#[derive(Clone, Copy, Debug, PartialEq, Eq)]
pub struct Usage {
    pub objects: usize,
    pub bytes: u64,
    pub sizes: usize,
}

/// Objects by their keys and blobs' lengths by their ids, each the most recently used first.
///
/// Contracts see the two lists and the three bounds. An object weighs its body's length in bytes. The objects keep both
/// their bounds, or are one object alone, which weighs more than the bound.
#[derive(Drop)]
pub struct ObjectCache<A: Allocator> {
    objects: LruCache<Key, Object, DefaultHasher, A>,
    weight: u64,
    bytes: u64,
    sizes: LruCache<Id, u64, DefaultHasher, A>,
}

impl<A: Allocator> Model for ObjectCache<A> {
    ghost use Rattle.eden_cache.specs.Cache.{Cache, IsTallied, IsWithin};
    ghost use Rattle.eden_cache.specs.Seen.{cache_from};

    ghost Value = { Cache };

    ghost view = { λ c. cache_from c.objects c.bytes c.sizes };

    ghost invariant = { λ c. IsTallied c.weight c.bytes c.objects × IsWithin c.sizes };
}

impl<A: Allocator + Clone> ObjectCache<A> {
    ghost use Rattle.eden_model.specs.Keys.{same_key, same_id};
    ghost use Rattle.eden_cache.specs.Cache.{IsSound, KeepsObject, KeepsSize, empty_cache, usage_of};
    ghost use Rattle.eden_cache.specs.Lends.{ends_used};

    /// A cache without objects and sizes, for at most so many objects of so many bytes together, and so many sizes.
    ///
    /// It takes the memory of an empty cache, whatever the bounds; the only error is want of it.
    pub fn new(alloc: A, entries: usize, bytes: u64, sizes: usize) -> Result<Self, AllocError>
        requires entries { IsObjectBound entries }
        requires bytes { IsByteBound bytes }
        requires sizes { IsSizeBound sizes }
        ensures { IfOk result (λ c. c ≡ empty_cache entries bytes sizes) }
    {
        let Some(entries) = NonZeroUsize::new(entries) else {
            unreachable!();
        };
        let Some(most_sizes) = NonZeroUsize::new(sizes) else {
            unreachable!();
        };
        let objects = LruCache::sparse(alloc.clone()?, entries)?;
        let sizes = LruCache::sparse(alloc, most_sizes)?;
        Ok(ObjectCache {
            objects,
            weight: 0,
            bytes,
            sizes,
        })
    }

    /// How much the cache holds.
    pub fn usage(&self) -> Usage
        ensures value { result ≡ usage_of self.now }
        ensures sound { IsSound self.now }
    {
        Usage {
            objects: self.objects.len(),
            bytes: self.weight,
            sizes: self.sizes.len(),
        }
    }

    /// The bound on what the objects weigh together, in bytes.
    pub fn most_bytes(&self) -> u64
        ensures { result ≡ self.now.most_bytes }
    {
        self.bytes
    }

    /// The length of the blob of that id, if it is kept. It is then the newest size.
    pub fn size_of(&mut self, id: Id) -> Option<u64>
        ensures value { result ≡ lookup (same_id id) self.old.sizes }
        ensures used { self.new ≡ record self.old { sizes = promoted (same_id id) self.old.sizes } }
    {
        self.sizes.get(&id).copied()
    }

    /// Lends the object of that key, if it is there. It is then the newest.
    pub fn get(&mut self, key: Key) -> Option<&Object>
        ensures* used { sem 𝓛 (ends_used A.row A.Allocator self.entry key) }
        ensures value { option_copied result ≡ lookup (same_key key) self.old.objects }
        ensures kind { IfSome (option_copied result) (λ object. object.kind ≡ key.kind) }
    {
        self.objects.get(&key)
    }

    /// Keeps an object as the newest, in place of one under the same key; those used longest ago leave until both
    /// bounds hold or it is alone. A blob's length is kept as the newest size, where there is memory for it.
    ///
    /// The only error is want of memory for the object: it comes back, and nothing has changed. Where the key is there,
    /// there is no error.
    pub fn put(&mut self, key: Key, object: Object) -> Result<(), Object>
        requires kind { object.kind ≡ key.kind }
        ensures objects { OnOk result (KeepsObject self.old key object self.new.objects) }
        ensures found { OnOk result (lookup (same_key key) self.new.objects ≡ Some object) }
        ensures size { OnOk result (KeepsSize key.kind self.old key.id (length object.bytes) self.new.sizes) }
        ensures bounds { self.new ≡ record self.old { objects = self.new.objects; sizes = self.new.sizes } }
        ensures err { OnErr result (self.new ≡ self.old) }
        ensures handed_back { IfErr result (λ o. o ≡ object) }
        ensures succeeds { IsSome (lookup (same_key key) self.old.objects) → IsOk result }
    {
        let length = object.body().len() as u64;
        let gone = match self.objects.push(key, object) {
            Ok(displaced) => let_go(displaced),
            Err(failed) => return Err(failed.value.1),
        };
        let weight = self.weight + length - gone;
        self.weight = evict(&mut self.objects, weight, self.bytes);
        match key.kind {
            ObjKind::Blob => {
                let _ = self.sizes.put(key.id, length);
            }
            ObjKind::Tree => {}
        }
        Ok(())
    }
}
