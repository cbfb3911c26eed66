ghost use Rattle.std.specs.Prelude.{◌≡◌, [], length, Some, IfSome, IfErr, OnOk, OnErr, IsSome, IsOk};
ghost use Rattle.std.specs.Borrow.{sem};
ghost use Rattle.std.specs.Option.{option_copied};
ghost use Rattle.lru.specs.LruCache.{promoted};

use crate::cache::ObjectCache;
use eden_model::{Id, Key, World};
use eden_object::Object;
use std::alloc::Allocator;
use std::marker::{Model, PhantomData};

/// A cache of what was fetched: each object in it came for its key, and if the outside is honest, it is the
/// repository's, and so is each length.
///
/// Contracts see the cache.
#[derive(Drop)]
pub struct Stock<W: World, C: Allocator> {
    cache: ObjectCache<C>,
    world: PhantomData<W>,
}

impl<W: World, C: Allocator> Model for Stock<W, C> {
    ghost use Rattle.eden_cache.specs.Cache.{Cache};
    ghost use Rattle.eden_cache.specs.Stock.{IsStocked};

    ghost Value = { Cache };

    ghost view = { λ s. s.cache };

    ghost invariant = { λ s. IsStocked W.repository W.honest s.cache };
}

impl<W: World, C: Allocator + Clone> Stock<W, C> {
    ghost use Rattle.eden_model.specs.Keys.{same_id};
    ghost use Rattle.eden_object.specs.Objects.{IsFetched};
    ghost use Rattle.eden_cache.specs.Cache.{KeepsObject, KeepsSize};
    ghost use Rattle.eden_cache.specs.Lends.{stock_ends_used};
    ghost use Rattle.eden_cache.specs.Stock.{IsSize, object_at, size_at};

    /// A stock over a cache in which nothing is yet.
    pub fn new(cache: ObjectCache<C>) -> Self
        requires { (cache.objects ≡ []) × (cache.sizes ≡ []) }
        ensures { result ≡ cache }
    {
        Stock {
            cache,
            world: PhantomData,
        }
    }

    /// The length of the blob of that id, if it is kept. It is then the newest size.
    pub fn size_of(&mut self, id: Id) -> Option<u64>
        ensures value { result ≡ size_at self.old id }
        ensures is { IfSome result (λ n. W.honest → IsSize W.repository id n) }
        ensures used { self.new ≡ record self.old { sizes = promoted (same_id id) self.old.sizes } }
    {
        self.cache.size_of(id)
    }

    /// Lends the object of that key, if it is there. It is then the newest.
    pub fn get(&mut self, key: Key) -> Option<&Object>
        ensures* used { sem 𝓛 (stock_ends_used W.row C.row W.World C.Allocator self.entry key) }
        ensures value { option_copied result ≡ object_at self.old key }
        ensures fetched { IfSome (option_copied result) (IsFetched W.repository W.honest key) }
    {
        self.cache.get(key)
    }

    /// Keeps an object that was fetched for the key, as `ObjectCache::put` does, with its error.
    pub fn put(&mut self, key: Key, object: Object) -> Result<(), Object>
        requires fetched { IsFetched W.repository W.honest key object }
        ensures objects { OnOk result (KeepsObject self.old key object self.new.objects) }
        ensures found { OnOk result (object_at self.new key ≡ Some object) }
        ensures size { OnOk result (KeepsSize key.kind self.old key.id (length object.bytes) self.new.sizes) }
        ensures bounds { self.new ≡ record self.old { objects = self.new.objects; sizes = self.new.sizes } }
        ensures err { OnErr result (self.new ≡ self.old) }
        ensures handed_back { IfErr result (λ o. o ≡ object) }
        ensures succeeds { IsSome (object_at self.old key) → IsOk result }
    {
        self.cache.put(key, object)
    }
}
