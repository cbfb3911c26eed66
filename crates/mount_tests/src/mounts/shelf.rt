// A table for tests: every request but that for the root's kind needs one object.
ghost use Rattle.std.specs.Prelude.{◌≡◌, ◌≤◌, true};
ghost use Rattle.eden_model.specs.Requests.{most_objects};

use eden_model::{Attempt, Bytes, Key, Kind, Obstacle, Outside, Path, Reply, Request};
use eden_mount::Attempts;
use eden_object::Object;
use std::alloc::Global;

/// How many directories an unload answers.
pub(crate) const UNLOADED: u64 = 7;

/// A shelf for one object. Once it is there, requests are answered with no bytes.
#[derive(Drop)]
pub(crate) struct Shelf {
    pub key: Key,
    /// Whether the object finds memory.
    pub wide: bool,
    pub objects: usize,
    pub turns: u64,
    /// The place that the last attempt was handed.
    pub handed: Option<u64>,
    /// How often directories were unloaded.
    pub unloads: usize,
    /// Whether the disk has all that was stored.
    pub safe: bool,
    /// How often somebody waited for the disk.
    pub syncs: usize,
}

impl Shelf {
    pub(crate) fn new(key: Key, wide: bool) -> Shelf {
        Shelf {
            key,
            wide,
            objects: 0,
            turns: 0,
            handed: None,
            unloads: 0,
            safe: true,
            syncs: 0,
        }
    }
}

/// Whether the request may need an object; the kind of the root needs none.
fn may_need(request: &Request) -> bool
    ensures { result ≡ true → 1 ≤ most_objects request.now }
{
    match request {
        Request::Kind(path) => !path.is_root(),
        Request::Read(_, _, _) => true,
        _ => false,
    }
}

impl Attempts<Outside> for Shelf {
    ghost use Rattle.std.specs.Prelude.{◌≡◌, ◌≤◌, ◌<◌, ◌-◌, ◌+◌, ◌&&◌, nat_lt, None};
    ghost use Rattle.std.proofs.Math.Nat.{sub-le};
    ghost use Rattle.eden_model.specs.Keys.{same_key};
    ghost use Rattle.eden_model.specs.Requests.{most_objects};

    ghost table = { record {
      shown = λ t p. None;
      numbers = λ t p. None;
      commit = λ t. t.key.id;
      next = λ t. 0;
      caches = λ t k. nat_lt 0 t.objects && same_key t.key k;
      needs = λ t q k. (t.objects ≡ 0) × (k ≡ t.key) × (1 ≤ most_objects q);
      left = λ t q. most_objects q - t.objects;
      ticked = λ t u. Unit {0};
      tried = λ t q a u. Unit {0};
      kept = λ t k o u. Unit {0};
      unloaded = λ t p age gone u. Unit {0};
      synced = λ t went u. Unit {0};
    } };

    /// A place is the turn at which a request waited.
    type Place = u64;

    ghost leads = { λ t q p. p ≤ t.turns };

    ghost few = { λ t q. sub-le (most_objects q) t.objects };

    fn tick(&mut self) {
        self.turns = self.turns.saturating_add(1);
    }

    fn attempt(&mut self, alloc: Global, request: &Request, place: &mut Option<u64>) -> Attempt {
        self.handed = place.take();
        if !may_need(request) {
            return Attempt::Finished(Reply::Kind(Kind::Dir));
        }
        if self.objects == 0 {
            *place = Some(self.turns);
            return Attempt::Need(self.key);
        }
        Attempt::Finished(Reply::Data(Bytes::new(Vec::new(alloc))))
    }

    fn put(&mut self, key: Key, object: Object) -> Result<(), Object> {
        if !self.wide || key != self.key || self.objects > 0 {
            return Err(object);
        }
        self.objects = 1;
        Ok(())
    }

    fn unload(&mut self, _alloc: Global, _path: &Path, _older_than: u64) -> u64 {
        self.unloads = self.unloads.saturating_add(1);
        UNLOADED
    }

    fn obstacle(&self) -> Option<Obstacle> {
        None
    }

    fn sync(&mut self, _alloc: Global) -> bool {
        self.syncs = self.syncs.saturating_add(1);
        self.safe
    }
}
