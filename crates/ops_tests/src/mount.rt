//! A table over files that stop, with its object cache, and one attempt of any request on it.

ghost use Rattle.std.specs.Prelude.{◌≡◌};

use eden_cache::{ObjectCache, Stock};
use eden_inode::Inodes;
use eden_model::{Attempt, Key, Origin, Outside, Reply, Request};
use eden_object::Object;
use eden_ops::attempt;
use eden_overlay::{MemoryFiles, Overlay, StopFiles};
use std::alloc::Global;
use std::cell::Cell;
use std::process::Abort;
use std::rc::Rc;
use test_samples::{
    ALL_KINDS, NEW_FILE, ONE_FILE, Sample, TARGET, TWO_FILES, VERSION_1, VERSION_2,
};

/// The most attempts of one request: each needs another object, or one that was lost since.
pub(crate) const TRIES: u32 = 1_000;

/// The longest content that stays in memory, if a test doesn't say otherwise.
pub(crate) const KEPT: u64 = 1 << 20;

/// The objects that an attempt may need.
const OBJECTS: &[Sample] = &[
    ALL_KINDS, TWO_FILES, ONE_FILE, NEW_FILE, TARGET, VERSION_1, VERSION_2,
];

pub(crate) type Table = Inodes<Global, Outside, StopFiles<MemoryFiles<Outside>>>;

/// A table, its object cache, and how many calls on its files still pass.
#[derive(Drop)]
pub(crate) struct Mount {
    pub(crate) alloc: Global,
    pub(crate) table: Table,
    pub(crate) cache: Stock<Outside, Global>,
    pub(crate) calls: Rc<Cell<u64>>,
}

pub(crate) fn key_of(object: Sample) -> Key {
    Key {
        kind: object.kind,
        id: object.id,
    }
}

/// The object of a key.
fn object_of(rt: &impl Abort, key: Key) -> Sample {
    for object in OBJECTS {
        if key_of(*object) == key {
            return *object;
        }
    }
    None.expect(rt, "an object of the repository")
}

impl Mount {
    /// A mount of that tree, over no files, whose cache holds this many objects: 1 to 8. All calls pass.
    pub(crate) fn open(rt: &impl Abort, alloc: Global, root: Sample, objects: usize) -> Mount {
        Mount::keeping(rt, alloc, root, objects, KEPT)
    }

    /// The same, if an own content of at most this many bytes stays in memory.
    pub(crate) fn keeping(
        rt: &impl Abort,
        alloc: Global,
        root: Sample,
        objects: usize,
        kept: u64,
    ) -> Mount {
        assert!(rt; 1 <= objects && objects <= 8);
        let calls = Rc::new(alloc, Cell::new(u64::MAX)).expect(rt, "memory");
        let shared = calls.clone().expect(rt, "memory");
        let files = StopFiles::new(MemoryFiles::<Outside>::new(alloc), shared);
        let overlay = Overlay::new(alloc, files).keeping(kept);
        let cache = ObjectCache::new(alloc, objects, 1 << 20, 8).expect(rt, "memory");
        Mount {
            alloc,
            table: Inodes::new(alloc, overlay, Origin::Object(root.id), 2),
            cache: Stock::new(cache),
            calls,
        }
    }

    pub(crate) fn attempt(&mut self, request: &Request) -> Attempt {
        attempt(&mut self.table, &mut self.cache, self.alloc, request)
    }

    /// Puts an object into the cache.
    pub(crate) fn put(&mut self, rt: &impl Abort, object: Sample)
        ensures { self.new.table ≡ self.old.table }
    {
        let key = key_of(object);
        let framed = object.framed.to_vec(self.alloc).expect(rt, "memory");
        let object = Object::checked(self.alloc, key, framed).expect(rt, "an object");
        assert!(rt; self.cache.put(key, object).is_ok());
    }

    /// One attempt; what it needs is put into the cache then. None if it needs something.
    pub(crate) fn turn(&mut self, rt: &impl Abort, request: &Request) -> Option<Reply> {
        match self.attempt(request) {
            Attempt::Finished(reply) => Some(reply),
            Attempt::Need(key) => {
                self.put(rt, object_of(rt, key));
                None
            }
        }
    }

    /// Attempts till there is a reply.
    pub(crate) fn answer(&mut self, rt: &impl Abort, request: &Request) -> Reply {
        for _ in 0..TRIES {
            if let Some(reply) = self.turn(rt, request) {
                return reply;
            }
        }
        None.expect(rt, "a reply")
    }
}
