// What is kept after puts and uses, by objects of Git, what a refused put leaves, and a cache of the greatest size.
ghost use Rattle.eden_model.specs.declared.id.ObjKind.TheVariants.{Blob};
ghost use Rattle.eden_object.specs.Objects.{IsFramed};

use eden_cache::{BYTES_LIMIT, OBJECTS_LIMIT, ObjectCache, SIZES_LIMIT};
use eden_model::{Id, Key, ObjKind};
use eden_object::{Object, check};
use linked_list_allocator::LocalHeap;
use std::alloc::{Allocator, Global};
use std::process::Abort;

#[derive(Clone, Copy)]
enum Sample {
    Version1,
    Version2,
    NewFile,
    TreeA,
    EmptyBlob,
}

use Sample::{EmptyBlob, NewFile, TreeA, Version1, Version2};

const SAMPLES: &[Sample] = &[Version1, Version2, NewFile, TreeA, EmptyBlob];

impl Sample {
    /// The id that Git gives.
    fn id(self) -> [u8; 20] {
        match self {
            Version1 => *b"\x83\xba\xaea\x80Ne\xccs\xa7 \x1arRu\x0cv\x06j0",
            Version2 => *b"\x1fzzG*\xbf=\xd9d?\xd6\x15\xf6\xda7\x9cJ\xcb>:",
            NewFile => *b"\xfaI\xb0w\x97#\x91\xadX\x03pP\xf2\xa7_t\xe3g\x1e\x92",
            TreeA => *b"\xd82\x9f\xc1\xcc\x93\x87\x80\xff\xdd\x9f\x94\xe0\xd3d\xe0\xeat\xf5y",
            EmptyBlob => *b"\xe6\x9d\xe2\x9b\xb2\xd1\xd6CK\x8b)\xaewZ\xd8\xc2\xe4\x8cS\x91",
        }
    }

    fn key(self) -> Key {
        let kind = match self {
            TreeA => ObjKind::Tree,
            _ => ObjKind::Blob,
        };
        Key {
            kind,
            id: Id { bytes: self.id() },
        }
    }

    fn framed(self) -> &'static [u8] {
        match self {
            Version1 => b"blob 10\0version 1\n",
            Version2 => b"blob 10\0version 2\n",
            NewFile => b"blob 9\0new file\n",
            TreeA => b"tree 36\0100644 test.txt\0\x83\xba\xaea\x80Ne\xccs\xa7 \x1arRu\x0cv\x06j0",
            EmptyBlob => b"blob 0\0",
        }
    }

    /// The object, checked.
    fn object(self, rt: &impl Abort, alloc: Global) -> Object {
        let key = self.key();
        let framed = Vec::from_slice(alloc, self.framed()).expect(rt, "memory");
        check(key.id, key.kind, framed.as_slice()).expect(rt, "an object");
        Object::new(key.kind, framed)
    }
}

/// Puts the sample into the cache. A refused one comes back.
fn put<A: Allocator + Clone>(
    rt: &impl Abort,
    alloc: Global,
    cache: &mut ObjectCache<A>,
    sample: Sample,
) -> Result<(), Object> {
    let object = sample.object(rt, alloc);
    let key = Key {
        kind: object.kind(),
        id: sample.key().id,
    };
    cache.put(key, object)
}

#[derive(Clone, Copy)]
enum Step {
    Put(Sample),
    Get(Sample),
}

use Step::{Get, Put};

/// A cache's bounds, what is done with it, and then the objects that are there and the lengths that are kept, each in
/// the order of the samples.
struct Row {
    entries: usize,
    bytes: u64,
    sizes: usize,
    steps: &'static [Step],
    objects: [bool; 5],
    lengths: [Option<u64>; 5],
    weight: u64,
}

const ROWS: &[Row] = &[
    // Too heavy for the bound, it is alone.
    Row {
        entries: 2,
        bytes: 10,
        sizes: 5,
        steps: &[Put(Version1), Put(TreeA)],
        objects: [false, false, false, true, false],
        lengths: [Some(10), None, None, None, None],
        weight: 36,
    },
    // The lightest can't stand beside it.
    Row {
        entries: 2,
        bytes: 10,
        sizes: 5,
        steps: &[Put(Version1), Put(TreeA), Put(EmptyBlob)],
        objects: [false, false, false, false, true],
        lengths: [Some(10), None, None, None, Some(0)],
        weight: 0,
    },
    // The one that was not used leaves, and its length stays.
    Row {
        entries: 2,
        bytes: 100,
        sizes: 5,
        steps: &[Put(Version1), Put(Version2), Get(Version1), Put(NewFile)],
        objects: [true, false, true, false, false],
        lengths: [Some(10), Some(10), Some(9), None, None],
        weight: 19,
    },
];

fn take_step<A: Allocator + Clone>(
    rt: &impl Abort,
    alloc: Global,
    cache: &mut ObjectCache<A>,
    step: Step,
) {
    match step {
        Put(sample) => put(rt, alloc, cache, sample).ok().expect(rt, "room"),
        Get(sample) => assert!(rt; holds(rt, cache, sample)),
    }
}

/// Whether the object is there, with its bytes.
fn holds<A: Allocator + Clone>(
    rt: &impl Abort,
    cache: &mut ObjectCache<A>,
    sample: Sample,
) -> bool {
    match cache.get(sample.key()) {
        None => false,
        Some(object) => {
            assert!(rt; sample.framed().ends_with(object.body()));
            true
        }
    }
}

fn take_steps<A: Allocator + Clone>(
    rt: &impl Abort,
    alloc: Global,
    cache: &mut ObjectCache<A>,
    steps: &[Step],
) {
    for step in steps {
        take_step(rt, alloc, cache, *step);
    }
}

/// Whether each sample and each length is there that has to be, and no other.
fn holds_these<A: Allocator + Clone>(
    rt: &impl Abort,
    cache: &mut ObjectCache<A>,
    row: &Row,
) -> bool {
    for (at, sample) in SAMPLES.iter().enumerate() {
        if row.objects.get(at) != Some(&holds(rt, cache, *sample))
            || row.lengths.get(at) != Some(&cache.size_of(sample.key().id))
        {
            return false;
        }
    }
    true
}

/// An empty cache of the row's bounds.
fn cache_of(rt: &impl Abort, alloc: Global, row: &Row) -> ObjectCache<Global> {
    assert!(rt; 1 <= row.entries && row.entries <= OBJECTS_LIMIT);
    assert!(rt; 1 <= row.bytes && row.bytes <= BYTES_LIMIT);
    assert!(rt; 1 <= row.sizes && row.sizes <= SIZES_LIMIT);
    ObjectCache::new(alloc, row.entries, row.bytes, row.sizes).expect(rt, "memory")
}

/// Takes the row's steps: whether the cache is then as the row says.
fn is_as_told(rt: &impl Abort, alloc: Global, row: &Row) -> bool {
    let mut cache = cache_of(rt, alloc, row);
    take_steps(rt, alloc, &mut cache, row.steps);
    let is_so = cache.usage().bytes == row.weight && holds_these(rt, &mut cache, row);
    drop(cache);
    is_so
}

#[test]
fn what_was_used_last_stays(rt: HostRuntime) {
    for (at, row) in ROWS.iter().enumerate() {
        assert!(rt; is_as_told(&rt, rt.alloc(), row), "at {at}");
    }
}

/// How far the samples went into a cache over a small heap: how many until one was refused, and how many lengths found
/// no memory.
#[derive(Clone, Copy)]
struct Reached {
    stored: usize,
    lengths_left_out: usize,
}

/// Whether a refused put handed the object back, and left no trace of it.
fn is_handed_back<A: Allocator + Clone>(
    rt: &impl Abort,
    cache: &mut ObjectCache<A>,
    sample: Sample,
    back: &Object,
) -> bool {
    sample.framed().ends_with(back.body())
        && !holds(rt, cache, sample)
        && cache.size_of(sample.key().id).is_none()
}

/// Whether a put found memory. A refused one changes nothing.
fn finds_memory<A: Allocator + Clone>(
    rt: &impl Abort,
    alloc: Global,
    cache: &mut ObjectCache<A>,
    sample: Sample,
) -> bool {
    let usage = cache.usage();
    match put(rt, alloc, cache, sample) {
        Ok(()) => true,
        Err(object) => {
            let is_unchanged = cache.usage() == usage;
            let is_handed_back = is_handed_back(rt, cache, sample, &object);
            drop(object);
            assert!(rt; is_unchanged && is_handed_back);
            false
        }
    }
}

/// Whether the sample's length is to be kept, and isn't.
fn lacks_length<A: Allocator + Clone>(cache: &mut ObjectCache<A>, sample: Sample) -> bool {
    sample.key().kind == ObjKind::Blob && cache.size_of(sample.key().id).is_none()
}

/// Puts the samples until one is refused.
fn fill<A: Allocator + Clone>(
    rt: &impl Abort,
    alloc: Global,
    cache: &mut ObjectCache<A>,
) -> Reached {
    let mut reached = Reached {
        stored: 0,
        lengths_left_out: 0,
    };
    for sample in SAMPLES {
        if !finds_memory(rt, alloc, cache, *sample) {
            return reached;
        }
        reached.stored = reached.stored.saturating_add(1);
        if lacks_length(cache, *sample) {
            reached.lengths_left_out = reached.lengths_left_out.saturating_add(1);
        }
    }
    reached
}

/// Puts the samples until one is refused. Those before it are there.
fn fill_and_look<A: Allocator + Clone>(
    rt: &impl Abort,
    alloc: Global,
    cache: &mut ObjectCache<A>,
) -> Reached {
    let reached = fill(rt, alloc, cache);
    for sample in SAMPLES.get(..reached.stored).expect(rt, "samples") {
        assert!(rt; holds(rt, cache, *sample));
    }
    reached
}

/// What a heap of that size has room for; none if it is not even that for an empty cache.
fn fill_heap(rt: &impl Abort, alloc: Global, heap: &LocalHeap) -> Option<Reached> {
    match ObjectCache::new(heap, 5, 100, 5) {
        Err(_) => None,
        Ok(mut cache) => {
            let reached = fill_and_look(rt, alloc, &mut cache);
            drop(cache);
            Some(reached)
        }
    }
}

/// What was met over heaps of each size: a refusal at each sample, a length left out, and room for all.
#[derive(Clone, Copy)]
struct Met {
    refused: [bool; 5],
    left_out: bool,
    all: bool,
}

impl Met {
    fn note(&mut self, reached: Reached) {
        if let Some(place) = self.refused.get_mut(reached.stored) {
            *place = true;
        }
        self.left_out = self.left_out || reached.lengths_left_out > 0;
        self.all = self.all || (reached.stored == 5 && reached.lengths_left_out == 0);
    }
}

/// What a heap of this many bytes has room for. It is given back whole.
fn reached_in(rt: &impl Abort, alloc: Global, bytes: usize) -> Option<Reached> {
    let heap = LocalHeap::new(alloc, bytes).expect(rt, "memory");
    let reached = fill_heap(rt, alloc, &heap);
    let used = heap.used();
    drop(heap);
    assert!(rt; used == 0);
    reached
}

#[test]
fn each_refused_put_hands_the_object_back(rt: HostRuntime) {
    let mut met = Met {
        refused: [false; 5],
        left_out: false,
        all: false,
    };
    for blocks in 0..256usize {
        if let Some(reached) = reached_in(&rt, rt.alloc(), blocks * 16) {
            met.note(reached);
        }
    }
    assert!(rt; met.refused == [true; 5] && met.left_out && met.all);
}

/// The blob of these framed bytes.
fn blob(rt: &impl Abort, alloc: Global, framed: &[u8]) -> Object
    requires { IsFramed Blob framed.now }
{
    let framed = Vec::from_slice(alloc, framed).expect(rt, "memory");
    Object::new(ObjKind::Blob, framed)
}

/// The id of that number.
fn numbered(number: usize) -> Id {
    let [a, b, c, d, e, f, g, h] = (number as u64).to_be_bytes();
    Id {
        bytes: [a, b, c, d, e, f, g, h, 0, 0, 0, 0, 0, 0, 0, 0, 0, 0, 0, 0],
    }
}

/// Puts this many equal blobs under one key after another.
fn put_many<A: Allocator + Clone>(
    rt: &impl Abort,
    alloc: Global,
    cache: &mut ObjectCache<A>,
    count: usize,
    framed: &[u8],
)
    requires { IsFramed Blob framed.now }
{
    for number in 0..count {
        let object = blob(rt, alloc, framed);
        let key = Key {
            kind: object.kind(),
            id: numbered(number),
        };
        cache.put(key, object).ok().expect(rt, "room");
    }
}

/// Whether the blob and the length of that number are there, or neither is.
fn keeps<A: Allocator + Clone>(cache: &mut ObjectCache<A>, number: usize, there: bool) -> bool {
    let id = numbered(number);
    let key = Key {
        kind: ObjKind::Blob,
        id,
    };
    cache.get(key).is_some() == there && cache.size_of(id).is_some() == there
}

/// Puts one blob more than a cache of the greatest size holds.
fn overfill<A: Allocator + Clone>(rt: &impl Abort, alloc: Global, cache: &mut ObjectCache<A>) {
    let framed = Version1.framed();
    assert!(rt; check(Version1.key().id, ObjKind::Blob, framed).is_ok());
    put_many(rt, alloc, cache, OBJECTS_LIMIT + 1, framed);
}

/// The cache is full of all but the first.
fn check_full<A: Allocator + Clone>(rt: &impl Abort, cache: &mut ObjectCache<A>) {
    let usage = cache.usage();
    assert!(rt; usage.objects == OBJECTS_LIMIT && usage.sizes == SIZES_LIMIT);
    for number in 0..OBJECTS_LIMIT + 1 {
        assert!(rt; keeps(cache, number, number > 0));
    }
}

#[test]
fn a_full_cache_lets_the_oldest_go(rt: HostRuntime) {
    let cache = ObjectCache::new(rt.alloc(), OBJECTS_LIMIT, BYTES_LIMIT, SIZES_LIMIT);
    let mut cache = cache.expect(&rt, "memory");
    overfill(&rt, rt.alloc(), &mut cache);
    check_full(&rt, &mut cache);
    drop(cache);
}
