// Puts into a cache that is full and gets from it, at a small and at a large number of objects.
ghost use Rattle.std.specs.Prelude.{◌≤◌};

use crate::bench::Bench;
use eden_cache::{BYTES_LIMIT, OBJECTS_LIMIT, ObjectCache};
use eden_model::{Id, Key, ObjKind};
use eden_object::{Object, id_of};
use std::alloc::{AllocError, Global};
use std::io;

/// The two numbers of objects that are compared.
const FEW: u32 = 1_024;

const MANY: u32 = 65_536;

/// The object that is put, under one key after another.
const FRAMED: &[u8] = b"blob 10\0version 1\n";

/// How long a call takes, in nanoseconds; none if times aren't printed.
#[derive(Clone, Copy)]
struct Times {
    put: Option<f64>,
    get: Option<f64>,
}

/// What came of the calls of one kind, and how long each took.
#[derive(Clone, Copy)]
struct Timed {
    /// How many were refused, or found their object.
    number: u32,
    each: Option<f64>,
}

/// Knuth's linear congruential generator, its upper half.
fn random(state: &mut u64) -> u32 {
    *state = state
        .wrapping_mul(6364136223846793005)
        .wrapping_add(1442695040888963407);
    (*state >> 32) as u32
}

/// The next id, one of twice as many as there may be objects.
fn next_id(state: &mut u64, entries: u32) -> Id {
    let number = u64::from(random(state)).checked_rem(u64::from(entries).saturating_mul(2));
    let mut bytes = [0; 20];
    bytes[..8].copy_from_slice(&number.unwrap_or(0).to_be_bytes());
    Id { bytes }
}

/// Adds the blob of those bytes.
fn add(alloc: Global, objects: &mut Vec<Object>, key: Key) -> Result<(), AllocError> {
    let framed = Vec::from_slice(alloc, FRAMED)?;
    match Object::checked(alloc, key, framed) {
        Err(_) => Ok(()),
        Ok(object) => Ok(objects.push(object)?),
    }
}

/// This many times that blob.
fn objects(alloc: Global, count: u32) -> Result<Vec<Object>, AllocError> {
    let key = Key {
        kind: ObjKind::Blob,
        id: id_of(FRAMED),
    };
    let mut objects = Vec::new(alloc);
    for _ in 0..count {
        add(alloc, &mut objects, key)?;
    }
    Ok(objects)
}

/// Puts each of the objects, and answers how many were refused.
fn put_all(cache: &mut ObjectCache<Global>, objects: &mut Vec<Object>, entries: u32) -> u32 {
    let mut state = 1;
    let mut refused = 0u32;
    for _ in 0..objects.len() {
        if let Some(object) = objects.pop() {
            let key = Key {
                kind: object.kind(),
                id: next_id(&mut state, entries),
            };
            if cache.put(key, object).is_err() {
                refused = refused.saturating_add(1);
            }
        }
    }
    refused
}

/// Looks this many keys up, and answers how many were there.
fn get_all(cache: &mut ObjectCache<Global>, count: u32, entries: u32) -> u32 {
    let mut state = 2;
    let mut found = 0u32;
    for _ in 0..count {
        let key = Key {
            kind: ObjKind::Blob,
            id: next_id(&mut state, entries),
        };
        if cache.get(key).is_some() {
            found = found.saturating_add(1);
        }
    }
    found
}

/// Puts this many objects.
fn time_puts(
    bench: Bench,
    cache: &mut ObjectCache<Global>,
    count: u32,
    entries: u32,
) -> Result<Timed, AllocError> {
    let mut objects = objects(bench.alloc(), count)?;
    let start = bench.start();
    let number = put_all(cache, &mut objects, entries);
    let each = bench.nanoseconds_each(start, count);
    Ok(Timed { number, each })
}

/// Looks this many keys up.
fn time_gets(bench: Bench, cache: &mut ObjectCache<Global>, count: u32, entries: u32) -> Timed {
    let start = bench.start();
    let number = get_all(cache, count, entries);
    let each = bench.nanoseconds_each(start, count);
    Timed { number, each }
}

/// Fills the cache, puts this many objects more and looks this many up.
fn measure_calls(
    bench: Bench,
    cache: &mut ObjectCache<Global>,
    count: u32,
    entries: u32,
) -> io::Result<Times> {
    let filled = time_puts(bench, cache, entries.saturating_mul(2), entries)?;
    let put = time_puts(bench, cache, count, entries)?;
    let get = time_gets(bench, cache, count, entries);
    let (refused, found) = (put.number.saturating_add(filled.number), get.number);
    println!(bench.rt;
        "cache of {entries}: {refused} of {count} puts refused, {found} of {count} gets found their object"
    )?;
    Ok(Times {
        put: put.each,
        get: get.each,
    })
}

fn measure(bench: Bench, count: u32, entries: u32) -> io::Result<Times>
    requires { (1 ≤ entries) × (entries ≤ OBJECTS_LIMIT) }
{
    let most = entries as usize;
    let mut cache = ObjectCache::new(bench.alloc(), most, BYTES_LIMIT, most)?;
    let times = measure_calls(bench, &mut cache, count, entries)?;
    let usage = cache.usage();
    println!(bench.rt;
        "  it holds {} objects of {} bytes, and {} sizes",
        usage.objects, usage.bytes, usage.sizes
    )?;
    Ok(times)
}

/// Prints how long a call takes at each size, and the ratio between the two, if times are printed.
fn tell(bench: Bench, call: &str, few: Option<f64>, many: Option<f64>) -> io::Result<()> {
    match (few, many) {
        (Some(few), Some(many)) => {
            let ratio = many / few;
            println!(bench.rt;
                "  {call}: {few:.0} ns at {FEW}, {many:.0} ns at {MANY}, ratio {ratio:.2}"
            )
        }
        _ => Ok(()),
    }
}

/// This many puts into a full cache of each size and this many gets from it. Timed, it prints how long a call takes at
/// each size, and the ratio between the two.
pub fn run(bench: Bench, count: u32) -> io::Result<()> {
    let few = measure(bench, count, FEW)?;
    let many = measure(bench, count, MANY)?;
    tell(bench, "put", few.put, many.put)?;
    tell(bench, "get", few.get, many.get)
}
