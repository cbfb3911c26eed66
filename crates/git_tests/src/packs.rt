//! Packed objects.
use crate::loose::{check_lack, lacks, named, put, put_object, remove_folder};
use crate::packed::{BY_NAMES, BY_OFFSETS, FIRST, FOURTH, IDS, PACKS, Packed, SECOND};
use crate::written::BLOB;
use eden_git::{GitFault, GitSource};
use eden_model::{Cause, Id, Outside};
use eden_object::id_of;
use eden_source::Source;
use std::alloc::Global;
use std::fs::{self, Files};
use std::path::PathBuf;
use std::process::Abort;
use test_samples::{EMPTY_BLOB, EMPTY_TREE, empty_folder};

pub(crate) const INDEX: &str = "objects/pack/pack-1.idx";

pub(crate) const MULTI: &str = "objects/pack/multi-pack-index";

fn put_files(rt: &(impl AllocGlobal + Abort + Files), folder: &PathBuf, pack: &[u8], index: &[u8]) {
    put(rt, folder, "objects/pack/pack-1.pack", pack);
    put(rt, folder, INDEX, index);
}

/// Puts the pack and its index into the repository in the directory.
pub(crate) fn put_pack(rt: &(impl AllocGlobal + Abort + Files), folder: &PathBuf, packed: &Packed) {
    put_files(rt, folder, &packed.pack(rt), &packed.index(rt));
}

fn remove(rt: &(impl AllocGlobal + Abort + Files), folder: &PathBuf, place: &str) {
    let path = folder.join(rt.alloc(), place).expect(rt, "memory");
    fs::remove_file(rt, path.as_path()).expect(rt, "a file");
}

fn try_to_open<'a, R: AllocGlobal + Abort + Files>(
    rt: &'a R,
    folder: &PathBuf,
) -> Result<GitSource<&'a R>, GitFault> {
    GitSource::open(rt.alloc(), rt, folder.clone()?)
}

pub(crate) fn open<'a, R: AllocGlobal + Abort + Files>(
    rt: &'a R,
    folder: &PathBuf,
) -> GitSource<&'a R> {
    try_to_open(rt, folder).expect(rt, "a repository")
}

/// Whether the source gives the object of that id: the bytes whose SHA-1 it is.
pub(crate) fn gives<S: Source<Outside>>(source: &mut S, alloc: Global, text: &str) -> bool {
    let id = named(text);
    match source.fetch(alloc, id) {
        Ok(framed) => id_of(&framed) == id,
        Err(_) => false,
    }
}

// The source gives the object of that id, or doesn't.
fn check<S: Source<Outside>>(
    rt: &(impl AllocGlobal + Abort),
    source: &mut S,
    text: &str,
    is_given: bool,
) {
    assert!(rt; gives(source, rt.alloc(), text) == is_given, "{text}");
}

/// Whether the source gives all objects of its pack.
pub(crate) fn gives_each<S: Source<Outside>>(source: &mut S, alloc: Global) -> bool {
    for id in IDS {
        if !gives(source, alloc, id) {
            return false;
        }
    }
    true
}

/// .. twice, and no other.
fn gives_all<S: Source<Outside>>(source: &mut S, alloc: Global) -> bool {
    gives_each(source, alloc)
        && gives_each(source, alloc)
        && lacks(source, alloc, Id { bytes: [7; 20] }, Cause::Missing, 0)
}

/// .. as the repository in the directory.
fn is_whole(rt: &(impl AllocGlobal + Abort + Files), folder: &PathBuf) -> bool {
    gives_all(&mut open(rt, folder), rt.alloc())
}

fn check_whole(rt: &(impl AllocGlobal + Abort + Files), folder: &PathBuf, name: &str, by: &str) {
    assert!(rt; is_whole(rt, folder), "{name} by {by}");
}

fn check_pack(rt: &(impl AllocGlobal + Abort + Files), folder: &PathBuf, packed: &Packed) {
    put_pack(rt, folder, packed);
    check_whole(rt, folder, packed.name, "its index");
    put(rt, folder, MULTI, &packed.multi(rt));
    check_whole(rt, folder, packed.name, "both");
    remove(rt, folder, INDEX);
    check_whole(rt, folder, packed.name, "the multi-pack index");
}

#[test]
fn packs_are_read(rt: HostRuntime) {
    for packed in PACKS {
        let folder = empty_folder(&rt, packed.name).expect(&rt, "a folder");
        check_pack(&rt, &folder, packed);
        remove_folder(&rt, &folder);
    }
}

// The repository in the directory fails to read an object of its pack.
fn check_failure(rt: &(impl AllocGlobal + Abort + Files), folder: &PathBuf) {
    check_lack(rt, &mut open(rt, folder), named(FIRST), Cause::Device, 1);
}

/// A multi-pack index that can't be read is as if it weren't there, but a pack that has no other index can't be read.
#[test]
fn a_bad_multi_pack_index_is_passed_over(rt: HostRuntime) {
    let folder = empty_folder(&rt, "bad").expect(&rt, "a folder");
    put_pack(&rt, &folder, &BY_OFFSETS);
    put(&rt, &folder, MULTI, b"MIDX");
    check_whole(&rt, &folder, "bad", "its index");
    remove(&rt, &folder, INDEX);
    check_failure(&rt, &folder);
    remove_folder(&rt, &folder);
}

/// Puts the blob's file below a directory of objects, which is there in the folder.
pub(crate) fn put_blob(rt: &(impl AllocGlobal + Abort + Files), folder: &PathBuf, place: &str) {
    let objects = folder.join(rt.alloc(), place).expect(rt, "memory");
    put_object(rt, &objects, &BLOB);
}

// The source of a directory sees what comes into it, and reads what is open after its removal.
fn check_later<S: Source<Outside>>(
    rt: &(impl AllocGlobal + Abort + Files),
    folder: &PathBuf,
    source: &mut S,
) {
    check(rt, source, FIRST, false);
    put_pack(rt, folder, &BY_NAMES);
    check(rt, source, FIRST, true);
    put_blob(rt, folder, "objects");
    check(rt, source, BLOB.id, true);
    remove_folder(rt, folder);
    check(rt, source, SECOND, true);
    check(rt, source, BLOB.id, false);
}

// A repository without objects.
fn put_nothing(rt: &(impl AllocGlobal + Abort + Files), folder: &PathBuf) {
    put(rt, folder, "objects/info/packs", b"");
}

#[test]
fn what_comes_later_is_seen(rt: HostRuntime) {
    let folder = empty_folder(&rt, "later").expect(&rt, "a folder");
    put_nothing(&rt, &folder);
    check_later(&rt, &folder, &mut open(&rt, &folder));
}

fn gives_empty_tree<S: Source<Outside>>(source: &mut S, alloc: Global) -> bool {
    match source.fetch(alloc, EMPTY_TREE.id) {
        Ok(framed) => framed.as_slice() == EMPTY_TREE.framed,
        Err(_) => false,
    }
}

// The empty tree alone is given.
fn check_empty<S: Source<Outside>>(rt: &(impl AllocGlobal + Abort), source: &mut S) {
    assert!(rt; gives_empty_tree(source, rt.alloc()));
    check_lack(rt, source, EMPTY_BLOB.id, Cause::Missing, 0);
}

#[test]
fn the_empty_tree_needs_no_place(rt: HostRuntime) {
    let folder = empty_folder(&rt, "nothing").expect(&rt, "a folder");
    put_nothing(&rt, &folder);
    check_empty(&rt, &mut open(&rt, &folder));
    remove_folder(&rt, &folder);
}

// The objects of `last` are to be found from `first`, by way of `second`.
fn put_alternates(rt: &(impl AllocGlobal + Abort + Files), folder: &PathBuf) {
    put(
        rt,
        folder,
        "first/objects/info/alternates",
        b"# none\n../../second/objects\n",
    );
    put(
        rt,
        folder,
        "second/objects/info/alternates",
        b"../../last/objects\n../../first/objects",
    );
    put_blob(rt, folder, "last/objects");
    let last = folder.join(rt.alloc(), "last").expect(rt, "memory");
    put_pack(rt, &last, &BY_OFFSETS);
}

// An object of the pack and a loose one are given.
fn check_both<S: Source<Outside>>(rt: &(impl AllocGlobal + Abort), source: &mut S) {
    check(rt, source, FOURTH, true);
    check(rt, source, BLOB.id, true);
}

#[test]
fn alternates_are_looked_into(rt: HostRuntime) {
    let folder = empty_folder(&rt, "alternates").expect(&rt, "a folder");
    put_alternates(&rt, &folder);
    let first = folder.join(rt.alloc(), "first").expect(&rt, "memory");
    check_both(&rt, &mut open(&rt, &first));
    remove_folder(&rt, &folder);
}

fn flip(bytes: &mut Vec<u8>, at: usize, bits: u8) {
    if let Some(byte) = bytes.get_mut(at) {
        *byte ^= bits;
    }
}

/// A pack and its indexes.
#[derive(Drop)]
struct Trio {
    pack: Vec<u8>,
    index: Vec<u8>,
    multi: Vec<u8>,
}

// Changes a byte of each, and puts them into the directory.
fn put_changed(
    rt: &(impl AllocGlobal + Abort + Files),
    folder: &PathBuf,
    files: &mut Trio,
    which: u8,
) {
    let at = usize::from(which);
    flip(&mut files.pack, at * 17, 1 << (which % 8));
    flip(&mut files.index, 1032 + at * 6, 128 >> (which % 8));
    put_files(rt, folder, &files.pack, &files.index);
    // Of this one one bit alone is another.
    flip(&mut files.multi, at * 24, 1 << (which % 8));
    put(rt, folder, MULTI, &files.multi);
    flip(&mut files.multi, at * 24, 1 << (which % 8));
}

/// Whether there is an answer for that id.
fn answers<S: Source<Outside>>(source: &mut S, alloc: Global, text: &str) -> bool {
    match source.fetch(alloc, named(text)) {
        Ok(_) => true,
        Err(cause) => {
            source.failures() > 0 || cause == Cause::Missing || cause == Cause::TooLarge
        }
    }
}

fn check_answers<S: Source<Outside>>(rt: &(impl AllocGlobal + Abort), source: &mut S, which: u8) {
    for id in IDS {
        assert!(rt; answers(source, rt.alloc(), id), "change {which}, {id}");
    }
}

fn make_trio(rt: &(impl AllocGlobal + Abort)) -> Trio {
    Trio {
        pack: BY_NAMES.pack(rt),
        index: BY_NAMES.index(rt),
        multi: BY_NAMES.multi(rt),
    }
}

fn check_changes(rt: &(impl AllocGlobal + Abort + Files), folder: &PathBuf, files: &mut Trio) {
    for which in 0..60 {
        put_changed(rt, folder, files, which);
        check_answers(rt, &mut open(rt, folder), which);
    }
}

/// Whatever byte of a pack or of its indexes is changed, there is an answer for each id.
#[test]
fn changed_packs_are_answered(rt: HostRuntime) {
    let folder = empty_folder(&rt, "changed").expect(&rt, "a folder");
    check_changes(&rt, &folder, &mut make_trio(&rt));
    remove_folder(&rt, &folder);
}

/// A delta of the one after it, as is that one, and the last of an object that stands whole.
const TIP: &str = "f2280dbd787c9c0382c90dfeb086b1dc41a34cce";

const CHAIN: &[&str] = &[
    TIP,
    "6cc495e46860f315583f33cbdd5210cde96ed2a9",
    "aebfff09ad32f8fd894b6c77e2f32bdda92e503d",
];

/// Where the last one names its base.
const LAST_BASE: usize = 849;

// The pack in which the last one's base is the first.
fn circle(rt: &(impl AllocGlobal + Abort)) -> Vec<u8> {
    let mut pack = BY_NAMES.pack(rt);
    for (at, byte) in named(TIP).bytes.iter().enumerate() {
        if let Some(place) = pack.get_mut(LAST_BASE + at) {
            *place = *byte;
        }
    }
    pack
}

fn put_circle(rt: &(impl AllocGlobal + Abort + Files), folder: &PathBuf) {
    put_files(rt, folder, &circle(rt), &BY_NAMES.index(rt));
}

fn check_circle<S: Source<Outside>>(rt: &(impl AllocGlobal + Abort), source: &mut S) {
    for id in IDS {
        check(rt, source, id, !CHAIN.contains(id));
    }
    assert!(rt; source.failures() == 3);
}

#[test]
fn a_circle_of_deltas_fails(rt: HostRuntime) {
    let folder = empty_folder(&rt, "circle").expect(&rt, "a folder");
    put_circle(&rt, &folder);
    check_circle(&rt, &mut open(&rt, &folder));
    remove_folder(&rt, &folder);
}
