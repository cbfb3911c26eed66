//! Packs that can't be opened at first, and what is packed anew then.
use crate::loose::{check_lack, named, put, remove_folder};
use crate::packed::{BY_NAMES, BY_OFFSETS, FIRST};
use crate::packs::{INDEX, MULTI, gives_each, open, put_pack};
use eden_model::{Cause, Id, Outside};
use eden_source::Source;
use std::fs::Files;
use std::os::unix::fs::symlink;
use std::path::PathBuf;
use std::process::Abort;
use test_samples::empty_folder;

const PACK: &str = "objects/pack/pack-1.pack";

/// What no repository has.
const NOTHING: Id = Id { bytes: [7; 20] };

/// An object is found that is in the pack, and one that is in none isn't, for that cause.
fn check_found<S: Source<Outside>>(
    rt: &(impl AllocGlobal + Abort),
    source: &mut S,
    cause: Cause,
    failures: u64,
) {
    assert!(rt; gives_each(source, rt.alloc()));
    check_lack(rt, source, NOTHING, cause, failures);
}

/// Neither is found, and each time the device failed.
fn check_damaged<S: Source<Outside>>(rt: &(impl AllocGlobal + Abort), source: &mut S) {
    check_lack(rt, source, named(FIRST), Cause::Device, 1);
    check_lack(rt, source, NOTHING, Cause::Device, 2);
}

// A pack of which that file is a bad one.
fn put_damaged(rt: &(impl AllocGlobal + Abort + Files), folder: &PathBuf, place: &str) {
    put_pack(rt, folder, &BY_OFFSETS);
    put(rt, folder, place, b"bad");
}

// Another one with the same objects.
fn put_second(rt: &(impl AllocGlobal + Abort + Files), folder: &PathBuf) {
    put(rt, folder, "objects/pack/pack-2.pack", &BY_NAMES.pack(rt));
    put(rt, folder, "objects/pack/pack-2.idx", &BY_NAMES.index(rt));
}

fn check_later<S: Source<Outside>>(
    rt: &(impl AllocGlobal + Abort + Files),
    folder: &PathBuf,
    source: &mut S,
) {
    check_damaged(rt, source);
    put_second(rt, folder);
    check_found(rt, source, Cause::Device, 3);
    put_pack(rt, folder, &BY_OFFSETS);
    check_found(rt, source, Cause::Missing, 3);
}

/// What a pack has that couldn't be opened is found in one that comes later; and once it can be opened, what is in none
/// is missing.
#[test]
fn a_damaged_pack_hides_none_that_comes_later(rt: HostRuntime) {
    for place in [INDEX, PACK] {
        let folder = empty_folder(&rt, "damaged").expect(&rt, "a folder");
        put_damaged(&rt, &folder, place);
        check_later(&rt, &folder, &mut open(&rt, &folder));
        remove_folder(&rt, &folder);
    }
}

fn check_mended<S: Source<Outside>>(
    rt: &(impl AllocGlobal + Abort + Files),
    folder: &PathBuf,
    source: &mut S,
) {
    check_damaged(rt, source);
    put_pack(rt, folder, &BY_OFFSETS);
    check_found(rt, source, Cause::Missing, 2);
}

/// A pack that can be opened later, by the same names, is read.
#[test]
fn a_damaged_pack_is_tried_again(rt: HostRuntime) {
    for place in [INDEX, PACK] {
        let folder = empty_folder(&rt, "mended").expect(&rt, "a folder");
        put_damaged(&rt, &folder, place);
        check_mended(&rt, &folder, &mut open(&rt, &folder));
        remove_folder(&rt, &folder);
    }
}

fn check_multi<S: Source<Outside>>(
    rt: &(impl AllocGlobal + Abort + Files),
    folder: &PathBuf,
    source: &mut S,
) {
    check_damaged(rt, source);
    put(rt, folder, MULTI, &BY_OFFSETS.multi(rt));
    check_found(rt, source, Cause::Missing, 2);
}

/// .. and so is a multi-pack index, which is the only one of its pack.
#[test]
fn a_damaged_multi_pack_index_is_tried_again(rt: HostRuntime) {
    let folder = empty_folder(&rt, "multi").expect(&rt, "a folder");
    put(&rt, &folder, PACK, &BY_OFFSETS.pack(&rt));
    put(&rt, &folder, MULTI, b"MIDX");
    check_multi(&rt, &folder, &mut open(&rt, &folder));
    remove_folder(&rt, &folder);
}

// A pack that is there when the directory is listed, and gone when it is opened: its name leads nowhere.
fn put_gone(rt: &(impl AllocGlobal + Abort + Files), folder: &PathBuf) {
    put(rt, folder, INDEX, &BY_OFFSETS.index(rt));
    let path = folder.join(rt.alloc(), PACK).expect(rt, "memory");
    symlink(rt, "../later", path.as_path()).expect(rt, "a link");
}

fn check_gone<S: Source<Outside>>(
    rt: &(impl AllocGlobal + Abort + Files),
    folder: &PathBuf,
    source: &mut S,
) {
    check_lack(rt, source, named(FIRST), Cause::Missing, 0);
    put(rt, folder, "objects/later", &BY_OFFSETS.pack(rt));
    check_found(rt, source, Cause::Missing, 0);
}

/// What a pack had that was gone when it was opened is found once it is packed anew, also by the same name.
#[test]
fn a_pack_that_was_gone_is_found_again(rt: HostRuntime) {
    let folder = empty_folder(&rt, "gone").expect(&rt, "a folder");
    put_gone(&rt, &folder);
    check_gone(&rt, &folder, &mut open(&rt, &folder));
    remove_folder(&rt, &folder);
}
