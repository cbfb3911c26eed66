//! Loose objects.
use crate::written::{BAD, WRITTEN, Written};
use eden_git::{LooseSource, read_loose};
use eden_inflate::Decoder;
use eden_model::{Cause, Id, Outside};
use eden_object::parse_id;
use eden_source::Source;
use std::alloc::Global;
use std::fs::{self, Files};
use std::io;
use std::path::PathBuf;
use std::process::Abort;
use test_samples::{VERSION_2, empty_folder};

pub(crate) fn bytes_of(rt: &(impl AllocGlobal + Abort), digits: &str) -> Vec<u8> {
    hex::decode(rt.alloc(), digits).expect(rt, "digits")
}

/// The id of that text.
pub(crate) fn named(text: &str) -> Id {
    parse_id(text).unwrap_or(VERSION_2.id)
}

// Whether the answer is these framed bytes.
fn is_framed(
    rt: &(impl AllocGlobal + Abort),
    answer: &Result<Vec<u8>, Cause>,
    digits: &str,
) -> bool {
    match answer {
        Ok(framed) => *framed == bytes_of(rt, digits),
        Err(_) => false,
    }
}

// Whether the answer is that cause.
fn is_cause(answer: &Result<Vec<u8>, Cause>, want: Cause) -> bool {
    match answer {
        Ok(_) => false,
        Err(cause) => *cause == want,
    }
}

// Whether the object's file is read.
fn is_read(rt: &(impl AllocGlobal + Abort), decoder: &mut Decoder, written: &Written) -> bool {
    let file = bytes_of(rt, written.file);
    is_framed(rt, &read_loose(decoder, rt.alloc(), &file), written.framed)
}

#[test]
fn what_git_wrote_is_read(rt: HostRuntime) {
    let mut decoder = Decoder::new();
    for written in WRITTEN {
        assert!(rt; is_read(&rt, &mut decoder, written), "{}", written.id);
    }
}

// Whether a file is refused for that cause.
fn is_refused(alloc: Global, decoder: &mut Decoder, file: &[u8], cause: Cause) -> bool {
    is_cause(&read_loose(decoder, alloc, file), cause)
}

// Wherever the file of that object is cut, it is refused.
fn check_cut(rt: &(impl AllocGlobal + Abort), decoder: &mut Decoder, id: &str, file: &[u8]) {
    for end in 0..file.len() {
        assert!(rt;
            is_refused(rt.alloc(), decoder, &file[..end], Cause::Device),
            "{id}, cut at {end}"
        );
    }
}

// Whether the file is refused whose last byte, which is one of the checksum, is another.
fn is_refused_changed(
    rt: &(impl AllocGlobal + Abort),
    decoder: &mut Decoder,
    digits: &str,
) -> bool {
    let mut file = bytes_of(rt, digits);
    if let Some(byte) = file.last_mut() {
        *byte ^= 1;
    }
    is_refused(rt.alloc(), decoder, &file, Cause::Device)
}

#[test]
fn cut_and_changed_files_are_refused(rt: HostRuntime) {
    let mut decoder = Decoder::new();
    for written in WRITTEN {
        let id = written.id;
        check_cut(&rt, &mut decoder, id, &bytes_of(&rt, written.file));
        assert!(rt;
            is_refused_changed(&rt, &mut decoder, written.file),
            "{id}, changed"
        );
    }
}

// Whether a file of those digits is refused for that cause.
fn is_bad(
    rt: &(impl AllocGlobal + Abort),
    decoder: &mut Decoder,
    digits: &str,
    cause: Cause,
) -> bool {
    is_refused(rt.alloc(), decoder, &bytes_of(rt, digits), cause)
}

#[test]
fn what_is_no_object_is_refused(rt: HostRuntime) {
    let mut decoder = Decoder::new();
    for (name, digits, cause) in BAD {
        assert!(rt; is_bad(&rt, &mut decoder, digits, *cause), "{name}");
    }
}

fn try_to_put(
    rt: &(impl AllocGlobal + Abort + Files),
    folder: &PathBuf,
    place: &str,
    file: &[u8],
) -> io::Result<()> {
    let path = folder.join(rt.alloc(), place)?;
    if let Some(directory) = path.as_path().parent() {
        fs::create_dir_all(rt, directory)?;
    }
    fs::write(rt, path.as_path(), file)
}

/// Puts a file below a directory, and makes the directories above it.
pub(crate) fn put(
    rt: &(impl AllocGlobal + Abort + Files),
    folder: &PathBuf,
    place: &str,
    file: &[u8],
) {
    try_to_put(rt, folder, place, file).expect(rt, "a file");
}

/// Puts the file of an object below a directory of objects.
pub(crate) fn put_object(
    rt: &(impl AllocGlobal + Abort + Files),
    objects: &PathBuf,
    written: &Written,
) {
    put(rt, objects, written.place, &bytes_of(rt, written.file));
}

pub(crate) fn remove_folder(rt: &(impl AllocGlobal + Abort + Files), folder: &PathBuf) {
    fs::remove_dir_all(rt, folder.as_path()).expect(rt, "a folder");
}

/// Whether the source doesn't give that object for that cause, and tells this many failures then.
pub(crate) fn lacks<S: Source<Outside>>(
    source: &mut S,
    alloc: Global,
    id: Id,
    cause: Cause,
    failures: u64,
) -> bool {
    is_cause(&source.fetch(alloc, id), cause) && source.failures() == failures
}

/// It doesn't.
pub(crate) fn check_lack<S: Source<Outside>>(
    rt: &(impl AllocGlobal + Abort),
    source: &mut S,
    id: Id,
    cause: Cause,
    failures: u64,
) {
    assert!(rt; lacks(source, rt.alloc(), id, cause, failures));
}

// Whether the source gives the object.
fn gives<S: Source<Outside>>(
    rt: &(impl AllocGlobal + Abort),
    source: &mut S,
    written: &Written,
) -> bool {
    let answer = source.fetch(rt.alloc(), named(written.id));
    is_framed(rt, &answer, written.framed)
}

fn check_directory<S: Source<Outside>>(rt: &(impl AllocGlobal + Abort), source: &mut S) {
    for written in WRITTEN {
        assert!(rt; gives(rt, source, written), "{}", written.id);
    }
    check_lack(rt, source, Id { bytes: [7; 20] }, Cause::Missing, 0);
    check_lack(rt, source, VERSION_2.id, Cause::Device, 1);
}

// The objects, and a file that is no stream.
fn put_directory(rt: &(impl AllocGlobal + Abort + Files), folder: &PathBuf) {
    for written in WRITTEN {
        put_object(rt, folder, written);
    }
    let place = "1f/7a7a472abf3dd9643fd615f6da379c4acb3e3a";
    put(rt, folder, place, b"no stream");
}

#[test]
fn a_directory_of_objects_is_read(rt: HostRuntime) {
    let folder = empty_folder(&rt, "loose").expect(&rt, "a folder");
    put_directory(&rt, &folder);
    let at = folder.clone().expect(&rt, "memory");
    let mut source = LooseSource::new(rt.alloc(), &rt, at).expect(&rt, "memory");
    check_directory(&rt, &mut source);
    remove_folder(&rt, &folder);
}
