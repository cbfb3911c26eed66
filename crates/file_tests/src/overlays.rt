//! What an overlay over files in memory stores, gets, removes and refuses.
ghost use Rattle.eden_overlay_format.specs.Directory.{AreStorable};

use crate::formats::{
    DIRECTORY, FILE, NEW_DIRECTORY, NEW_FILE, OWN_BODY, OWN_DIGEST, cut, one_file, stored, told,
};
use crate::kinds::reads;
use crate::steps::of_length;
use crate::told::require;
use eden_model::{Id, Origin, Outside};
use eden_overlay::{Files, GetFault, MemoryFiles, Overlay};
use eden_overlay_format::{CONTENT_MOST, Refusal, Spliced, State, StoredEntry};
use std::alloc::{AllocError, Global};
use std::process::Abort;

type InMemory = Overlay<Outside, MemoryFiles<Outside>>;

const STATE: State = State {
    root: Id { bytes: [0x11; 20] },
    next: 3,
};

const STATE_BODY: &[u8] =
    b"\x11\x11\x11\x11\x11\x11\x11\x11\x11\x11\x11\x11\x11\x11\x11\x11\x11\x11\x11\x11\0\0\0\0\0\0\0\x03";

// An overlay that holds a file, which was stored twice, the root's directory and the state.
fn filled_with(rt: &impl Abort, alloc: Global, entries: &[StoredEntry]) -> InMemory
    requires { AreStorable entries.now }
{
    let mut overlay = Overlay::<Outside, _>::new(alloc, MemoryFiles::<Outside>::new(alloc));
    overlay
        .put_file(alloc, 2, Spliced::whole(b"hello"))
        .expect(rt, "memory");
    overlay
        .put_file(alloc, 2, Spliced::whole(b"hi"))
        .expect(rt, "memory");
    overlay.put_dir(alloc, 1, entries).expect(rt, "memory");
    overlay.put_state(alloc, STATE).expect(rt, "memory");
    overlay
}

// The same, if the directory has the file `test.txt` alone.
fn filled(rt: &impl Abort, alloc: Global) -> InMemory {
    let entries = one_file(rt, alloc, Origin::Own);
    let overlay = filled_with(rt, alloc, entries.as_slice());
    drop(entries);
    overlay
}

// Whether file 2 has that content.
fn has_content(overlay: &mut InMemory, alloc: Global, want: &[u8]) -> bool {
    let answer = overlay.get_file(alloc, 2);
    let is_got = match &answer {
        Ok(content) => content.as_slice() == want,
        Err(_) => false,
    };
    drop(answer);
    is_got
}

// Whether the root's directory has the file `test.txt` alone.
fn has_one_file(overlay: &mut InMemory, alloc: Global) -> bool {
    let answer = overlay.get_dir(alloc, 1);
    let has_it = match &answer {
        Ok(entries) => entries.len() == 1 && entries[0].name.as_slice() == b"test.txt".as_slice(),
        Err(_) => false,
    };
    drop(answer);
    has_it
}

// Whether these are the numbers of the stored files.
fn lists(overlay: &mut InMemory, alloc: Global, want: &[u64]) -> bool {
    let answer = overlay.list(alloc);
    let is_listed = match &answer {
        Ok(numbers) => numbers.as_slice() == want,
        Err(_) => false,
    };
    drop(answer);
    is_listed
}

#[test]
fn files_are_got(rt: HostRuntime) {
    let mut overlay = filled(&rt, rt.alloc());
    require(
        &rt,
        has_content(&mut overlay, rt.alloc(), b"hi"),
        "the content",
    );
    require(&rt, has_one_file(&mut overlay, rt.alloc()), "the directory");
    require(&rt, overlay.get_state(rt.alloc()) == Ok(STATE), "the state");
    require(
        &rt,
        lists(&mut overlay, rt.alloc(), &[0, 1, 2]),
        "the numbers",
    );
    drop(overlay);
}

// The SHA-1 of the state's body.
const STATE_DIGEST: [u8; 20] = [
    0x74, 0xa8, 0xd0, 0x9a, 0xbe, 0xcd, 0xd7, 0x0e, 0x95, 0x53, 0x96, 0x48, 0x25, 0x60, 0xe4, 0x6c,
    0xba, 0x21, 0xea, 0x96,
];

// The SHA-1 of `hi`.
const HI: [u8; 20] = [
    0xc2, 0x2b, 0x5f, 0x91, 0x78, 0x34, 0x26, 0x09, 0x42, 0x8d, 0x6f, 0x51, 0xb2, 0xc5, 0xaf, 0x4c,
    0x0b, 0xde, 0x6a, 0x42,
];

// The files of that overlay: their numbers, the first bytes of their headers, the digests of their bodies, these, and
// their lengths.
const STORED: &[(u64, [u8; 8], [u8; 20], &[u8], usize)] = &[
    (0, NEW_FILE, STATE_DIGEST, STATE_BODY, 92),
    (1, NEW_DIRECTORY, OWN_DIGEST, OWN_BODY, 87),
    (2, NEW_FILE, HI, b"hi", 66),
];

#[test]
fn files_are_stored(rt: HostRuntime) {
    let mut files = filled(&rt, rt.alloc()).into_files();
    for (number, front, digest, body, len) in STORED {
        let bytes = told(&rt, rt.alloc(), front, digest, 0, body);
        let is_so = bytes.len() == *len && reads(&mut files, rt.alloc(), *number, &bytes);
        require(&rt, is_so, "each stored file");
    }
    drop(files);
}

// Whether file 2 could be given that content.
fn is_put(overlay: &mut InMemory, alloc: Global, content: &[u8]) -> bool {
    content.len() <= CONTENT_MOST && overlay.put_file(alloc, 2, Spliced::whole(content)).is_ok()
}

// File 2 is given that content, and has it then.
fn keep(rt: &impl Abort, alloc: Global, overlay: &mut InMemory, content: &[u8]) {
    require(rt, is_put(overlay, alloc, content), "a content put");
    require(
        rt,
        overlay.get_len(2) == Ok(content.len() as u64),
        "its length",
    );
    require(rt, has_content(overlay, alloc, content), "the content");
}

// One that is stored as it lies, and the longest that isn't.
#[test]
fn long_contents_are_stored(rt: HostRuntime) {
    let mut overlay = filled(&rt, rt.alloc());
    for length in &[(8 << 20) + 1, 8 << 20] {
        let long = of_length(rt.alloc(), *length).expect(&rt, "memory");
        keep(&rt, rt.alloc(), &mut overlay, &long);
    }
    keep(&rt, rt.alloc(), &mut overlay, b"hi");
    drop(overlay);
}

// Whether these bytes are got of file 2, from there on and at most this many.
fn is_part(overlay: &mut InMemory, alloc: Global, from: u64, most: u64, want: &[u8]) -> bool {
    let answer = overlay.get_part(alloc, 2, from, most);
    let is_got = match &answer {
        Ok(bytes) => bytes.as_slice() == want,
        Err(_) => false,
    };
    drop(answer);
    is_got
}

// A content of that length, whose last three bytes are `end`.
fn content_of(alloc: Global, length: usize) -> Result<Vec<u8>, AllocError> {
    let mut content = [7; 1].repeat(alloc, length.saturating_sub(3))?;
    content.extend_from_slice(b"end")?;
    Ok(content)
}

// Whether parts of file 2 are got, which has this many bytes, the last three of them `end`.
fn gives_parts(overlay: &mut InMemory, alloc: Global, length: u64) -> bool {
    let end = length.saturating_sub(3);
    is_part(overlay, alloc, 0, 2, &[7, 7])
        && is_part(overlay, alloc, end, 3, b"end")
        && is_part(overlay, alloc, end.saturating_add(1), u64::MAX, b"nd")
        && is_part(overlay, alloc, end, 0, b"")
        && is_part(overlay, alloc, length, 9, b"")
        && is_part(overlay, alloc, u64::MAX, u64::MAX, b"")
}

// Parts are got of an overlay that finds these files, again, and of what file 2 becomes.
fn get_found_parts(rt: &impl Abort, alloc: Global, files: MemoryFiles<Outside>, length: u64) {
    let mut overlay = Overlay::<Outside, _>::new(alloc, files);
    require(
        rt,
        gives_parts(&mut overlay, alloc, length),
        "parts of what is found",
    );
    require(
        rt,
        gives_parts(&mut overlay, alloc, length),
        "parts of what is kept",
    );
    require(
        rt,
        is_put(&mut overlay, alloc, b"hi"),
        "another content put",
    );
    require(rt, is_part(&mut overlay, alloc, 1, 9, b"i"), "a part of it");
    drop(overlay)
}

// The same, and of the overlay that stores a content of that length.
fn get_parts(rt: &impl Abort, alloc: Global, length: usize) {
    let content = content_of(alloc, length).expect(rt, "memory");
    let mut overlay = filled(rt, alloc);
    require(rt, is_put(&mut overlay, alloc, &content), "a content put");
    require(
        rt,
        gives_parts(&mut overlay, alloc, length as u64),
        "parts of what was put",
    );
    get_found_parts(rt, alloc, overlay.into_files(), length as u64);
}

// A short one, the longest that is kept once it is read, one that isn't, and one that is stored as it lies. Each is
// asked of the overlay that stored it, of one that finds it, and again after a change.
#[test]
fn parts_are_got(rt: HostRuntime) {
    for length in &[9, 1 << 20, (1 << 20) + 1, (8 << 20) + 1] {
        get_parts(&rt, rt.alloc(), *length);
    }
}

// Why no part of that file is got, from there on.
fn fault_of(overlay: &mut InMemory, alloc: Global, number: u64, from: u64) -> Option<GetFault> {
    overlay.get_part(alloc, number, from, 1).err()
}

// The files, in which the last byte of file 2 has changed.
fn damaged(rt: &impl Abort, alloc: Global, files: MemoryFiles<Outside>) -> MemoryFiles<Outside> {
    let mut files = files;
    let found = files.read(alloc, 2).expect(rt, "memory");
    let mut bytes = found.expect(rt, "a file");
    let last = bytes.pop().expect(rt, "a byte");
    bytes.push(last ^ 1).expect(rt, "memory");
    files.replace(alloc, 2, &bytes).expect(rt, "memory");
    files
}

const BAD_DIGEST: Option<GetFault> = Some(GetFault::Damaged(Refusal::BadDigest));

const BAD_IDENTIFIER: Option<GetFault> = Some(GetFault::Damaged(Refusal::BadIdentifier));

// Damage is told if file 2 has another digest and file 1 is a directory, and nothing once file 2 is removed.
fn get_no_parts(rt: &impl Abort, alloc: Global, files: MemoryFiles<Outside>, content: &[u8]) {
    let mut overlay = Overlay::<Outside, _>::new(alloc, files);
    require(
        rt,
        fault_of(&mut overlay, alloc, 2, 9) == BAD_DIGEST,
        "another digest",
    );
    require(
        rt,
        fault_of(&mut overlay, alloc, 1, 0) == BAD_IDENTIFIER,
        "a directory",
    );
    require(
        rt,
        is_put(&mut overlay, alloc, content),
        "a content put again",
    );
    overlay.remove(2).expect(rt, "removed");
    require(
        rt,
        fault_of(&mut overlay, alloc, 2, 0) == Some(GetFault::Absent),
        "removed",
    );
    drop(overlay)
}

// What isn't there, was removed, or has another digest than its header says gives no parts.
#[test]
fn no_parts_are_got_of_what_is_none(rt: HostRuntime) {
    let alloc = rt.alloc();
    let content = content_of(alloc, 2 << 20).expect(&rt, "memory");
    let mut overlay = filled(&rt, alloc);
    require(
        &rt,
        fault_of(&mut overlay, alloc, 7, 0) == Some(GetFault::Absent),
        "not there",
    );
    require(&rt, is_put(&mut overlay, alloc, &content), "a content put");
    let files = damaged(&rt, alloc, overlay.into_files());
    get_no_parts(&rt, alloc, files, &content);
}

// Takes the root's directory, the state and a file that isn't there out.
fn remove_some(rt: &impl Abort, overlay: &mut InMemory) {
    overlay.remove(1).expect(rt, "removed");
    overlay.remove_state().expect(rt, "removed");
    overlay.remove(7).expect(rt, "removed");
}

#[test]
fn files_are_removed(rt: HostRuntime) {
    let mut overlay = filled(&rt, rt.alloc());
    remove_some(&rt, &mut overlay);
    let absent = Some(GetFault::Absent);
    require(
        &rt,
        overlay.get_state(rt.alloc()).err() == absent,
        "no state",
    );
    require(
        &rt,
        overlay.get_dir(rt.alloc(), 1).err() == absent,
        "no directory",
    );
    require(
        &rt,
        overlay.get_file(rt.alloc(), 1).err() == absent,
        "no content",
    );
    require(
        &rt,
        has_content(&mut overlay, rt.alloc(), b"hi"),
        "the other content",
    );
    drop(overlay);
}

// An overlay over a file 3 of these bytes.
fn overlay_of(rt: &impl Abort, alloc: Global, bytes: &[u8]) -> InMemory {
    let mut files = MemoryFiles::<Outside>::new(alloc);
    files.replace(alloc, 3, bytes).expect(rt, "memory");
    Overlay::new(alloc, files)
}

// The fault of what is refused so, if it is.
fn fault(refusal: Option<Refusal>) -> Option<GetFault> {
    match refusal {
        None => None,
        Some(refusal) => Some(GetFault::Damaged(refusal)),
    }
}

// A stored file of these bytes is told as damaged so, as a directory and as a file.
fn tell(
    rt: &impl Abort,
    alloc: Global,
    bytes: &[u8],
    as_directory: Option<Refusal>,
    as_file: Option<Refusal>,
) {
    let mut overlay = overlay_of(rt, alloc, bytes);
    require(
        rt,
        overlay.get_dir(alloc, 3).err() == fault(as_directory),
        "as a directory",
    );
    require(
        rt,
        overlay.get_file(alloc, 3).err() == fault(as_file),
        "as a file",
    );
    drop(overlay)
}

// The front of a directory's file of a later version.
const LATER: [u8; 8] = [0x4f, 0x56, 0x44, 0x52, 0, 0, 0, 3];

// The front of one of version 2, whose length and digest aren't told here.
const UNTOLD: [u8; 8] = [0x4f, 0x56, 0x44, 0x52, 0, 0, 0, 2];

// The front and the body of a stored file, how many bytes of it there are, and how it is told.
const DAMAGES: &[(&[u8; 8], &[u8], usize, Option<Refusal>, Option<Refusal>)] = &[
    (
        &DIRECTORY,
        OWN_BODY,
        63,
        Some(Refusal::Short),
        Some(Refusal::Short),
    ),
    (&DIRECTORY, OWN_BODY, 87, None, Some(Refusal::BadIdentifier)),
    (&FILE, b"hi", 66, Some(Refusal::BadIdentifier), None),
    (
        &LATER,
        OWN_BODY,
        87,
        Some(Refusal::BadVersion),
        Some(Refusal::BadIdentifier),
    ),
    (
        &UNTOLD,
        OWN_BODY,
        87,
        Some(Refusal::BadLength),
        Some(Refusal::BadIdentifier),
    ),
    (
        &UNTOLD,
        b"",
        64,
        Some(Refusal::BadDigest),
        Some(Refusal::BadIdentifier),
    ),
    (
        &DIRECTORY,
        OWN_BODY,
        86,
        Some(Refusal::BadBody),
        Some(Refusal::BadIdentifier),
    ),
];

#[test]
fn damage_is_told(rt: HostRuntime) {
    for (front, body, len, as_directory, as_file) in DAMAGES {
        let bytes = stored(&rt, rt.alloc(), front.as_slice(), 0, body);
        let bytes = cut(&rt, bytes.as_slice(), *len);
        tell(&rt, rt.alloc(), bytes, *as_directory, *as_file);
    }
}
