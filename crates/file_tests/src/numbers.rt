//! The numbers of a directory that stands on a tree object: what is written, read and refused, and how an overlay has
//! them.

use crate::formats::{NEW_DIRECTORY, NEW_FILE, cut, one_file, stored, told};
use crate::kinds::reads;
use crate::told::require;
use eden_model::{Id, Kind, Origin, Outside};
use eden_overlay::{Files, GetFault, MemoryFiles, Overlay};
use eden_overlay_format::{
    DecodeFault, Listing, Refusal, StoredEntry, decode_dir, decode_file, decode_numbers,
    encode_numbers,
};
use std::alloc::Global;
use std::process::Abort;

/// How stored numbers of version 1 begin, and those of version 2.
pub const NUMBERS: [u8; 8] = [0x4f, 0x56, 0x44, 0x4e, 0, 0, 0, 1];

const NEW_NUMBERS: [u8; 8] = [0x4f, 0x56, 0x44, 0x4e, 0, 0, 0, 2];

/// The id of Git's tree with the file `test.txt` alone, which has the ten bytes `version 1` and a line feed.
const TREE: [u8; 20] = [
    0xd8, 0x32, 0x9f, 0xc1, 0xcc, 0x93, 0x87, 0x80, 0xff, 0xdd, 0x9f, 0x94, 0xe0, 0xd3, 0x64, 0xe0,
    0xea, 0x74, 0xf5, 0x79,
];

/// The id of that file's blob.
const BLOB: [u8; 20] = [
    0x83, 0xba, 0xae, 0x61, 0x80, 0x4e, 0x65, 0xcc, 0x73, 0xa7, 0x20, 0x1a, 0x72, 0x52, 0x75, 0x0c,
    0x76, 0x06, 0x6a, 0x30,
];

/// The body of that tree's numbers, if the file has 2.
const BODY: &[u8] =
    b"\xd8\x32\x9f\xc1\xcc\x93\x87\x80\xff\xdd\x9f\x94\xe0\xd3\x64\xe0\xea\x74\xf5\x79\
    \x00\x00\x00\x01\x00\x00\x00\x00\x00\x00\x00\x00\x00\x02\
    \x83\xba\xae\x61\x80\x4e\x65\xcc\x73\xa7\x20\x1a\x72\x52\x75\x0c\x76\x06\x6a\x30\x08test.txt";

/// The SHA-1 of that body.
const DIGEST: [u8; 20] = [
    0x77, 0x18, 0x8c, 0xd3, 0x88, 0x36, 0xaf, 0xa6, 0xf7, 0xcb, 0x43, 0xb2, 0xb1, 0x1f, 0xc2, 0x18,
    0x6a, 0xfa, 0x23, 0x1f,
];

fn is_test_txt(entry: &StoredEntry) -> bool {
    entry.name.as_slice() == b"test.txt".as_slice()
        && entry.kind == Kind::File
        && entry.origin == Origin::Object(Id { bytes: BLOB })
        && entry.number == 2
}

/// Whether the file is read as that tree's numbers.
fn are_numbers(alloc: Global, file: &[u8]) -> bool {
    let answer = decode_numbers(alloc, file);
    let are_they = match &answer {
        Err(_) => false,
        Ok(numbers) => {
            numbers.tree == Id { bytes: TREE }
                && numbers.entries.len() == 1
                && is_test_txt(&numbers.entries[0])
        }
    };
    drop(answer);
    are_they
}

/// The file is read so, and as nothing else.
fn read(rt: &impl Abort, alloc: Global, file: &[u8]) {
    require(rt, are_numbers(alloc, file), "the tree's numbers");
    require(
        rt,
        decode_file(file).err() == Some(Refusal::BadIdentifier),
        "no content",
    );
    let fault = decode_dir(alloc, file).err();
    let want = DecodeFault::Refused(Refusal::BadIdentifier);
    require(rt, fault == Some(want), "no directory");
}

#[test]
fn numbers_are_read(rt: HostRuntime) {
    read(
        &rt,
        rt.alloc(),
        &told(&rt, rt.alloc(), &NEW_NUMBERS, &DIGEST, 0, BODY),
    );
    read(&rt, rt.alloc(), &stored(&rt, rt.alloc(), &NUMBERS, 7, BODY));
}

/// Why the file is refused; none where it is read, or no memory was left.
fn refusal(alloc: Global, file: &[u8]) -> Option<Refusal> {
    match decode_numbers(alloc, file) {
        Err(DecodeFault::Refused(refusal)) => Some(refusal),
        Err(DecodeFault::Memory) | Ok(_) => None,
    }
}

/// An id, and the count of no entries.
const NO_ENTRIES: &[u8] =
    b"\x22\x22\x22\x22\x22\x22\x22\x22\x22\x22\x22\x22\x22\x22\x22\x22\x22\x22\x22\x22\x00\x00\x00\x00";

/// An id, and an entry whose contents are in the overlay.
const OWN_ENTRY: &[u8] =
    b"\x22\x22\x22\x22\x22\x22\x22\x22\x22\x22\x22\x22\x22\x22\x22\x22\x22\x22\x22\x22\
    \x00\x00\x00\x01\x00\x01\x00\x00\x00\x00\x00\x00\x00\x05\x01a";

/// How a file of version 2 begins, its digest, how many bytes of it there are, of 127, and why it is refused.
const BAD: &[(&[u8], &[u8], usize, Refusal)] = &[
    (&NEW_NUMBERS, &DIGEST, 63, Refusal::Short),
    (&NEW_NUMBERS, &DIGEST, 126, Refusal::BadLength),
    (&NEW_NUMBERS, &TREE, 127, Refusal::BadDigest),
    (&NEW_FILE, &DIGEST, 127, Refusal::BadIdentifier),
    (&NEW_DIRECTORY, &DIGEST, 127, Refusal::BadIdentifier),
];

/// The body of one of version 1, and how many bytes of the file there are, of 127 and 100.
const OLD_BAD: &[(&[u8], usize)] = &[(BODY, 126), (BODY, 83), (OWN_ENTRY, 100)];

/// Those bytes of the file, of that many, are refused so.
fn refuse(rt: &impl Abort, alloc: Global, file: &[u8], len: usize, why: Refusal) {
    require(
        rt,
        refusal(alloc, cut(rt, file, len)) == Some(why),
        "refused so",
    );
}

#[test]
fn bad_numbers(rt: HostRuntime) {
    for (front, digest, len, why) in BAD {
        let file = told(&rt, rt.alloc(), front, digest, 0, BODY);
        require(&rt, file.len() == 127, "a header and a body");
        refuse(&rt, rt.alloc(), &file, *len, *why);
    }
    for (body, len) in OLD_BAD {
        let file = stored(&rt, rt.alloc(), &NUMBERS, 0, body);
        refuse(&rt, rt.alloc(), &file, *len, Refusal::BadBody);
    }
}

#[test]
fn no_entries(rt: HostRuntime) {
    let file = stored(&rt, rt.alloc(), &NUMBERS, 0, NO_ENTRIES);
    let numbers = decode_numbers(rt.alloc(), &file).expect(&rt, "numbers");
    let is_so = numbers.tree == Id { bytes: [0x22; 20] } && numbers.entries.is_empty();
    drop(numbers);
    require(&rt, is_so, "the id, and no entries");
}

type InMemory = Overlay<Outside, MemoryFiles<Outside>>;

/// Why no numbers of that tree are got, under a number.
fn fault_of(
    overlay: &mut InMemory,
    alloc: Global,
    number: u64,
    tree: [u8; 20],
) -> Option<GetFault> {
    overlay.get_numbers(alloc, number, Id { bytes: tree }).err()
}

/// An overlay over one file, number 1, of these bytes.
fn overlay_of(rt: &impl Abort, alloc: Global, file: &[u8]) -> InMemory {
    let mut files = MemoryFiles::<Outside>::new(alloc);
    files.replace(alloc, 1, file).expect(rt, "memory");
    Overlay::new(alloc, files)
}

/// Whether the tree's numbers are got.
fn are_got(overlay: &mut InMemory, alloc: Global) -> bool {
    let answer = overlay.get_numbers(alloc, 1, Id { bytes: TREE });
    let are_they = match &answer {
        Ok(found) => found.len() == 1 && is_test_txt(&found[0]),
        Err(_) => false,
    };
    drop(answer);
    are_they
}

const ABSENT: Option<GetFault> = Some(GetFault::Absent);

#[test]
fn numbers_are_got_for_their_tree(rt: HostRuntime) {
    let alloc = rt.alloc();
    let mut overlay = overlay_of(
        &rt,
        alloc,
        &told(&rt, alloc, &NEW_NUMBERS, &DIGEST, 0, BODY),
    );
    require(&rt, are_got(&mut overlay, alloc), "the tree's numbers");
    require(
        &rt,
        fault_of(&mut overlay, alloc, 1, BLOB) == ABSENT,
        "none for another tree",
    );
    require(
        &rt,
        fault_of(&mut overlay, alloc, 2, TREE) == ABSENT,
        "none for another number",
    );
    require(&rt, overlay.is_rooted() == Ok(false), "no root of its own");
    require(
        &rt,
        overlay.rescan(alloc, Id { bytes: TREE }) == Ok(3),
        "a number counted",
    );
    require(
        &rt,
        overlay.rescan(alloc, Id { bytes: BLOB }) == Ok(2),
        "none counted",
    );
    drop(overlay);
}

#[test]
fn damaged_numbers_are_told(rt: HostRuntime) {
    let alloc = rt.alloc();
    let mut overlay = overlay_of(&rt, alloc, &told(&rt, alloc, &NEW_NUMBERS, &TREE, 0, BODY));
    let damaged = Some(GetFault::Damaged(Refusal::BadDigest));
    require(
        &rt,
        fault_of(&mut overlay, alloc, 1, TREE) == damaged,
        "damaged",
    );
    require(
        &rt,
        fault_of(&mut overlay, alloc, 1, BLOB) == damaged,
        "damaged for any tree",
    );
    drop(overlay);
}

/// Whether the first file has these bytes.
fn is_stored<F: Files<Outside>>(files: F, alloc: Global, want: &[u8]) -> bool {
    let mut files = files;
    reads(&mut files, alloc, 1, want)
}

#[test]
fn numbers_are_written_and_stored(rt: HostRuntime) {
    let (alloc, tree) = (rt.alloc(), Id { bytes: TREE });
    let entries = one_file(&rt, alloc, Origin::Object(Id { bytes: BLOB }));
    let want = told(&rt, alloc, &NEW_NUMBERS, &DIGEST, 0, BODY);
    let file = encode_numbers(alloc, tree, &entries).expect(&rt, "memory");
    require(&rt, file == want, "written");
    let mut overlay = Overlay::<Outside, _>::new(alloc, MemoryFiles::<Outside>::new(alloc));
    let listing = Listing::of(overlay.room(alloc), &entries).expect(&rt, "memory");
    overlay
        .put_numbers(alloc, 1, tree, listing)
        .expect(&rt, "memory");
    drop(entries);
    require(&rt, is_stored(overlay.into_files(), alloc, &want), "stored");
}
