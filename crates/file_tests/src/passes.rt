//! A pass over the directories of an overlay: the next number that it finds, or what is wrong with the files.
use crate::formats::{DIRECTORY, FILE, stored};
use crate::numbers::NUMBERS;
use crate::told::require;
use eden_model::{Id, Outside};
use eden_overlay::{Files, MemoryFiles, Overlay, RescanFault};
use eden_overlay_format::Refusal;
use std::alloc::Global;
use std::process::Abort;

/// The root's tree object: twenty bytes `R`. That of the directory `d` has twenty `D`.
const ROOT: Id = Id { bytes: [b'R'; 20] };

/// The numbers of the root, which has the directory `d`, number 3, and the file `f`, number 2.
const ROOT_NUMBERS: &[u8] = b"RRRRRRRRRRRRRRRRRRRR\0\0\0\x02\
    \x03\0\0\0\0\0\0\0\0\x03DDDDDDDDDDDDDDDDDDDD\x01d\
    \0\0\0\0\0\0\0\0\0\x02FFFFFFFFFFFFFFFFFFFF\x01f";

/// The entries of a root that is the mount's own: `d` as above, and `e`, a directory of its own, number 5.
const ROOT_ENTRIES: &[u8] = b"\0\0\0\x02\
    \x03\0\0\0\0\0\0\0\0\x03DDDDDDDDDDDDDDDDDDDD\x01d\
    \x03\x01\0\0\0\0\0\0\0\x05\x01e";

/// The numbers of `d`, which has the file `g`, number 9; and where that number is 2.
const D_NUMBERS: &[u8] =
    b"DDDDDDDDDDDDDDDDDDDD\0\0\0\x01\0\0\0\0\0\0\0\0\0\x09GGGGGGGGGGGGGGGGGGGG\x01g";

const D_WITH_TWO: &[u8] =
    b"DDDDDDDDDDDDDDDDDDDD\0\0\0\x01\0\0\0\0\0\0\0\0\0\x02GGGGGGGGGGGGGGGGGGGG\x01g";

/// Those of another tree object's directory; and a body that stops after such an object's id.
const OTHER_NUMBERS: &[u8] =
    b"EEEEEEEEEEEEEEEEEEEE\0\0\0\x01\0\0\0\0\0\0\0\0\0\x02GGGGGGGGGGGGGGGGGGGG\x01g";

const OTHER_CUT: &[u8] = b"EEEEEEEEEEEEEEEEEEEE\0\0\0\x01";

/// The entries of a directory without any, and of one with a file `h`, number 9, of its own.
const NO_ENTRIES: &[u8] = b"\0\0\0\0";

const OWN_H: &[u8] = b"\0\0\0\x01\0\x01\0\0\0\0\0\0\0\x09\x01h";

/// A stored file: its number, how it begins, and its body.
type Stored = (u64, &'static [u8; 8], &'static [u8]);

/// The greatest number of an entry.
const LAST: u64 = (1 << 63) - 1;

/// The next number, or what is wrong.
type Found = Result<u64, RescanFault>;

/// The files, and what a pass over them finds.
const PASSES: &[(&[Stored], Found)] = &[
    (&[], Ok(2)),
    // the root's numbers, and those of a directory in it
    (&[(1, &NUMBERS, ROOT_NUMBERS)], Ok(4)),
    (
        &[(1, &NUMBERS, ROOT_NUMBERS), (3, &NUMBERS, D_NUMBERS)],
        Ok(10),
    ),
    // so below a root that is the mount's own
    (
        &[(1, &DIRECTORY, ROOT_ENTRIES), (5, &DIRECTORY, NO_ENTRIES)],
        Ok(6),
    ),
    (
        &[
            (1, &DIRECTORY, ROOT_ENTRIES),
            (3, &NUMBERS, D_NUMBERS),
            (5, &DIRECTORY, NO_ENTRIES),
        ],
        Ok(10),
    ),
    // a file that no directory names has a number too
    (&[(7, &FILE, b"")], Ok(8)),
    (&[(1, &NUMBERS, ROOT_NUMBERS), (20, &NUMBERS, b"")], Ok(21)),
    (&[(LAST, &FILE, b"")], Ok(1 << 63)),
    (
        &[(1 << 63, &FILE, b"")],
        Err(RescanFault::Damaged(1, Refusal::BadBody)),
    ),
    // numbers of another tree object don't count
    (&[(1, &NUMBERS, OTHER_NUMBERS)], Ok(2)),
    (
        &[(1, &NUMBERS, ROOT_NUMBERS), (3, &NUMBERS, OTHER_NUMBERS)],
        Ok(4),
    ),
    (
        &[(1, &NUMBERS, ROOT_NUMBERS), (3, &DIRECTORY, NO_ENTRIES)],
        Ok(4),
    ),
    // but they are in their grammar
    (
        &[(1, &NUMBERS, OTHER_CUT)],
        Err(RescanFault::Damaged(1, Refusal::BadBody)),
    ),
    (
        &[(1, &NUMBERS, ROOT_NUMBERS), (3, &NUMBERS, OTHER_CUT)],
        Err(RescanFault::Damaged(3, Refusal::BadBody)),
    ),
    // a number that is named twice
    (
        &[(1, &NUMBERS, ROOT_NUMBERS), (3, &NUMBERS, D_WITH_TWO)],
        Err(RescanFault::Twice(2)),
    ),
    (
        &[
            (1, &DIRECTORY, ROOT_ENTRIES),
            (3, &NUMBERS, D_NUMBERS),
            (5, &DIRECTORY, OWN_H),
            (9, &FILE, b""),
        ],
        Err(RescanFault::Twice(9)),
    ),
    (
        &[(1, &DIRECTORY, ROOT_ENTRIES)],
        Err(RescanFault::Dangling(5)),
    ),
];

fn overlay_of(
    rt: &impl Abort,
    alloc: Global,
    files: &[Stored],
) -> Overlay<Outside, MemoryFiles<Outside>> {
    let mut memory = MemoryFiles::<Outside>::new(alloc);
    for (number, front, body) in files {
        let file = stored(rt, alloc, *front, 0, body);
        memory.replace(alloc, *number, &file).expect(rt, "memory");
    }
    Overlay::new(alloc, memory)
}

/// What a pass over the overlay finds.
fn found(alloc: Global, overlay: Overlay<Outside, MemoryFiles<Outside>>) -> Found {
    let mut overlay = overlay;
    let answer = overlay.rescan(alloc, ROOT);
    drop(overlay);
    answer
}

#[test]
fn what_a_pass_finds(rt: HostRuntime) {
    for (row, (files, want)) in PASSES.iter().enumerate() {
        let answer = found(rt.alloc(), overlay_of(&rt, rt.alloc(), files));
        assert!(rt; answer == *want, "row {row}");
    }
}

#[test]
fn a_file_without_a_header_has_no_numbers(rt: HostRuntime) {
    let mut files = overlay_of(&rt, rt.alloc(), &[(1, &NUMBERS, ROOT_NUMBERS)]).into_files();
    files.replace(rt.alloc(), 3, b"OVDN").expect(&rt, "memory");
    let overlay = Overlay::<Outside, _>::new(rt.alloc(), files);
    require(
        &rt,
        found(rt.alloc(), overlay) == Ok(4),
        "the root's numbers alone",
    );
}

#[test]
fn files_that_saved_numbers_name_are_no_orphans(rt: HostRuntime) {
    let files: &[Stored] = &[
        (1, &NUMBERS, ROOT_NUMBERS),
        (3, &NUMBERS, D_NUMBERS),
        (9, &FILE, b""),
        (10, &FILE, b""),
    ];
    let mut overlay = overlay_of(&rt, rt.alloc(), files);
    let orphans = overlay.orphans(rt.alloc(), ROOT).expect(&rt, "orphans");
    drop(overlay);
    require(&rt, orphans.as_slice() == [10].as_slice(), "file 10 alone");
}
