//! Orphans of an overlay, and what interrupted stores left in a directory: what is found, counted and removed.
use crate::folders::{Made, folder_of, remove};
use crate::formats::{NEW_DIRECTORY, NEW_FILE, OWN_BODY, OWN_DIGEST, told};
use crate::told::require;
use eden_model::{Id, Outside};
use eden_overlay::{
    FailingFiles, Files, FilesFault, FolderFiles, MemoryFiles, Overlay, Removed, RescanFault,
};
use std::alloc::Global;
use std::fs;
use std::io::ErrorKind;
use std::path::PathBuf;
use std::process::Abort;
use test_samples::{Call, FaultySystem};

// The commit's tree, of which no numbers are saved.
const ROOT: Id = Id { bytes: [0x11; 20] };

// The SHA-1 of `hi`.
const HI: [u8; 20] = [
    0xc2, 0x2b, 0x5f, 0x91, 0x78, 0x34, 0x26, 0x09, 0x42, 0x8d, 0x6f, 0x51, 0xb2, 0xc5, 0xaf, 0x4c,
    0x0b, 0xde, 0x6a, 0x42,
];

fn put<F: Files<Outside>>(
    rt: &impl Abort,
    alloc: Global,
    files: &mut F,
    number: u64,
    bytes: &[u8],
) {
    files.replace(alloc, number, bytes).expect(rt, "memory");
}

// Files of which the root's directory names 2, which is a content or isn't there, and no directory names 7, 9 and 10.
// Whether file 0 is a state nobody asks.
fn files_with(rt: &impl Abort, alloc: Global, has_content: bool) -> MemoryFiles<Outside> {
    let root = told(rt, alloc, &NEW_DIRECTORY, &OWN_DIGEST, 0, OWN_BODY);
    let mut files = MemoryFiles::<Outside>::new(alloc);
    put(rt, alloc, &mut files, 0, b"state");
    put(rt, alloc, &mut files, 1, &root);
    if has_content {
        put_content(rt, alloc, &mut files);
    }
    put(rt, alloc, &mut files, 7, b"");
    put(rt, alloc, &mut files, 9, b"12345");
    put(rt, alloc, &mut files, 10, &root);
    files
}

fn put_content<F: Files<Outside>>(rt: &impl Abort, alloc: Global, files: &mut F) {
    let content = told(rt, alloc, &NEW_FILE, &HI, 0, b"hi");
    put(rt, alloc, files, 2, &content);
}

// Whether these are the numbers of the stored files.
fn lists<F: Files<Outside>>(files: F, alloc: Global, want: &[u64]) -> bool {
    let mut files = files;
    let answer = files.list(alloc);
    let is_listed = match &answer {
        Ok(numbers) => numbers.as_slice() == want,
        Err(_) => false,
    };
    drop(answer);
    is_listed
}

// Finds the orphans, counts their bytes, and removes them.
fn removed<F: Files<Outside>>(
    overlay: &mut Overlay<Outside, F>,
    alloc: Global,
) -> Result<Removed, RescanFault> {
    let orphans = overlay.orphans(alloc, ROOT)?;
    let bytes = overlay.bytes_in(&orphans)?;
    overlay.remove_orphans(&orphans)?;
    Ok(Removed {
        files: orphans.len() as u64,
        bytes,
    })
}

// What a removal answers.
type Answer = Result<Removed, RescanFault>;

// Whether removals give those answers, one after another.
fn gives<F: Files<Outside>>(
    overlay: &mut Overlay<Outside, F>,
    alloc: Global,
    answers: &[Answer],
) -> bool {
    for want in answers {
        if removed(overlay, alloc) != *want {
            return false;
        }
    }
    true
}

// Whether removals over those files give those answers, and leave files of these numbers.
fn leaves<F: Files<Outside>>(alloc: Global, files: F, answers: &[Answer], left: &[u64]) -> bool {
    let mut overlay = Overlay::<Outside, _>::new(alloc, files);
    let is_given = gives(&mut overlay, alloc, answers);
    lists(overlay.into_files(), alloc, left) && is_given
}

#[test]
fn orphans_are_removed_and_counted(rt: HostRuntime) {
    let files = files_with(&rt, rt.alloc(), true);
    let answers = &[
        Ok(Removed {
            files: 3,
            bytes: 92,
        }),
        Ok(Removed { files: 0, bytes: 0 }),
    ];
    assert!(rt; leaves(rt.alloc(), files, answers, &[0, 1, 2]));
}

#[test]
fn without_a_root_every_file_is_an_orphan(rt: HostRuntime) {
    let mut files = files_with(&rt, rt.alloc(), true);
    files.remove(1).expect(&rt, "removed");
    let answers = &[Ok(Removed {
        files: 4,
        bytes: 158,
    })];
    assert!(rt; leaves(rt.alloc(), files, answers, &[0]));
}

#[test]
fn a_name_that_dangles_is_told(rt: HostRuntime) {
    let files = files_with(&rt, rt.alloc(), false);
    let answers = &[Err(RescanFault::Dangling(2))];
    assert!(rt; leaves(rt.alloc(), files, answers, &[0, 1, 7, 9, 10]));
}

// What is left if that call of the files fails, counted from 1: the root's head, two reads, the list, three heads,
// three removals.
const FAILING: &[(u64, &[u64])] = &[
    (1, &[0, 1, 2, 7, 9, 10]),
    (2, &[0, 1, 2, 7, 9, 10]),
    (3, &[0, 1, 2, 7, 9, 10]),
    (4, &[0, 1, 2, 7, 9, 10]),
    (5, &[0, 1, 2, 7, 9, 10]),
    (7, &[0, 1, 2, 7, 9, 10]),
    (8, &[0, 1, 2, 7, 9, 10]),
    (9, &[0, 1, 2, 9, 10]),
    (10, &[0, 1, 2, 10]),
];

#[test]
fn what_was_removed_stays_so(rt: HostRuntime) {
    for (call, left) in FAILING {
        let files = FailingFiles::new(files_with(&rt, rt.alloc(), true), *call);
        assert!(rt;
            leaves(rt.alloc(), files, &[Err(RescanFault::Device)], left),
            "at {call}"
        );
    }
}

// What is in a directory: two files that were being stored, and what only looks so.
const LEFT: &[(&str, Made)] = &[
    ("2.new", Made::File(b"abc")),
    ("10.new", Made::File(b"")),
    ("0.new.new", Made::File(b"1")),
    ("02.new", Made::File(b"2")),
    (".new", Made::File(b"3")),
    ("new", Made::File(b"4")),
    ("lock", Made::File(b"")),
    ("5", Made::File(b"6")),
    ("3.new", Made::Folder),
    ("4.new", Made::Link("5")),
];

// How many names a directory has, if it can be listed.
fn count_names(rt: &HostRuntime, folder: &PathBuf) -> Option<usize> {
    let mut count: usize = 0;
    for _ in fs::read_dir(rt, folder.as_path()).ok()? {
        count = count.saturating_add(1);
    }
    Some(count)
}

// Whether what was being stored is removed so, one time after another.
fn all_go(rt: &HostRuntime, folder: PathBuf, removed: &[Removed]) -> bool {
    let mut files = FolderFiles::new(rt, folder);
    for want in removed {
        if files.remove_unfinished(rt.alloc()) != Ok(*want) {
            return false;
        }
    }
    true
}

#[test]
fn what_was_being_stored_is_removed(rt: HostRuntime) {
    let folder = folder_of(&rt, "overlay-unfinished", LEFT).expect(&rt, "a folder");
    let removed = &[
        Removed { files: 2, bytes: 3 },
        Removed { files: 0, bytes: 0 },
    ];
    let asked = folder.clone().expect(&rt, "memory");
    require(
        &rt,
        all_go(&rt, asked, removed),
        "two removed, and then none",
    );
    require(
        &rt,
        count_names(&rt, &folder) == Some(LEFT.len() - 2),
        "all else left",
    );
    remove(&rt, folder).expect(&rt, "a folder");
}

// Whether the device is told to have failed, once and counted, if those calls of the system fail.
fn is_told(rt: &HostRuntime, folder: PathBuf, call: Call) -> bool {
    let system = FaultySystem {
        files: rt,
        call,
        kind: ErrorKind::ConnectionReset,
        instead: None,
    };
    let mut files = FolderFiles::new(system, folder);
    let answer = files.remove_unfinished(rt.alloc());
    answer == Err(FilesFault::Device) && files.failures() == 1
}

#[test]
fn a_failing_removal_is_told_and_counted(rt: HostRuntime) {
    let folder = folder_of(&rt, "overlay-unremoved", LEFT).expect(&rt, "a folder");
    for call in &[Call::List, Call::Look, Call::Remove] {
        let asked = folder.clone().expect(&rt, "memory");
        require(&rt, is_told(&rt, asked, *call), "a failure told");
    }
    require(
        &rt,
        count_names(&rt, &folder) == Some(LEFT.len()),
        "all left",
    );
    remove(&rt, folder).expect(&rt, "a folder");
}
