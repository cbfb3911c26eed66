//! The calls of a table over files in memory, and over files that fail: rows of the sample commit's trees.
ghost use Rattle.eden_overlay_format.specs.Directory.{AreStorable};

use crate::names::{BAK, BAK_TEST, NEW, ROOT, TEST, name};
use crate::worked::{Does, Step, check};
use eden_inode::Inodes;
use eden_model::{Fault, Kind, Origin, Outside};
use eden_overlay::{FailingFiles, MemoryFiles, Overlay};
use eden_overlay_format::StoredEntry;
use std::alloc::Global;
use std::process::Abort;
use std::slice;
use test_samples::{NEW_FILE, ONE_FILE, TWO_FILES, VERSION_1, VERSION_2};

const END: u64 = 1 << 63;

const NUMBERED: &[Step] = &[
    (ROOT, Does::Load(TWO_FILES)),
    (ROOT, Does::Next(5)),
    (BAK, Does::Look(2, Kind::Dir, Some(ONE_FILE))),
    (NEW, Does::Look(3, Kind::File, Some(NEW_FILE))),
    (TEST, Does::Look(4, Kind::File, Some(VERSION_2))),
    (BAK, Does::Load(ONE_FILE)),
    (ROOT, Does::Next(6)),
    (BAK_TEST, Does::Look(5, Kind::File, Some(VERSION_1))),
    (ROOT, Does::Unload(0, 2)),
    (ROOT, Does::LoadSaved(TWO_FILES)),
    (ROOT, Does::Next(6)),
    (BAK, Does::Look(2, Kind::Dir, Some(ONE_FILE))),
    (NEW, Does::Look(3, Kind::File, Some(NEW_FILE))),
    (TEST, Does::Look(4, Kind::File, Some(VERSION_2))),
    (BAK, Does::LoadSaved(ONE_FILE)),
    (ROOT, Does::Next(6)),
    (BAK_TEST, Does::Look(5, Kind::File, Some(VERSION_1))),
];

const AGED: &[Step] = &[
    (ROOT, Does::Load(TWO_FILES)),
    (ROOT, Does::Next(5)),
    (ROOT, Does::Tick),
    (ROOT, Does::Tick),
    (ROOT, Does::Tick),
    (BAK, Does::Load(ONE_FILE)),
    (ROOT, Does::Next(6)),
    (ROOT, Does::Tick),
    (ROOT, Does::Tick),
    (ROOT, Does::Unload(3, 0)),
    (BAK, Does::Unload(2, 1)),
    (ROOT, Does::Unload(2, 1)),
];

#[test]
fn rows_of_the_sample_commit(rt: HostRuntime) {
    check(&rt, rt.alloc(), Some(TWO_FILES), 2, NUMBERED);
    check(&rt, rt.alloc(), Some(TWO_FILES), 2, AGED);
}

/// There are no numbers for the entries of the commit, of which none is given then.
const RUN_OUT: &[Step] = &[(ROOT, Does::RunOut(TWO_FILES)), (ROOT, Does::Next(END - 2))];

#[test]
fn numbers_run_out(rt: HostRuntime) {
    check(&rt, rt.alloc(), Some(TWO_FILES), END - 2, RUN_OUT);
}

/// There are numbers for the one file of the commit and one entry more.
const LAST: &[Step] = &[
    (ROOT, Does::Load(ONE_FILE)),
    (ROOT, Does::Next(END - 1)),
    (ROOT, Does::Give(Some(END - 1))),
    (ROOT, Does::Give(None)),
];

#[test]
fn the_last_number_is_given_once(rt: HostRuntime) {
    check(&rt, rt.alloc(), Some(ONE_FILE), END - 2, LAST);
}

// A stored directory's one entry: the file `a`, number 2, whose content is its own.
fn one(rt: &impl Abort, alloc: Global) -> Vec<StoredEntry>
    ensures { AreStorable result.items }
{
    let entry = StoredEntry {
        name: name(rt, alloc, b"a"),
        kind: Kind::File,
        origin: Origin::Own,
        number: 2,
    };
    Vec::from_array(alloc, [entry]).expect(rt, "memory")
}

/// Files that fail.
type Failing = FailingFiles<MemoryFiles<Outside>>;

fn put_one(rt: &impl Abort, alloc: Global, overlay: &mut Overlay<Outside, Failing>) {
    let entries = one(rt, alloc);
    let is_done = overlay.put_dir(alloc, 1, &entries).is_ok();
    drop(entries);
    assert!(rt; is_done);
}

// The mount's own root, stored; the call of that number on the files fails.
fn own_files(rt: &impl Abort, alloc: Global, call: u64) -> Overlay<Outside, Failing> {
    let files = FailingFiles::new(MemoryFiles::<Outside>::new(alloc), call);
    let mut overlay = Overlay::<Outside, _>::new(alloc, files);
    put_one(rt, alloc, &mut overlay);
    overlay
}

// Whether the entry is there.
fn has_one(rt: &impl Abort, alloc: Global, table: &mut Inodes<Global, Outside, Failing>) -> bool {
    let name = name(rt, alloc, b"a");
    let seen = table.look(slice::from_ref(&name));
    drop(name);
    seen.names == 1 && seen.number == 2 && seen.kind == Kind::File && seen.origin == Origin::Own
}

// Whether the root is loaded, and then has the entry, or isn't.
fn is_so(
    rt: &impl Abort,
    alloc: Global,
    table: &mut Inodes<Global, Outside, Failing>,
    is_loaded: bool,
) -> bool {
    table.look(&[]).loaded == is_loaded && (!is_loaded || has_one(rt, alloc, table))
}

// Whether a load of the root from its file answers that if the call of that number on the files fails.
fn load_answers(rt: &impl Abort, alloc: Global, call: u64, want: Result<(), Fault>) -> bool {
    let mut table = Inodes::new(alloc, own_files(rt, alloc, call), Origin::Own, 3);
    let answer = table.load(alloc, &[], None);
    let is_so = answer == want && is_so(rt, alloc, &mut table, answer.is_ok());
    drop(table);
    is_so
}

#[test]
fn an_own_directory_is_loaded(rt: HostRuntime) {
    assert!(rt; load_answers(&rt, rt.alloc(), 0, Ok(())));
    assert!(rt; load_answers(&rt, rt.alloc(), 2, Err(Fault::Overlay)));
}
