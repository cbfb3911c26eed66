//! Files that aren't opened: nothing is read, said or asked for.
use crate::lives::{Fate, Life, Sizes, Stored, are_there, closed, lived};
use eden_checkout::{OpenFault, Opening};
use eden_overlay::{Files, MemoryFiles};
use eden_overlay_format::Refusal;
use eden_stdio_life::LifeFault;
use std::alloc::Global;
use std::process::Abort;
use test_samples::{ONE_FILE, Sample, TWO_FILES};

/// A life over no files, which makes a directory.
const FIRST: Life = Life {
    root: ONE_FILE,
    opening: Opening::Closed,
    history: Some(1_000),
    input: "mkdir /d\n",
    said: "ok\n",
    asked: &[ONE_FILE],
};

/// Lives over files that aren't opened so on that commit, for this fault, and gives them back.
pub(crate) fn check_refused(
    rt: &impl Abort,
    alloc: Global,
    files: Stored,
    base: (Sample, Opening),
    fault: OpenFault,
) -> Stored {
    let (root, opening) = base;
    let life = Life {
        root,
        opening,
        said: "",
        asked: &[],
        ..FIRST
    };
    let fate = Fate {
        outcome: Err(LifeFault::Open(fault)),
        unclosed: None,
    };
    let mut reader = life.input.as_bytes();
    let files = lived(rt, alloc, files, &life, &mut reader, fate);
    assert_eq!(rt; reader.len(), life.input.len());
    files
}

#[test]
fn files_of_another_commit_are_refused(rt: HostRuntime) {
    let alloc = rt.alloc();
    let files = closed(&rt, alloc, MemoryFiles::new(alloc), &FIRST);
    let fault = OpenFault::OtherRoot(ONE_FILE.id);
    let mut files = check_refused(&rt, alloc, files, (TWO_FILES, Opening::Closed), fault);
    assert!(rt; are_there(alloc, &mut files, &[(0, 92), (1, 119), (3, 68)]));
}

/// What stands in the place of the state, and what is wrong with it.
#[derive(Clone, Copy)]
struct Damage {
    state: &'static [u8],
    refusal: Refusal,
    files: Sizes,
}

const CUT: Damage = Damage {
    state: b"OVFL",
    refusal: Refusal::Short,
    files: &[(0, 4), (1, 119), (3, 68)],
};

const ZEROS: Damage = Damage {
    state: &[0; 64],
    refusal: Refusal::BadIdentifier,
    files: &[(0, 64), (1, 119), (3, 68)],
};

fn check_damage(rt: &impl Abort, alloc: Global, damage: Damage) {
    let mut files = closed(rt, alloc, MemoryFiles::new(alloc), &FIRST);
    assert!(rt; files.replace(alloc, 0, damage.state).is_ok());
    let fault = OpenFault::Damaged(0, damage.refusal);
    let mut files = check_refused(rt, alloc, files, (ONE_FILE, Opening::Closed), fault);
    assert!(rt; are_there(alloc, &mut files, damage.files));
}

#[test]
fn files_with_a_damaged_state_are_refused(rt: HostRuntime) {
    for damage in [CUT, ZEROS] {
        check_damage(&rt, rt.alloc(), damage);
    }
}
