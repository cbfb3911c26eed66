//! Looks by positions that were noted, and the count of changes.

use crate::calls::What;
use crate::names::{BAK, BAK_TEST, ROOT};
use crate::worked::{Does, Step, check};
use eden_model::Kind;
use test_samples::{ONE_FILE, TWO_FILES, VERSION_1};

/// The first look compares two of the root's three names at most, and then the directory's only one; the second none.
const BY_POSITIONS: &[Step] = &[
    (ROOT, Does::Load(TWO_FILES)),
    (BAK, Does::Load(ONE_FILE)),
    (BAK_TEST, Does::LookTwice),
];

#[test]
fn a_look_by_positions_compares_no_name(rt: HostRuntime) {
    check(&rt, rt.alloc(), Some(TWO_FILES), 2, BY_POSITIONS);
}

/// Loads and looks count as no change, and each directory that goes counts as one.
const UNLOADED: &[Step] = &[
    (ROOT, Does::Load(TWO_FILES)),
    (BAK, Does::Load(ONE_FILE)),
    (BAK_TEST, Does::Look(5, Kind::File, Some(VERSION_1))),
    (ROOT, Does::Changes(0)),
    (ROOT, Does::Unload(0, 2)),
    (ROOT, Does::Changes(2)),
];

#[test]
fn each_unloaded_directory_is_a_change(rt: HostRuntime) {
    check(&rt, rt.alloc(), Some(TWO_FILES), 2, UNLOADED);
}

/// A file that becomes executable, one that gets a content and directories that become the mount's own move no name. A
/// file that goes is a change.
const COUNTED: &[Step] = &[
    (ROOT, Does::Load(TWO_FILES)),
    (BAK, Does::Load(ONE_FILE)),
    (ROOT, Does::At(b'c', What::Turn(Kind::Exec))),
    (ROOT, Does::At(b'c', What::Fill(b"version 3\n"))),
    (BAK, Does::Own),
    (ROOT, Does::Changes(0)),
    (BAK, Does::At(b'c', What::Remove)),
    (ROOT, Does::Changes(1)),
];

#[test]
fn what_moves_no_name_is_no_change(rt: HostRuntime) {
    check(&rt, rt.alloc(), Some(TWO_FILES), 2, COUNTED);
}
