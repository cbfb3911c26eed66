//! Numbers that are saved as directories of the commit go: what is written, and what stays loaded if that is refused.

use crate::names::{BAK_TEST, ROOT};
use crate::worked::{Does, Step, check};
use test_samples::TWO_FILES;

/// With both directories of the commit loaded, the entries have the numbers 2 to 5.
const NUMBERED: Step = (BAK_TEST, Does::Numbered(5, 6));

/// The file of each directory is read, and at first stored.
const WRITTEN_ONCE: &[Step] = &[
    NUMBERED,
    (ROOT, Does::Pass(100)),
    (ROOT, Does::Unload(0, 2)),
    (ROOT, Does::Left(96)),
    (ROOT, Does::Pass(u64::MAX)),
    NUMBERED,
    (ROOT, Does::Pass(100)),
    (ROOT, Does::Unload(0, 2)),
    (ROOT, Does::Left(98)),
    (ROOT, Does::Pass(u64::MAX)),
    NUMBERED,
];

#[test]
fn numbers_that_are_saved_are_not_written_again(rt: HostRuntime) {
    check(&rt, rt.alloc(), Some(TWO_FILES), 2, WRITTEN_ONCE);
}

/// All is unloaded over a device that stops after this many calls, and this many directories go. What went and what
/// stayed shows its numbers once the device works again.
const STOPS: &[&[Step]] = &[
    &[
        NUMBERED,
        (ROOT, Does::Pass(0)),
        (ROOT, Does::Unload(0, 0)),
        (ROOT, Does::Pass(u64::MAX)),
        NUMBERED,
    ],
    &[
        NUMBERED,
        (ROOT, Does::Pass(1)),
        (ROOT, Does::Unload(0, 0)),
        (ROOT, Does::Pass(u64::MAX)),
        NUMBERED,
    ],
    &[
        NUMBERED,
        (ROOT, Does::Pass(2)),
        (ROOT, Does::Unload(0, 1)),
        (ROOT, Does::Pass(u64::MAX)),
        NUMBERED,
    ],
    &[
        NUMBERED,
        (ROOT, Does::Pass(3)),
        (ROOT, Does::Unload(0, 1)),
        (ROOT, Does::Pass(u64::MAX)),
        NUMBERED,
    ],
    &[
        NUMBERED,
        (ROOT, Does::Pass(4)),
        (ROOT, Does::Unload(0, 2)),
        (ROOT, Does::Pass(u64::MAX)),
        NUMBERED,
    ],
];

#[test]
fn a_directory_whose_numbers_are_not_saved_stays_loaded(rt: HostRuntime) {
    for steps in STOPS {
        check(&rt, rt.alloc(), Some(TWO_FILES), 2, steps);
    }
}

/// The files of a mount that unloaded all have its numbers.
const OPENED_AGAIN: &[Step] = &[
    NUMBERED,
    (ROOT, Does::Unload(0, 2)),
    (ROOT, Does::OpenAgain),
    NUMBERED,
];

#[test]
fn a_new_table_has_the_numbers(rt: HostRuntime) {
    check(&rt, rt.alloc(), Some(TWO_FILES), 2, OPENED_AGAIN);
}
