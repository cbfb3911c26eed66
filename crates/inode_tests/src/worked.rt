//! Calls of a table over files in memory, and what it shows and leaves: rows of the sample commit's trees.

ghost use Rattle.std.specs.Prelude.{◌≤◌};
ghost use Rattle.eden_model.specs.Limits.{number_least, number_end};

use crate::calls::{What, change_at, move_to, own};
use crate::listing::{Own, store};
use crate::mount::{Mount, origin_of};
use crate::names::{BAK, BAK_TEST, Letters, Place, ROOT, TEST, names, spot_of};
use crate::stored::{Stored, is_stored};
use eden_inode::Trail;
use eden_model::{Fault, Kind, Name, Origin};
use eden_overlay::FilesFault;
use std::alloc::Global;
use std::process::Abort;
use test_samples::{ONE_FILE, Sample, TWO_FILES, VERSION_1, VERSION_2};

const IN_D: Letters = b"d";

const MOVED: Letters = b"dt";

const IN_D_TEST: Letters = b"dc";

const LINK: Letters = b"l";

/// What is done at a path, and what it answers or what is seen there then.
#[derive(Clone, Copy)]
pub(crate) enum Does {
    /// A directory is loaded from a tree object, or with the numbers saved for it, or without a tree object.
    Load(Sample),
    LoadSaved(Sample),
    LoadOwn,
    /// There are no numbers for the entries of that tree.
    RunOut(Sample),
    /// The directories along the path become the mount's own.
    Own,
    /// What stands under a letter is changed.
    At(u8, What),
    /// An own entry comes under a letter: a content, or a directory without entries.
    Put(u8, Own, Option<&'static [u8]>),
    /// What stands under a letter moves into the directory at another path, under that letter.
    Move(u8, Letters, u8),
    /// Of the directories at and below the path that are so old this many go.
    Unload(u64, u64),
    Tick,
    /// This many calls on the files still pass.
    Pass(u64),
    /// .. are left.
    Left(u64),
    /// The same files come under a new table.
    OpenAgain,
    /// That number is given, or none.
    Give(Option<u64>),
    /// That number is the next one.
    Next(u64),
    /// This many changes were counted.
    Changes(u64),
    /// This kind of entry stands there, with this number and that object, or contents of the mount's own.
    Look(u64, Kind, Option<Sample>),
    /// The entry that stands there, number 5 below one directory, is found by names, and then by positions alone.
    LookTwice,
    /// With all directories above loaded this number stands there, and that one is the next.
    Numbered(u64, u64),
    /// Nothing stands there.
    Gone,
    /// An own file stands there, with this content.
    Reads(&'static [u8]),
    /// These are the files, each with its size in bytes.
    Files(&'static [(u64, u64)]),
    Stored(Stored),
}

/// A path, and what is done there.
pub(crate) type Step = (Letters, Does);

const FILE_2: Own = Own {
    kind: Kind::File,
    number: 2,
};

const LINK_3: Own = Own {
    kind: Kind::Link,
    number: 3,
};

const DIR_3: Own = Own {
    kind: Kind::Dir,
    number: 3,
};

/// What a write past the end leaves of `VERSION_1`.
const WRITTEN: &[u8] = b"version 1\n\0\0!";

/// A file of the commit becomes executable, and has its number and its object still.
const TURNED: &[Step] = &[
    (ROOT, Does::Load(ONE_FILE)),
    (ROOT, Does::At(b'c', What::Turn(Kind::Exec))),
    (TEST, Does::Look(2, Kind::Exec, Some(VERSION_1))),
    (ROOT, Does::Files(&[(1, 107)])),
];

/// A file of the commit has a content of the mount's own, and then another one.
const FILLED: &[Step] = &[
    (ROOT, Does::Load(ONE_FILE)),
    (ROOT, Does::At(b'c', What::Fill(WRITTEN))),
    (TEST, Does::Look(2, Kind::File, None)),
    (ROOT, Does::Files(&[(1, 87), (2, 77)])),
    (ROOT, Does::At(b'c', What::Fill(b""))),
    (ROOT, Does::Files(&[(1, 87), (2, 64)])),
];

/// A file of the commit moves into a new directory.
const MOVED_BETWEEN: &[Step] = &[
    (ROOT, Does::Load(ONE_FILE)),
    (ROOT, Does::Give(Some(3))),
    (ROOT, Does::Put(b'd', DIR_3, None)),
    (ROOT, Does::Files(&[(1, 119), (3, 68)])),
    (IN_D, Does::LoadOwn),
    (ROOT, Does::Move(b'c', IN_D, b't')),
    (TEST, Does::Gone),
    (MOVED, Does::Look(2, Kind::File, Some(VERSION_1))),
    (ROOT, Does::Files(&[(1, 80), (3, 100)])),
];

/// A new link takes the place of a file of the commit.
const MOVED_WITHIN: &[Step] = &[
    (ROOT, Does::Load(ONE_FILE)),
    (ROOT, Does::Give(Some(3))),
    (ROOT, Does::Put(b'l', LINK_3, Some(b"a/b"))),
    (ROOT, Does::Files(&[(1, 119), (3, 67)])),
    (ROOT, Does::Move(b'l', ROOT, b'c')),
    (LINK, Does::Gone),
    (TEST, Does::Look(3, Kind::Link, None)),
    (ROOT, Does::Files(&[(1, 87), (3, 67)])),
];

/// A new link takes the place of a file that is the mount's own.
const MOVED_OVER: &[Step] = &[
    (ROOT, Does::Load(ONE_FILE)),
    (ROOT, Does::Put(b'c', FILE_2, Some(WRITTEN))),
    (TEST, Does::Look(2, Kind::File, None)),
    (ROOT, Does::Files(&[(1, 87), (2, 77)])),
    (ROOT, Does::Give(Some(3))),
    (ROOT, Does::Put(b'l', LINK_3, Some(b"a/b"))),
    (ROOT, Does::Files(&[(1, 99), (2, 77), (3, 67)])),
    (ROOT, Does::Move(b'l', ROOT, b'c')),
    (LINK, Does::Gone),
    (TEST, Does::Look(3, Kind::Link, None)),
    (ROOT, Does::Files(&[(1, 87), (3, 67)])),
];

/// The root becomes the mount's own, and then a directory below it, which is stored and named so.
const OWNED: &[Step] = &[
    (ROOT, Does::Load(TWO_FILES)),
    (BAK, Does::Load(ONE_FILE)),
    (ROOT, Does::Own),
    (BAK, Does::Look(2, Kind::Dir, Some(ONE_FILE))),
    (ROOT, Does::Files(&[(1, 179)])),
    (BAK, Does::Own),
    (BAK, Does::Look(2, Kind::Dir, None)),
    (ROOT, Does::Files(&[(1, 159), (2, 107)])),
];

/// A file of the commit goes, which makes its directory the mount's own; then that directory goes with its file.
const REMOVED: &[Step] = &[
    (ROOT, Does::Load(TWO_FILES)),
    (BAK, Does::Load(ONE_FILE)),
    (BAK, Does::At(b'c', What::Remove)),
    (BAK_TEST, Does::Gone),
    (BAK, Does::Look(2, Kind::Dir, None)),
    (ROOT, Does::Files(&[(1, 159), (2, 68)])),
    (BAK, Does::Unload(0, 1)),
    (ROOT, Does::At(b'a', What::Remove)),
    (BAK, Does::Gone),
    (ROOT, Does::Files(&[(1, 145)])),
];

/// Directories of the commit go: their numbers are saved, and a load gives them back. A second unload leaves the same.
const SAVED: &[Step] = &[
    (ROOT, Does::Load(TWO_FILES)),
    (BAK, Does::Load(ONE_FILE)),
    (ROOT, Does::Unload(0, 2)),
    (ROOT, Does::Files(&[(1, 199), (2, 127)])),
    (ROOT, Does::Give(Some(6))),
    (ROOT, Does::LoadSaved(TWO_FILES)),
    (BAK, Does::Look(2, Kind::Dir, Some(ONE_FILE))),
    (TEST, Does::Look(4, Kind::File, Some(VERSION_2))),
    (BAK, Does::LoadSaved(ONE_FILE)),
    (BAK_TEST, Does::Look(5, Kind::File, Some(VERSION_1))),
    (ROOT, Does::Unload(0, 2)),
    (ROOT, Does::Files(&[(1, 199), (2, 127)])),
];

/// A directory whose numbers are saved becomes the mount's own: its entries take the place of its numbers.
const OWNED_AFTER: &[Step] = &[
    (ROOT, Does::Load(TWO_FILES)),
    (BAK, Does::Load(ONE_FILE)),
    (BAK, Does::Unload(0, 1)),
    (ROOT, Does::Files(&[(2, 127)])),
    (BAK, Does::LoadSaved(ONE_FILE)),
    (BAK, Does::Own),
    (BAK_TEST, Does::Look(5, Kind::File, Some(VERSION_1))),
    (ROOT, Does::Files(&[(1, 159), (2, 107)])),
];

/// One whose numbers are saved goes, and so do these.
const REMOVED_AFTER: &[Step] = &[
    (ROOT, Does::Load(TWO_FILES)),
    (BAK, Does::Load(ONE_FILE)),
    (BAK, Does::Unload(0, 1)),
    (ROOT, Does::At(b'a', What::Remove)),
    (BAK, Does::Gone),
    (ROOT, Does::Files(&[(1, 145)])),
];

/// A file of the commit takes its place.
const REPLACED_AFTER: &[Step] = &[
    (ROOT, Does::Load(TWO_FILES)),
    (BAK, Does::Load(ONE_FILE)),
    (BAK, Does::Unload(0, 1)),
    (ROOT, Does::Own),
    (ROOT, Does::Files(&[(1, 179), (2, 127)])),
    (ROOT, Does::Move(b'c', ROOT, b'a')),
    (BAK, Does::Look(4, Kind::File, Some(VERSION_2))),
    (ROOT, Does::Files(&[(1, 140)])),
];

/// It is renamed, and is loaded with its numbers under its new name.
const RENAMED_AFTER: &[Step] = &[
    (ROOT, Does::Load(TWO_FILES)),
    (BAK, Does::Load(ONE_FILE)),
    (BAK, Does::Unload(0, 1)),
    (ROOT, Does::Own),
    (ROOT, Does::Move(b'a', ROOT, b'd')),
    (BAK, Does::Gone),
    (ROOT, Does::Files(&[(1, 177), (2, 127)])),
    (IN_D, Does::LoadSaved(ONE_FILE)),
    (IN_D_TEST, Does::Look(5, Kind::File, Some(VERSION_1))),
];

const ROWS: &[&[Step]] = &[
    TURNED,
    FILLED,
    MOVED_BETWEEN,
    MOVED_WITHIN,
    MOVED_OVER,
    OWNED,
    REMOVED,
    SAVED,
    OWNED_AFTER,
    REMOVED_AFTER,
    REPLACED_AFTER,
    RENAMED_AFTER,
];

/// Loads the directory of a tree, for which numbers are saved or not, or which fails so.
fn loads(
    rt: &impl Abort,
    mount: &mut Mount<Global>,
    path: &[Name],
    tree: Sample,
    want: Result<bool, Fault>,
) -> bool {
    match mount.table.missing(path) {
        None => false,
        Some(key) => key.id == tree.id && mount.load_object(rt, path, key.id) == want,
    }
}

/// Loads a directory that has no tree object.
fn loads_own(mount: &mut Mount<Global>, path: &[Name]) -> bool {
    match mount.table.unloaded(path) {
        Some(Origin::Own) => mount.table.load(mount.alloc, path, None).is_ok(),
        _ => false,
    }
}

/// Changes what stands at a place.
fn changes(rt: &impl Abort, mount: &mut Mount<Global>, place: Place<'_>, what: What) -> bool {
    let spot = spot_of(rt, mount.alloc, place);
    let is_done = change_at(mount.alloc, &mut mount.table, &spot, what);
    drop(spot);
    is_done
}

/// Stores a content of at most 2^30 bytes, or a directory without entries.
fn stores(mount: &mut Mount<Global>, number: u64, content: Option<&[u8]>) -> bool {
    match content {
        None => store(mount.alloc, &mut mount.table, number, None).is_ok(),
        Some(bytes) => {
            bytes.len() <= 1 << 30
                && store(mount.alloc, &mut mount.table, number, Some(bytes)).is_ok()
        }
    }
}

fn moves(rt: &impl Abort, mount: &mut Mount<Global>, from: Place<'_>, to: Place<'_>) -> bool {
    let from = spot_of(rt, mount.alloc, from);
    let to = spot_of(rt, mount.alloc, to);
    let is_done = move_to(mount.alloc, &mut mount.table, &from, &to);
    drop(from);
    drop(to);
    is_done
}

fn unloads(mount: &mut Mount<Global>, path: &[Name], age: u64, went: u64) -> bool {
    let gone = mount.table.unload(mount.alloc, path, age);
    gone.count == went && gone.refused != Some(FilesFault::Memory)
}

fn looks(mount: &mut Mount<Global>, path: &[Name], number: u64, kind: Kind, from: Origin) -> bool {
    let seen = mount.table.look(path);
    seen.names == path.len() && seen.number == number && seen.kind == kind && seen.origin == from
}

/// Whether the first look compares two names or three, and the second finds the same and compares none.
fn looks_twice(mount: &mut Mount<Global>, path: &[Name]) -> bool {
    let mut trail = Trail::new();
    let seen = mount.table.look_along(path, &mut trail);
    let is_found = seen.names == 2 && seen.number == 5 && trail.depth() == 2;
    let compared = trail.compared();
    trail.recount();
    let is_same = mount.table.look_along(path, &mut trail) == seen && trail.compared() == 0;
    is_found && 2 <= compared && compared <= 3 && is_same
}

fn is_numbered(
    rt: &impl Abort,
    mount: &mut Mount<Global>,
    path: &[Name],
    number: u64,
    next: u64,
) -> bool {
    mount.load(rt, path)
        && mount.table.look(path).number == number
        && mount.table.next_number() == next
}

/// Does what needs no more than the mount.
fn is_so(rt: &impl Abort, mount: &mut Mount<Global>, does: Does) -> bool {
    match does {
        Does::Tick => {
            mount.table.tick();
            true
        }
        Does::Pass(calls) => {
            mount.calls.set(calls);
            true
        }
        Does::OpenAgain => {
            let alloc = mount.alloc;
            mount.open_again(rt, &alloc);
            true
        }
        Does::Left(calls) => mount.calls.get() == calls,
        Does::Give(number) => mount.table.give_number() == number,
        Does::Next(number) => mount.table.next_number() == number,
        Does::Changes(count) => mount.table.changes() == count,
        Does::Files(want) => is_stored(mount.alloc, &mut mount.table, Stored::Sizes(want)),
        Does::Stored(want) => is_stored(mount.alloc, &mut mount.table, want),
        _ => false,
    }
}

/// Does what a step says at its path: whether it answers and shows that.
fn is_done(rt: &impl Abort, mount: &mut Mount<Global>, path: &[Name], does: Does) -> bool {
    match does {
        Does::Load(tree) => loads(rt, mount, path, tree, Ok(false)),
        Does::LoadSaved(tree) => loads(rt, mount, path, tree, Ok(true)),
        Does::RunOut(tree) => loads(rt, mount, path, tree, Err(Fault::Numbers)),
        Does::LoadOwn => loads_own(mount, path),
        Does::Own => own(mount.alloc, &mut mount.table, path),
        Does::Unload(age, went) => unloads(mount, path, age, went),
        Does::Look(number, kind, object) => looks(mount, path, number, kind, origin_of(object)),
        Does::LookTwice => looks_twice(mount, path),
        Does::Numbered(number, next) => is_numbered(rt, mount, path, number, next),
        Does::Gone => mount.table.look(path).names < path.len(),
        Does::Reads(content) => mount.reads(path, content),
        other => is_so(rt, mount, other),
    }
}

/// The same for a path that isn't made of names yet.
fn is_done_at(rt: &impl Abort, mount: &mut Mount<Global>, path: &[u8], does: Does) -> bool {
    let path = names(rt, mount.alloc, path);
    let is_done = is_done(rt, mount, &path, does);
    drop(path);
    is_done
}

/// Takes a step: whether it answers and shows what it says.
fn take(rt: &impl Abort, mount: &mut Mount<Global>, path: &[u8], does: Does) -> bool {
    match does {
        Does::At(letter, what) => changes(rt, mount, Place { path, letter }, what),
        Does::Put(letter, own, content) => {
            stores(mount, own.number, content)
                && changes(rt, mount, Place { path, letter }, What::Put(own))
        }
        Does::Move(letter, to, there) => {
            let to = Place {
                path: to,
                letter: there,
            };
            moves(rt, mount, Place { path, letter }, to)
        }
        other => is_done_at(rt, mount, path, other),
    }
}

fn take_each(rt: &impl Abort, mount: &mut Mount<Global>, steps: &[Step]) {
    for (count, (path, does)) in steps.iter().enumerate() {
        assert!(rt; take(rt, mount, path, *does), "step {count}");
    }
}

/// Takes the steps on a table of that commit, or with an own root without entries, and nothing loaded.
pub(crate) fn check(
    rt: &impl Abort,
    alloc: Global,
    commit: Option<Sample>,
    next: u64,
    steps: &[Step],
)
    requires least { number_least ≤ next }
    requires most { next ≤ number_end }
{
    let mut mount = Mount::open(rt, alloc, &alloc, origin_of(commit), next);
    take_each(rt, &mut mount, steps);
    drop(mount);
}

/// The commit's tree of a row: it comes first in its steps.
fn tree_of(steps: &[Step]) -> Sample {
    match steps.first() {
        Some((_, Does::Load(tree))) => *tree,
        _ => TWO_FILES,
    }
}

#[test]
fn changes_leave_these_files(rt: HostRuntime) {
    for steps in ROWS {
        check(&rt, rt.alloc(), Some(tree_of(steps)), 2, steps);
    }
}
