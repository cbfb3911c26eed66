//! What callers were told beside the history, and the history beside the slow oracle.

use crate::mounts::{Mounted, Objects, Size, close, mount};
use eden_model::{Entry, Reply, Request};
use eden_mount::{Local, Unloading};
use eden_oracle::WholeTree;
use eden_shared::Told;
use std::alloc::Global;
use std::process::Abort;
use test_random::{Commit, all_looks, is_seen, replays};

/// One pass, which has more requests than there are looks at one tree.
const ONE: Size = Size {
    passes: 1,
    flights: 1,
    history: 1_000_000,
    objects: 2,
};

/// What a pass was told of one call, as text.
#[derive(Drop)]
pub(crate) struct Note {
    pass: u32,
    number: u64,
    text: String,
}

fn text(rt: &impl Abort, alloc: Global, request: &Request, reply: &Reply) -> String {
    format!(in alloc; "{request:?}: {reply:?}").expect(rt, "memory")
}

/// Adds what a pass was told, in order: the numbers rise.
pub(crate) fn add_notes(
    rt: &impl Abort,
    alloc: Global,
    notes: &mut Vec<Note>,
    pass: u32,
    all_told: &[Told],
) {
    let mut last = 0;
    for told in all_told {
        assert!(rt; last < told.number, "{told:?} after {last}");
        last = told.number;
        let text = text(rt, alloc, &told.request, &told.reply);
        let note = Note {
            pass,
            number: told.number,
            text,
        };
        notes.push(note).expect(rt, "memory");
    }
}

/// Each note is the entry of its number, and there is no other.
pub(crate) fn check_notes(rt: &impl Abort, alloc: Global, notes: &[Note], history: &[Entry]) {
    assert_eq!(rt; notes.len(), history.len());
    for note in notes {
        let at = note.number.checked_sub(1).expect(rt, "a number");
        let entry = history.get(at as usize).expect(rt, "an entry");
        assert_eq!(rt; note.pass, entry.pass);
        let said = text(rt, alloc, &entry.request, &entry.reply);
        assert_eq!(rt; note.text, said);
    }
}

/// How many entries made a change.
pub(crate) fn changes(history: &[Entry]) -> usize {
    let mut count = 0usize;
    for entry in history {
        if matches!(entry.reply, Reply::Ok | Reply::Count(_)) {
            count = count.saturating_add(1);
        }
    }
    count
}

/// The commit's whole tree after all entries, of which each is replayed.
pub(crate) fn replay(
    rt: &impl Abort,
    alloc: Global,
    commit: &Commit,
    history: &[Entry],
) -> WholeTree {
    let mut tree = commit.whole(alloc).expect(rt, "a tree");
    for entry in history {
        let is_replayed = replays(alloc, &mut tree, entry).expect(rt, "memory");
        assert!(rt; is_replayed, "{entry:?}");
    }
    tree
}

/// The mount is closed and opened again, and shows the oracle's tree.
pub(crate) fn check_reopened(
    rt: &impl Abort,
    alloc: Global,
    commit: &Commit,
    mounted: Mounted,
    tree: &mut WholeTree,
) {
    let files = close(rt, alloc, mounted);
    let again = mount(rt, alloc, files, commit.root(), ONE);
    let unloading = Unloading {
        every: 3,
        age: 0,
        came: 0,
    };
    let mut caller = Local::new(alloc, again, Objects { commit }, unloading);
    for look in all_looks(alloc, tree).expect(rt, "memory") {
        let copy = look.copy(alloc).expect(rt, "memory");
        assert!(rt; caller.serve(copy).is_ok());
        let is_seen = is_seen(alloc, tree, &look, caller.reply());
        assert!(rt; is_seen.expect(rt, "memory"));
    }
}
