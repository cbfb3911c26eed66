//! A directory's body of which one entry changes.
ghost use Rattle.std.specs.Prelude.{◌≡◌, None, IfSome, List, ℕ};
ghost use Rattle.eden_model.specs.Names.{name_refusal};
ghost use Rattle.eden_overlay_format.specs.Changing.{entry_as};
ghost use Rattle.eden_overlay_format.specs.Directory.{AreStorable, IsStorable};

use crate::formats::{DIRECTORY, name, stored};
use eden_model::{Id, Kind, Origin};
use eden_overlay_format::{DirectoryBody, Listing, RowFacts, StoredEntry, decode_dir};
use std::alloc::Global;
use std::process::Abort;

// An id, which the rows below spell.
pub(crate) const ID: Id = Id {
    bytes: *b"0123456789abcdefghij",
};

// A number of which no two bytes are the same.
const NUMBER: u64 = 0x0102_0304_0506_0708;

// What an entry is to be: none, a file of the mount's own, an object's program, or an empty directory.
enum Wanted {
    Nothing,
    Own,
    Object,
    Empty,
}

// What its row says.
fn facts_of(wanted: &Wanted) -> Option<RowFacts>
    ensures { IfSome result (λ f. (n : List ℕ) → name_refusal n ≡ None → IsStorable (entry_as n f)) }
{
    let (kind, origin) = match wanted {
        Wanted::Nothing => return None,
        Wanted::Own => (Kind::File, Origin::Own),
        Wanted::Object => (Kind::Exec, Origin::Object(ID)),
        Wanted::Empty => (Kind::Dir, Origin::Empty),
    };
    Some(RowFacts {
        kind,
        origin,
        number: NUMBER,
    })
}

// Directories: without entries, with one file, and with three of which one is an object's.
const NONE: &[u8] = b"\0\0\0\0";

const D: &[u8] = b"\0\0\0\x01\0\x01\0\0\0\0\0\0\0\x03\x01d";

const F: &[u8] = b"\0\0\0\x01\0\x01\0\0\0\0\0\0\0\x04\x01f";

const BDF: &[u8] = b"\0\0\0\x03\
    \0\x01\0\0\0\0\0\0\0\x02\x01b\
    \0\0\0\0\0\0\0\0\0\x030123456789abcdefghij\x01d\
    \0\x01\0\0\0\0\0\0\0\x04\x01f";

// A directory's body, the name that changes, what it is to be, and the body with that.
const CHANGES: &[(&[u8], &[u8], Wanted, &[u8])] = &[
    // Before all, between two, and after all.
    (
        BDF,
        b"a",
        Wanted::Own,
        b"\0\0\0\x04\
        \0\x01\x01\x02\x03\x04\x05\x06\x07\x08\x01a\
        \0\x01\0\0\0\0\0\0\0\x02\x01b\
        \0\0\0\0\0\0\0\0\0\x030123456789abcdefghij\x01d\
        \0\x01\0\0\0\0\0\0\0\x04\x01f",
    ),
    (
        BDF,
        b"c",
        Wanted::Object,
        b"\0\0\0\x04\
        \0\x01\0\0\0\0\0\0\0\x02\x01b\
        \x01\0\x01\x02\x03\x04\x05\x06\x07\x080123456789abcdefghij\x01c\
        \0\0\0\0\0\0\0\0\0\x030123456789abcdefghij\x01d\
        \0\x01\0\0\0\0\0\0\0\x04\x01f",
    ),
    (
        BDF,
        b"e",
        Wanted::Empty,
        b"\0\0\0\x04\
        \0\x01\0\0\0\0\0\0\0\x02\x01b\
        \0\0\0\0\0\0\0\0\0\x030123456789abcdefghij\x01d\
        \x03\x02\x01\x02\x03\x04\x05\x06\x07\x08\x01e\
        \0\x01\0\0\0\0\0\0\0\x04\x01f",
    ),
    (
        BDF,
        b"g",
        Wanted::Own,
        b"\0\0\0\x04\
        \0\x01\0\0\0\0\0\0\0\x02\x01b\
        \0\0\0\0\0\0\0\0\0\x030123456789abcdefghij\x01d\
        \0\x01\0\0\0\0\0\0\0\x04\x01f\
        \0\x01\x01\x02\x03\x04\x05\x06\x07\x08\x01g",
    ),
    // In the place of the first, of the second, which is an object's, and of the last.
    (
        BDF,
        b"b",
        Wanted::Object,
        b"\0\0\0\x03\
        \x01\0\x01\x02\x03\x04\x05\x06\x07\x080123456789abcdefghij\x01b\
        \0\0\0\0\0\0\0\0\0\x030123456789abcdefghij\x01d\
        \0\x01\0\0\0\0\0\0\0\x04\x01f",
    ),
    (
        BDF,
        b"d",
        Wanted::Own,
        b"\0\0\0\x03\
        \0\x01\0\0\0\0\0\0\0\x02\x01b\
        \0\x01\x01\x02\x03\x04\x05\x06\x07\x08\x01d\
        \0\x01\0\0\0\0\0\0\0\x04\x01f",
    ),
    (
        BDF,
        b"f",
        Wanted::Empty,
        b"\0\0\0\x03\
        \0\x01\0\0\0\0\0\0\0\x02\x01b\
        \0\0\0\0\0\0\0\0\0\x030123456789abcdefghij\x01d\
        \x03\x02\x01\x02\x03\x04\x05\x06\x07\x08\x01f",
    ),
    // Taken out: the first, the one between, the last, and names that aren't there.
    (
        BDF,
        b"b",
        Wanted::Nothing,
        b"\0\0\0\x02\
        \0\0\0\0\0\0\0\0\0\x030123456789abcdefghij\x01d\
        \0\x01\0\0\0\0\0\0\0\x04\x01f",
    ),
    (
        BDF,
        b"d",
        Wanted::Nothing,
        b"\0\0\0\x02\
        \0\x01\0\0\0\0\0\0\0\x02\x01b\
        \0\x01\0\0\0\0\0\0\0\x04\x01f",
    ),
    (
        BDF,
        b"f",
        Wanted::Nothing,
        b"\0\0\0\x02\
        \0\x01\0\0\0\0\0\0\0\x02\x01b\
        \0\0\0\0\0\0\0\0\0\x030123456789abcdefghij\x01d",
    ),
    (BDF, b"a", Wanted::Nothing, BDF),
    (BDF, b"c", Wanted::Nothing, BDF),
    (BDF, b"g", Wanted::Nothing, BDF),
    // A name that begins with another, that name, and one whose byte is past the letters.
    (
        D,
        b"dd",
        Wanted::Own,
        b"\0\0\0\x02\
        \0\x01\0\0\0\0\0\0\0\x03\x01d\
        \0\x01\x01\x02\x03\x04\x05\x06\x07\x08\x02dd",
    ),
    (
        b"\0\0\0\x01\0\x01\0\0\0\0\0\0\0\x05\x02dd",
        b"d",
        Wanted::Own,
        b"\0\0\0\x02\
        \0\x01\x01\x02\x03\x04\x05\x06\x07\x08\x01d\
        \0\x01\0\0\0\0\0\0\0\x05\x02dd",
    ),
    (D, b"dd", Wanted::Nothing, D),
    (
        b"\0\0\0\x02\0\x01\0\0\0\0\0\0\0\x03\x01d\0\x01\0\0\0\0\0\0\0\x05\x02dd",
        b"d",
        Wanted::Nothing,
        b"\0\0\0\x01\0\x01\0\0\0\0\0\0\0\x05\x02dd",
    ),
    (
        D,
        b"\xc3\xa4",
        Wanted::Own,
        b"\0\0\0\x02\
        \0\x01\0\0\0\0\0\0\0\x03\x01d\
        \0\x01\x01\x02\x03\x04\x05\x06\x07\x08\x02\xc3\xa4",
    ),
    // Into a directory without entries, out of it, and the last one out of another.
    (
        NONE,
        b"d",
        Wanted::Own,
        b"\0\0\0\x01\0\x01\x01\x02\x03\x04\x05\x06\x07\x08\x01d",
    ),
    (NONE, b"d", Wanted::Nothing, NONE),
    (D, b"d", Wanted::Nothing, NONE),
];

// The entries that a directory's body lists.
pub(crate) fn entries_of(rt: &impl Abort, alloc: Global, body: &[u8]) -> Vec<StoredEntry>
    ensures { AreStorable result.items }
{
    let file = stored(rt, alloc, &DIRECTORY, 0, body);
    decode_dir(alloc, &file).expect(rt, "a directory")
}

// The same body as one that changes.
fn changing(rt: &impl Abort, alloc: Global, body: &[u8]) -> DirectoryBody {
    let entries = entries_of(rt, alloc, body);
    let listing = Listing::of(Vec::new(alloc), &entries).expect(rt, "memory");
    DirectoryBody::of(listing)
}

// The bytes of the body with its entry of that name changed, written in a room that has these bytes.
fn changed(
    rt: &impl Abort,
    alloc: Global,
    body: &DirectoryBody,
    entry: (&[u8], &Wanted),
    room: &[u8],
) -> DirectoryBody {
    let (letters, wanted) = entry;
    let name = name(rt, alloc, letters);
    let room = room.to_vec(alloc).expect(rt, "memory");
    body.changed(room, &name, facts_of(wanted))
        .expect(rt, "memory")
}

// Whether the entry's change makes that body of the other, which stays.
fn makes(
    rt: &impl Abort,
    alloc: Global,
    before: &[u8],
    entry: (&[u8], &Wanted),
    after: &[u8],
) -> bool {
    let body = changing(rt, alloc, before);
    let new = changed(rt, alloc, &body, entry, b"");
    let makes = body.bytes() == before && new.bytes() == after;
    drop(body);
    drop(new);
    makes
}

#[test]
fn one_entry_of_a_body_changes(rt: HostRuntime) {
    for (before, letters, wanted, after) in CHANGES {
        assert!(rt; makes(&rt, rt.alloc(), before, (letters, wanted), after));
    }
}

// Whether the last of three entries is left, if two go in turn, each written in a room that had these bytes.
fn leaves_the_last(rt: &impl Abort, alloc: Global, room: &[u8]) -> bool {
    let body = changing(rt, alloc, BDF);
    let once = changed(rt, alloc, &body, (b"d", &Wanted::Nothing), room);
    let twice = changed(rt, alloc, &once, (b"b", &Wanted::Nothing), room);
    let leaves = twice.bytes() == F;
    drop(body);
    drop(once);
    drop(twice);
    leaves
}

#[test]
fn a_body_is_written_over_what_its_room_held(rt: HostRuntime) {
    for room in [b"other".as_slice(), BDF, &[7; 9000]] {
        assert!(rt; leaves_the_last(&rt, rt.alloc(), room));
    }
}
