//! The bodies of directories that an overlay keeps, and what it makes of them.
ghost use Rattle.std.specs.Prelude.{◌≡◌, None, IfSome, List, ℕ};
ghost use Rattle.eden_model.specs.Names.{name_refusal};
ghost use Rattle.eden_overlay_format.specs.Changing.{entry_as};
ghost use Rattle.eden_overlay_format.specs.Directory.{IsStorable};

use crate::bodies::{ID, entries_of};
use crate::formats::{NEW_DIRECTORY, name, one_file, stored, told};
use eden_model::{Kind, Origin, Outside};
use eden_overlay::{Files, FilesFault, GetFault, MemoryFiles, Overlay, StopFiles};
use eden_overlay_format::{Listing, Refusal, RowFacts, Spliced, State, StoredEntry};
use std::alloc::{AllocError, Global};
use std::cell::Cell;
use std::process::Abort;
use std::rc::Rc;

type Stopping = Overlay<Outside, StopFiles<MemoryFiles<Outside>>>;

// The rows of a directory, each of a file that is the mount's own: the letter of its name, how often it stands there,
// and the number.
type Rows = &'static [(u8, u8, u8)];

// A body of 256 bytes, the shortest that is kept.
const FOUR: Rows = &[(b'b', 52, 2), (b'd', 52, 3), (b'f', 52, 4), (b'h', 52, 5)];

// The same with one row more between others, and after them.
const WITH_C: Rows = &[
    (b'b', 52, 2),
    (b'c', 52, 9),
    (b'd', 52, 3),
    (b'f', 52, 4),
    (b'h', 52, 5),
];

const WITH_I: Rows = &[
    (b'b', 52, 2),
    (b'd', 52, 3),
    (b'f', 52, 4),
    (b'h', 52, 5),
    (b'i', 52, 8),
];

// A byte less than is kept.
const SHORT: Rows = &[(b'b', 52, 2), (b'd', 52, 3), (b'f', 52, 4), (b'h', 51, 5)];

// With the second of five rows in place of the third.
const C_FOR_D: Rows = &[(b'b', 52, 2), (b'd', 52, 9), (b'f', 52, 4), (b'h', 52, 5)];

// Other rows, and with one more.
const OTHER: Rows = &[
    (b'a', 200, 12),
    (b'm', 200, 13),
    (b'n', 200, 14),
    (b'o', 200, 15),
];

const OTHER_WITH_C: Rows = &[
    (b'a', 200, 12),
    (b'c', 52, 9),
    (b'm', 200, 13),
    (b'n', 200, 14),
    (b'o', 200, 15),
];

// What is done with other files than directories: a content, numbers or the state is stored, and one of any is removed.
enum Deed {
    PutFile(u64),
    PutNumbers(u64),
    PutState,
    Remove(u64),
    RemoveState,
}

// What is done with an overlay, or asked of it.
enum Step {
    // The directory of that number is stored with these rows: what comes of it.
    Put(u64, Rows, Result<(), FilesFault>),
    // The entry of 52 such letters becomes a file of that number, or goes: what comes of it.
    Change(u64, u8, Option<u8>, Result<bool, FilesFault>),
    // The entry of 52 such letters gets this many of another one for its name, and becomes a file of that number: what
    // comes of it.
    Rename(u64, u8, u8, u8, Result<bool, FilesFault>),
    // The stored directory of that number has these rows.
    Has(u64, Rows),
    // There is none, for that reason.
    Lacks(u64, GetFault),
    // Another file is stored, or one is removed.
    Do(Deed),
    // This many calls on the files pass from now on.
    Allow(u64),
}

const ADD_C: Step = Step::Change(1, b'c', Some(9), Ok(true));

const C_IS_NOT_ADDED: Step = Step::Change(1, b'c', Some(9), Ok(false));

// What is done in turn, and what it shows.
const SCRIPTS: &[(&str, &[Step])] = &[
    (
        "one change after another",
        &[
            Step::Put(1, FOUR, Ok(())),
            ADD_C,
            Step::Has(1, WITH_C),
            Step::Change(1, b'c', None, Ok(true)),
            Step::Has(1, FOUR),
            Step::Change(1, b'c', None, Ok(true)),
            Step::Has(1, FOUR),
            Step::Change(1, b'i', Some(8), Ok(true)),
            Step::Has(1, WITH_I),
            Step::Change(1, b'b', Some(6), Ok(true)),
            Step::Change(1, b'b', Some(2), Ok(true)),
            Step::Has(1, WITH_I),
        ],
    ),
    (
        "a name in place of another",
        &[
            Step::Put(1, WITH_I, Ok(())),
            Step::Rename(1, b'i', b'c', 9, Ok(true)),
            Step::Has(1, WITH_C),
            Step::Rename(1, b'c', b'i', 8, Ok(true)),
            Step::Has(1, WITH_I),
            Step::Rename(1, b'c', b'i', 8, Ok(true)),
            Step::Has(1, WITH_I),
        ],
    ),
    (
        "a name that another entry has",
        &[
            Step::Put(1, WITH_C, Ok(())),
            Step::Rename(1, b'c', b'd', 9, Ok(true)),
            Step::Has(1, C_FOR_D),
            Step::Change(1, b'd', Some(3), Ok(true)),
            Step::Has(1, FOUR),
        ],
    ),
    (
        "a name where the body isn't kept",
        &[
            Step::Put(1, SHORT, Ok(())),
            Step::Put(2, WITH_I, Ok(())),
            Step::Rename(1, b'b', b'c', 9, Ok(false)),
            Step::Rename(3, b'b', b'c', 9, Ok(false)),
            Step::Has(1, SHORT),
            Step::Lacks(3, GetFault::Absent),
            Step::Rename(2, b'i', b'c', 9, Ok(true)),
            Step::Has(2, WITH_C),
        ],
    ),
    (
        "a new name is refused",
        &[
            Step::Put(1, WITH_I, Ok(())),
            Step::Allow(0),
            Step::Rename(1, b'i', b'c', 9, Err(FilesFault::Device)),
            Step::Allow(9),
            Step::Has(1, WITH_I),
            Step::Allow(1),
            Step::Rename(1, b'i', b'c', 9, Ok(true)),
            Step::Allow(9),
            Step::Has(1, WITH_C),
        ],
    ),
    (
        "what a change leaves too short isn't kept",
        &[
            Step::Put(1, FOUR, Ok(())),
            Step::Change(1, b'b', None, Ok(true)),
            Step::Has(1, &[(b'd', 52, 3), (b'f', 52, 4), (b'h', 52, 5)]),
            C_IS_NOT_ADDED,
            Step::Has(1, &[(b'd', 52, 3), (b'f', 52, 4), (b'h', 52, 5)]),
        ],
    ),
    (
        "too short",
        &[
            Step::Put(1, SHORT, Ok(())),
            C_IS_NOT_ADDED,
            Step::Has(1, SHORT),
        ],
    ),
    (
        "nothing is stored",
        &[C_IS_NOT_ADDED, Step::Lacks(1, GetFault::Absent)],
    ),
    (
        "another number",
        &[
            Step::Put(1, FOUR, Ok(())),
            Step::Change(2, b'c', Some(9), Ok(false)),
            Step::Lacks(2, GetFault::Absent),
            Step::Has(1, FOUR),
            ADD_C,
            Step::Has(1, WITH_C),
        ],
    ),
    (
        "another directory is stored",
        &[
            Step::Put(1, FOUR, Ok(())),
            Step::Put(2, WITH_C, Ok(())),
            ADD_C,
            Step::Has(1, WITH_C),
            Step::Change(2, b'c', None, Ok(true)),
            Step::Has(2, FOUR),
            Step::Rename(1, b'c', b'd', 9, Ok(true)),
            Step::Has(1, C_FOR_D),
        ],
    ),
    (
        "two other directories are stored",
        &[
            Step::Put(1, FOUR, Ok(())),
            Step::Put(2, WITH_C, Ok(())),
            Step::Put(3, OTHER, Ok(())),
            C_IS_NOT_ADDED,
            Step::Has(1, FOUR),
            Step::Change(2, b'c', None, Ok(true)),
            Step::Change(3, b'c', Some(9), Ok(true)),
            Step::Has(2, FOUR),
            Step::Has(3, OTHER_WITH_C),
        ],
    ),
    (
        "of three directories the one that was changed last but one stays",
        &[
            Step::Put(1, FOUR, Ok(())),
            Step::Put(2, WITH_C, Ok(())),
            ADD_C,
            Step::Put(3, OTHER, Ok(())),
            Step::Change(2, b'c', None, Ok(false)),
            Step::Change(1, b'c', None, Ok(true)),
            Step::Has(1, FOUR),
            Step::Has(2, WITH_C),
        ],
    ),
    (
        "either of two directories is removed",
        &[
            Step::Put(1, FOUR, Ok(())),
            Step::Put(2, WITH_C, Ok(())),
            Step::Do(Deed::Remove(1)),
            C_IS_NOT_ADDED,
            Step::Change(2, b'c', None, Ok(true)),
            Step::Put(1, FOUR, Ok(())),
            Step::Do(Deed::Remove(1)),
            C_IS_NOT_ADDED,
            Step::Change(2, b'c', Some(9), Ok(true)),
            Step::Has(2, WITH_C),
        ],
    ),
    (
        "another directory that is too short is stored",
        &[
            Step::Put(1, FOUR, Ok(())),
            Step::Put(2, SHORT, Ok(())),
            Step::Change(2, b'c', Some(9), Ok(false)),
            ADD_C,
            Step::Has(1, WITH_C),
            Step::Has(2, SHORT),
        ],
    ),
    (
        "other files are stored and removed",
        &[
            Step::Put(1, FOUR, Ok(())),
            Step::Do(Deed::PutFile(2)),
            Step::Do(Deed::PutNumbers(3)),
            Step::Do(Deed::PutState),
            Step::Do(Deed::Remove(2)),
            Step::Do(Deed::RemoveState),
            ADD_C,
            Step::Has(1, WITH_C),
        ],
    ),
    (
        "a content is stored in its place",
        &[
            Step::Put(1, FOUR, Ok(())),
            Step::Do(Deed::PutFile(1)),
            C_IS_NOT_ADDED,
            Step::Lacks(1, GetFault::Damaged(Refusal::BadIdentifier)),
        ],
    ),
    (
        "other entries are stored in its place",
        &[
            Step::Put(1, FOUR, Ok(())),
            Step::Put(1, OTHER, Ok(())),
            ADD_C,
            Step::Has(1, OTHER_WITH_C),
        ],
    ),
    (
        "entries that are too short are stored in its place",
        &[
            Step::Put(1, FOUR, Ok(())),
            Step::Put(1, SHORT, Ok(())),
            C_IS_NOT_ADDED,
            Step::Has(1, SHORT),
        ],
    ),
    (
        "numbers are stored in its place",
        &[
            Step::Put(1, FOUR, Ok(())),
            Step::Do(Deed::PutNumbers(1)),
            C_IS_NOT_ADDED,
            Step::Lacks(1, GetFault::Damaged(Refusal::BadIdentifier)),
        ],
    ),
    (
        "it is removed",
        &[
            Step::Put(1, FOUR, Ok(())),
            Step::Do(Deed::Remove(1)),
            C_IS_NOT_ADDED,
            Step::Lacks(1, GetFault::Absent),
        ],
    ),
    (
        "the state is stored in its place",
        &[
            Step::Put(0, FOUR, Ok(())),
            Step::Do(Deed::PutState),
            Step::Change(0, b'c', Some(9), Ok(false)),
            Step::Lacks(0, GetFault::Damaged(Refusal::BadIdentifier)),
        ],
    ),
    (
        "it is removed as the state",
        &[
            Step::Put(0, FOUR, Ok(())),
            Step::Do(Deed::RemoveState),
            Step::Change(0, b'c', Some(9), Ok(false)),
            Step::Lacks(0, GetFault::Absent),
        ],
    ),
    (
        "a change is refused",
        &[
            Step::Put(1, FOUR, Ok(())),
            Step::Allow(0),
            Step::Change(1, b'c', Some(9), Err(FilesFault::Device)),
            Step::Change(2, b'c', Some(9), Ok(false)),
            Step::Allow(9),
            Step::Has(1, FOUR),
            Step::Change(1, b'i', Some(8), Ok(true)),
            Step::Has(1, WITH_I),
        ],
    ),
    (
        "a store in its place is refused",
        &[
            Step::Put(1, FOUR, Ok(())),
            Step::Allow(0),
            Step::Put(1, OTHER, Err(FilesFault::Device)),
            Step::Allow(9),
            Step::Has(1, FOUR),
            ADD_C,
            Step::Has(1, WITH_C),
        ],
    ),
    (
        "a store of another directory is refused",
        &[
            Step::Put(1, FOUR, Ok(())),
            Step::Allow(0),
            Step::Put(2, OTHER, Err(FilesFault::Device)),
            Step::Allow(9),
            Step::Change(2, b'c', Some(9), Ok(false)),
            ADD_C,
            Step::Has(1, WITH_C),
        ],
    ),
];

// This many of the letter.
fn letters(all: &[u8; 255], times: u8) -> &[u8] {
    &all[..usize::from(times)]
}

// The body of a directory with these rows.
fn body_of(rt: &impl Abort, alloc: Global, rows: Rows) -> Vec<u8> {
    let mut body = b"\0\0\0".to_vec(alloc).expect(rt, "memory");
    body.push((rows.len() % 256) as u8).expect(rt, "memory");
    for (letter, times, number) in rows {
        put_row(&mut body, *letter, *times, *number).expect(rt, "memory");
    }
    body
}

// Writes the row of a file that is the mount's own, whose name has this many of the letter.
fn put_row(body: &mut Vec<u8>, letter: u8, times: u8, number: u8) -> Result<(), AllocError> {
    body.extend_from_slice(&[0, 1, 0, 0, 0, 0, 0, 0, 0, number, times])?;
    body.extend_from_slice(letters(&[letter; 255], times))
}

// What comes of a store of a directory with these rows.
fn put(
    rt: &impl Abort,
    overlay: &mut Stopping,
    alloc: Global,
    number: u64,
    rows: Rows,
) -> Result<(), FilesFault> {
    let body = body_of(rt, alloc, rows);
    let entries = entries_of(rt, alloc, &body);
    drop(body);
    let outcome = overlay.put_dir(alloc, number, &entries);
    drop(entries);
    outcome
}

// What a row says of a file of that number that is the mount's own; nothing of a number below 2.
fn own_file(number: Option<u8>) -> Option<RowFacts>
    ensures { IfSome result (λ f. (n : List ℕ) → name_refusal n ≡ None → IsStorable (entry_as n f)) }
{
    match number {
        Some(number) if number >= 2 => Some(RowFacts {
            kind: Kind::File,
            origin: Origin::Own,
            number: u64::from(number),
        }),
        _ => None,
    }
}

// What comes of a change of the entry of 52 such letters.
fn change(
    rt: &impl Abort,
    overlay: &mut Stopping,
    alloc: Global,
    number: u64,
    entry: (u8, Option<u8>),
) -> Result<bool, FilesFault> {
    let (letter, new) = entry;
    let name = name(rt, alloc, &[letter; 52]);
    let outcome = overlay.store_entry(alloc, number, &name, own_file(new));
    drop(name);
    outcome
}

// What comes of it if the entry of 52 such letters gets another name.
fn rename(
    rt: &impl Abort,
    overlay: &mut Stopping,
    alloc: Global,
    number: u64,
    entry: (u8, u8, u8),
) -> Result<bool, FilesFault> {
    let (letter, new_letter, new) = entry;
    let Some(facts) = own_file(Some(new)) else {
        return Ok(false);
    };
    let old_name = name(rt, alloc, &[letter; 52]);
    let new_name = name(rt, alloc, &[new_letter; 52]);
    let outcome = overlay.store_renamed(alloc, number, &old_name, &new_name, facts);
    drop(old_name);
    drop(new_name);
    outcome
}

// Whether the entry is as that row says.
fn is_row(entry: &StoredEntry, letter: u8, times: u8, number: u8) -> bool {
    entry.name.as_slice() == letters(&[letter; 255], times)
        && entry.kind == Kind::File
        && entry.origin == Origin::Own
        && entry.number == u64::from(number)
}

// Whether these are the entries of the rows.
fn are_rows(entries: &[StoredEntry], rows: Rows) -> bool {
    for (entry, (letter, times, number)) in entries.iter().zip(rows) {
        if !is_row(entry, *letter, *times, *number) {
            return false;
        }
    }
    entries.len() == rows.len()
}

// Whether the stored directory of that number has these rows.
fn has(overlay: &mut Stopping, alloc: Global, number: u64, rows: Rows) -> bool {
    match overlay.get_dir(alloc, number) {
        Ok(entries) => are_rows(&entries, rows),
        Err(_) => false,
    }
}

// Whether no directory of that number is stored, for that reason.
fn lacks(overlay: &mut Stopping, alloc: Global, number: u64, why: GetFault) -> bool {
    match overlay.get_dir(alloc, number) {
        Ok(_) => false,
        Err(fault) => fault == why,
    }
}

// What comes of a store of numbers.
fn put_numbers(
    rt: &impl Abort,
    overlay: &mut Stopping,
    alloc: Global,
    number: u64,
) -> Result<(), FilesFault> {
    let entries = one_file(rt, alloc, Origin::Object(ID));
    let listing = Listing::of(overlay.room(alloc), &entries).expect(rt, "memory");
    drop(entries);
    overlay.put_numbers(alloc, number, ID, listing)
}

// What comes of it.
fn outcome_of(
    rt: &impl Abort,
    overlay: &mut Stopping,
    alloc: Global,
    deed: &Deed,
) -> Result<(), FilesFault> {
    match deed {
        Deed::PutFile(number) => overlay.put_file(alloc, *number, Spliced::whole(b"hi")),
        Deed::PutNumbers(number) => put_numbers(rt, overlay, alloc, *number),
        Deed::PutState => overlay.put_state(alloc, State { root: ID, next: 3 }),
        Deed::Remove(number) => overlay.remove(*number),
        Deed::RemoveState => overlay.remove_state(),
    }
}

// Whether the step goes as it says.
fn goes(
    rt: &impl Abort,
    overlay: &mut Stopping,
    alloc: Global,
    allowed: &Cell<u64>,
    step: &Step,
) -> bool {
    match step {
        Step::Put(number, rows, answer) => put(rt, overlay, alloc, *number, rows) == *answer,
        Step::Change(number, letter, new, answer) => {
            change(rt, overlay, alloc, *number, (*letter, *new)) == *answer
        }
        Step::Rename(number, letter, new_letter, new, answer) => {
            rename(rt, overlay, alloc, *number, (*letter, *new_letter, *new)) == *answer
        }
        Step::Has(number, rows) => has(overlay, alloc, *number, rows),
        Step::Lacks(number, why) => lacks(overlay, alloc, *number, *why),
        Step::Do(deed) => outcome_of(rt, overlay, alloc, deed).is_ok(),
        Step::Allow(calls) => {
            allowed.set(*calls);
            true
        }
    }
}

// Whether each of the steps goes as it says.
fn all_go(
    rt: &impl Abort,
    overlay: &mut Stopping,
    alloc: Global,
    allowed: &Cell<u64>,
    steps: &[Step],
) -> bool {
    for step in steps {
        if !goes(rt, overlay, alloc, allowed, step) {
            return false;
        }
    }
    true
}

// An overlay without files, of which this many calls pass.
fn opened(rt: &impl Abort, alloc: Global, allowed: &Rc<Cell<u64>>) -> Stopping {
    let counted = allowed.clone().expect(rt, "memory");
    let files = StopFiles::new(MemoryFiles::<Outside>::new(alloc), counted);
    Overlay::new(alloc, files)
}

// Whether each of the steps goes as it says, over an overlay without files.
fn is_done(rt: &impl Abort, alloc: Global, steps: &[Step]) -> bool {
    let allowed = Rc::new(alloc, Cell::new(u64::MAX)).expect(rt, "memory");
    let mut overlay = opened(rt, alloc, &allowed);
    let is_done = all_go(rt, &mut overlay, alloc, &allowed, steps);
    drop(overlay);
    is_done
}

#[test]
fn an_entry_changes_where_the_body_is_kept(rt: HostRuntime) {
    for (script, steps) in SCRIPTS {
        assert!(rt; is_done(&rt, rt.alloc(), steps), "{script}");
    }
}

// What makes the same body of five rows.
const MAKING: &[&[Step]] = &[
    &[Step::Put(1, WITH_C, Ok(()))],
    &[Step::Put(1, FOUR, Ok(())), ADD_C],
    &[
        Step::Put(1, WITH_I, Ok(())),
        Step::Rename(1, b'i', b'c', 9, Ok(true)),
    ],
];

// The SHA-1 of that body.
const WITH_C_DIGEST: [u8; 20] = [
    0x06, 0xad, 0xd5, 0xfb, 0x02, 0x0e, 0x54, 0x26, 0xb1, 0x01, 0x76, 0x3c, 0xf9, 0x2f, 0xc0, 0x62,
    0x70, 0xce, 0xe3, 0x97,
];

// The file 1 of an overlay after these steps; None if one doesn't go as it says.
fn left_by(rt: &impl Abort, alloc: Global, steps: &[Step]) -> Option<Vec<u8>> {
    let allowed = Rc::new(alloc, Cell::new(u64::MAX)).expect(rt, "memory");
    let mut overlay = opened(rt, alloc, &allowed);
    let is_done = all_go(rt, &mut overlay, alloc, &allowed, steps);
    let mut files = overlay.into_files().into_files();
    let file = files.read(alloc, 1).expect(rt, "memory");
    if is_done { file } else { None }
}

#[test]
fn a_changed_directory_is_stored_as_a_whole(rt: HostRuntime) {
    let body = body_of(&rt, rt.alloc(), WITH_C);
    let want = told(&rt, rt.alloc(), &NEW_DIRECTORY, &WITH_C_DIGEST, 0, &body);
    assert!(rt; body.len() == 319);
    for steps in MAKING {
        let file = left_by(&rt, rt.alloc(), steps).expect(&rt, "a file");
        assert!(rt; file == want);
    }
}
