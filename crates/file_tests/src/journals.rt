//! Files with a journal over them: in memory, in a directory, cut, and stopped in the middle.
use crate::folders::{Made, folder_of, has, make, remove};
use crate::kinds::{Answer, Call, SIXTY_FOUR, SIXTY_SIX, ask_all, behave};
use crate::steps::{Step, fills, follow, follow_with, is_filled, of_length};
use crate::told::require;
use eden_model::{Obstacle, Outside};
use eden_overlay::{FailingFiles, Files, FilesFault, FolderFiles, MemoryFiles, StopFiles};
use eden_overlay_format::Head;
use eden_overlay_journal::{
    FolderJournal, Journal, Journaled, LONGEST_RECORD, MemoryJournal, taken_in,
};
use std::alloc::Global;
use std::cell::Cell;
use std::io::{self, ErrorKind};
use std::path::PathBuf;
use std::process::Abort;
use std::rc::Rc;
use std::time::{Duration, SystemTime};
use std::{fs, thread};
use test_samples::{Call as SystemCall, FaultySystem};

type InMemory = Journaled<MemoryFiles<Outside>, MemoryJournal<Outside>>;

pub type InFolder = Journaled<FolderFiles<HostRuntime>, FolderJournal<HostRuntime>>;

fn in_memory(alloc: Global) -> InMemory {
    Journaled::new(MemoryFiles::new(alloc), MemoryJournal::new(alloc))
}

// The files of the directory, as an opening finds them.
pub fn opened(rt: &HostRuntime, folder: &PathBuf) -> Result<InFolder, FilesFault> {
    let path = folder.clone()?;
    let journal = FolderJournal::open(*rt, rt.alloc(), folder)?;
    taken_in::<Outside, _, _>(rt.alloc(), FolderFiles::new(*rt, path), journal)
}

// The steps are so over the files of the directory, as an opening finds them.
pub fn follow_opened(rt: &impl Abort, system: &HostRuntime, folder: &PathBuf, steps: &[Step]) {
    follow_with(
        rt,
        system,
        folder,
        opened(system, folder).expect(rt, "files"),
        steps,
    )
}

#[test]
fn a_journal_in_memory_behaves(rt: HostRuntime) {
    behave(&rt, rt.alloc(), in_memory(rt.alloc()), true);
    behave(&rt, rt.alloc(), in_memory(rt.alloc()), false);
}

const NO_JOURNAL: Step = Step::Has("journal", false);

// What is stored by `BEHAVIOUR` at its end.
const LEFT: &[Step] = &[
    NO_JOURNAL,
    Step::Gives(Call::Read(2), Answer::Bytes(Some(b""))),
    Step::Gives(Call::Read(5), Answer::Bytes(None)),
    Step::Gives(Call::Read(10), Answer::Bytes(None)),
    Step::Gives(Call::Read(u64::MAX), Answer::Bytes(Some(b"\0\xff"))),
    Step::Gives(Call::Read(0), Answer::Bytes(Some(b"zero"))),
    Step::Gives(Call::List, Answer::Numbers(&[0, 2, u64::MAX])),
];

#[test]
fn a_journal_in_a_folder_behaves(rt: HostRuntime) {
    for lists in &[true, false] {
        let folder = folder_of(&rt, "journal-behaves", &[]).expect(&rt, "a folder");
        let files = opened(&rt, &folder).expect(&rt, "files");
        behave(&rt, rt.alloc(), files, *lists);
        follow_opened(&rt, &rt, &folder, LEFT);
        remove(&rt, folder).expect(&rt, "a folder");
    }
}

// What a directory has with a file 3.
const THREE: &[(&str, Made)] = &[("3", Made::File(b"3"))];

// Changes, of which the records take 48 + 64, 48 + 2, 48, 48 + 66 and 48 bytes; no numbered file has changed then.
const CHANGES: &[Step] = &[
    Step::Gives(Call::Replace(5, SIXTY_FOUR), Answer::Done),
    Step::Gives(Call::Replace(7, b"7!"), Answer::Done),
    Step::Gives(Call::Remove(3), Answer::Done),
    Step::Gives(Call::Replace(5, SIXTY_SIX), Answer::Done),
    Step::Gives(Call::Remove(7), Answer::Done),
    Step::Has("5", false),
    Step::Has("3", true),
];

const OLD_THREE: Step = Step::Gives(Call::Read(3), Answer::Bytes(Some(b"3")));

const NO_THREE: Step = Step::Gives(Call::Read(3), Answer::Bytes(None));

const NO_FIVE: Step = Step::Gives(Call::Read(5), Answer::Bytes(None));

const SHORT_FIVE: Step = Step::Gives(Call::Read(5), Answer::Bytes(Some(SIXTY_FOUR)));

const LONG_FIVE: Step = Step::Gives(Call::Read(5), Answer::Bytes(Some(SIXTY_SIX)));

const NO_SEVEN: Step = Step::Gives(Call::Read(7), Answer::Bytes(None));

const SEVEN: Step = Step::Gives(Call::Read(7), Answer::Bytes(Some(b"7!")));

// What there is once all of the changes are done, over a file 3.
const ALL_DONE: &[Step] = &[NO_THREE, LONG_FIVE, NO_SEVEN, NO_JOURNAL];

// Where each record of `CHANGES` ends, and what there is once those up to it are done, over a file 3.
const AFTER: &[(usize, &[Step])] = &[
    (0, &[OLD_THREE, NO_FIVE, NO_SEVEN, NO_JOURNAL]),
    (112, &[OLD_THREE, SHORT_FIVE, NO_SEVEN, NO_JOURNAL]),
    (162, &[OLD_THREE, SHORT_FIVE, SEVEN, NO_JOURNAL]),
    (210, &[NO_THREE, SHORT_FIVE, SEVEN, NO_JOURNAL]),
    (324, &[NO_THREE, LONG_FIVE, SEVEN, NO_JOURNAL]),
    (372, ALL_DONE),
];

// What there is once the records are done that end in that many bytes.
fn after(len: usize) -> &'static [Step<'static>] {
    let mut there: &'static [Step<'static>] = &[];
    for (end, steps) in AFTER {
        if *end <= len {
            there = *steps;
        }
    }
    there
}

pub fn write_journal(rt: &HostRuntime, folder: &PathBuf, journal: &[u8]) -> io::Result<()> {
    let path = folder.join(rt.alloc(), "journal")?;
    fs::write(rt, path.as_path(), journal)
}

// A directory with a file 3, and these bytes as its journal.
fn left(rt: &impl Abort, system: &HostRuntime, name: &str, journal: &[u8]) -> PathBuf {
    let folder = folder_of(system, name, THREE).expect(rt, "a folder");
    write_journal(system, &folder, journal).expect(rt, "a journal");
    folder
}

// The least that stands after the records of a journal that is written, zeros.
const RESERVE: usize = 64 << 10;

// Whether the reserve stands after records of that many bytes.
fn has_reserve(journal: &[u8], len: usize) -> bool {
    match journal.split_at_checked(len) {
        Some((_, reserve)) => reserve.len() >= RESERVE && are_zeros(reserve),
        None => false,
    }
}

fn are_zeros(bytes: &[u8]) -> bool {
    for byte in bytes {
        if *byte != 0 {
            return false;
        }
    }
    true
}

fn journal_of(rt: &HostRuntime, folder: &PathBuf) -> io::Result<Vec<u8>> {
    let path = folder.join(rt.alloc(), "journal")?;
    fs::read(rt, path.as_path())
}

// The records of the directory's journal, which have that many bytes, with the reserve after them.
pub fn records_of(rt: &impl Abort, system: &HostRuntime, folder: &PathBuf, len: usize) -> Vec<u8> {
    let mut journal = journal_of(system, folder).expect(rt, "a journal");
    require(
        rt,
        has_reserve(&journal, len),
        "records, and a reserve behind them",
    );
    journal.truncate(len);
    journal
}

// The records of the journal that `CHANGES` leaves.
fn changes_left(rt: &impl Abort, system: &HostRuntime) -> Vec<u8> {
    let folder = folder_of(system, "journal-changes", THREE).expect(rt, "a folder");
    follow_opened(rt, system, &folder, CHANGES);
    let journal = records_of(rt, system, &folder, 372);
    remove(system, folder).expect(rt, "a folder");
    journal
}

// A journal of these bytes is taken in, over a file 3, and the steps are so then.
pub fn take_in(rt: &impl Abort, system: &HostRuntime, name: &str, journal: &[u8], steps: &[Step]) {
    let folder = left(rt, system, name, journal);
    follow_opened(rt, system, &folder, steps);
    remove(system, folder).expect(rt, "a folder");
}

#[test]
fn a_cut_journal_is_taken_in_up_to_the_cut(rt: HostRuntime) {
    let journal = changes_left(&rt, &rt);
    for len in 0..=journal.len() {
        take_in(&rt, &rt, "journal-cut", &journal[..len], after(len));
    }
    require(&rt, journal.len() == 372, "all of the journal");
}

// Zeros after the records, be it as many as a record's fields have, end them.
#[test]
fn a_journal_with_a_reserve_is_taken_in(rt: HostRuntime) {
    let mut journal = changes_left(&rt, &rt);
    for len in &[373, 372 + 48, 372 + 5000] {
        journal.resize(*len, 0).expect(&rt, "memory");
        take_in(&rt, &rt, "journal-reserve", &journal, ALL_DONE);
    }
}

// The directory's journal notes that file 9 is stored.
fn note_nine(rt: &impl Abort, system: &HostRuntime, folder: &PathBuf) {
    let mut journal = FolderJournal::open(*system, system.alloc(), folder).expect(rt, "a journal");
    let answer = Journal::<Outside>::store(&mut journal, system.alloc(), 9, b"9");
    drop(journal);
    require(rt, answer == Ok(()), "file 9 noted");
}

const DONE_AND_NINE: &[Step] = &[
    NO_THREE,
    LONG_FIVE,
    NO_SEVEN,
    Step::Gives(Call::Read(9), Answer::Bytes(Some(b"9"))),
];

// As after a kill, by a run that continues in it: the record stands after the others, and its reserve after it.
#[test]
fn a_journal_with_a_reserve_goes_on(rt: HostRuntime) {
    let mut journal = changes_left(&rt, &rt);
    journal.resize(5000, 0).expect(&rt, "memory");
    let folder = left(&rt, &rt, "journal-goes-on", &journal);
    note_nine(&rt, &rt, &folder);
    drop(records_of(&rt, &rt, &folder, 372 + 49));
    follow_opened(&rt, &rt, &folder, DONE_AND_NINE);
    remove(&rt, folder).expect(&rt, "a folder");
}

#[test]
fn a_damaged_journal_is_taken_in_up_to_the_damage(rt: HostRuntime) {
    let mut journal = changes_left(&rt, &rt);
    for at in 0..journal.len() {
        journal[at] ^= 0x20;
        take_in(&rt, &rt, "journal-damage", &journal, after(at));
        journal[at] ^= 0x20;
    }
}

// An opening of files of which this many calls are done.
fn stopped(
    rt: &impl Abort,
    system: &HostRuntime,
    folder: &PathBuf,
    calls: u64,
) -> Result<(), FilesFault> {
    let allowed = Rc::new(system.alloc(), Cell::new(calls)).expect(rt, "memory");
    let path = folder.clone().expect(rt, "memory");
    let journal = FolderJournal::open(*system, system.alloc(), folder).expect(rt, "a journal");
    let files = StopFiles::new(FolderFiles::new(*system, path), allowed);
    match taken_in::<Outside, _, _>(system.alloc(), files, journal) {
        Err(fault) => Err(fault),
        Ok(files) => {
            drop(files);
            Ok(())
        }
    }
}

// How many calls are done, how the opening ends then, and whether the journal is left. A look at the state is a call,
// the three numbers of which the journal says something are three more, and the wait until the disk has them is the
// last.
const STOPPED: &[(u64, Result<(), FilesFault>, bool)] = &[
    (0, Err(FilesFault::Device), true),
    (1, Err(FilesFault::Device), true),
    (2, Err(FilesFault::Device), true),
    (3, Err(FilesFault::Device), true),
    (4, Err(FilesFault::Device), true),
    (5, Ok(()), false),
];

#[test]
fn a_taking_in_that_stops_is_done_again(rt: HostRuntime) {
    let journal = changes_left(&rt, &rt);
    for (calls, want, is_left) in STOPPED {
        let folder = left(&rt, &rt, "journal-stopped", &journal);
        require(
            &rt,
            stopped(&rt, &rt, &folder, *calls) == *want,
            "stopped so",
        );
        require(
            &rt,
            has(&rt, &folder, "journal") == Some(*is_left),
            "the journal left",
        );
        follow_opened(&rt, &rt, &folder, ALL_DONE);
        remove(&rt, folder).expect(&rt, "a folder");
    }
}

const PASSED_OVER: &[Step] = &[
    OLD_THREE,
    NO_FIVE,
    NO_SEVEN,
    Step::Has("0", true),
    NO_JOURNAL,
];

// As when a program that knows of no journals closed what a later one left.
#[test]
fn a_journal_beside_a_state_is_passed_over(rt: HostRuntime) {
    let folder = left(&rt, &rt, "journal-closed", &changes_left(&rt, &rt));
    make(&rt, &folder, "0", Made::File(b"state")).expect(&rt, "a state");
    follow_opened(&rt, &rt, &folder, PASSED_OVER);
    remove(&rt, folder).expect(&rt, "a folder");
}

// When the directory's file of that name was written last.
fn when_written(rt: &HostRuntime, folder: &PathBuf, name: &str) -> io::Result<SystemTime> {
    let path = folder.join(rt.alloc(), name)?;
    fs::metadata(rt, path.as_path())?.modified()
}

// When a store of file 5 in the directory began and ended.
fn store_five(rt: &impl Abort, system: &HostRuntime, folder: &PathBuf) -> (SystemTime, SystemTime) {
    let mut files = opened(system, folder).expect(rt, "files");
    let before = SystemTime::now(system).expect(rt, "a time");
    ask_all(
        rt,
        system.alloc(),
        &mut files,
        &[(Call::Replace(5, b"5"), Answer::Done)],
    );
    let changed = SystemTime::now(system).expect(rt, "a time");
    drop(files);
    (before, changed)
}

#[test]
fn a_file_has_the_time_of_its_change(rt: HostRuntime) {
    let folder = folder_of(&rt, "journal-times", &[]).expect(&rt, "a folder");
    let (before, changed) = store_five(&rt, &rt, &folder);
    thread::sleep(&rt, Duration::from_millis(50));
    follow_opened(&rt, &rt, &folder, &[]);
    let when = when_written(&rt, &folder, "5").expect(&rt, "a time");
    require(
        &rt,
        before <= when && when <= changed,
        "the time of the change",
    );
    remove(&rt, folder).expect(&rt, "a folder");
}

// What no journal has: the state, and a file that is too long.
const PAST: &[Step] = &[
    Step::Fills(5, LONGEST_RECORD),
    Step::Has("5", false),
    Step::Fills(5, LONGEST_RECORD + 1),
    Step::Has("5", true),
    Step::Has("journal", true),
];

const PAST_AGAIN: &[Step] = &[
    Step::IsFilled(5, LONGEST_RECORD + 1),
    Step::Gives(Call::Replace(7, b"7"), Answer::Done),
    Step::Has("journal", true),
    Step::FillsBehind(8, b"8", LONGEST_RECORD),
    Step::Has("8", true),
    Step::Gives(Call::ReplaceJoined(9, b"9", b"9"), Answer::Done),
    Step::Has("9", false),
    Step::Gives(Call::Replace(0, b"state"), Answer::Done),
    Step::Has("0", true),
    Step::Has("7", true),
    Step::Has("9", true),
    NO_JOURNAL,
];

#[test]
fn the_state_and_long_files_are_stored_at_once(rt: HostRuntime) {
    let folder = folder_of(&rt, "journal-past", &[]).expect(&rt, "a folder");
    follow_opened(&rt, &rt, &folder, PAST);
    follow_opened(&rt, &rt, &folder, PAST_AGAIN);
    remove(&rt, folder).expect(&rt, "a folder");
}

// A system of which that call fails as when the disk is full.
fn failing(rt: &HostRuntime, call: SystemCall) -> FaultySystem<'static, HostRuntime> {
    FaultySystem {
        files: *rt,
        call,
        kind: ErrorKind::StorageFull,
        instead: None,
    }
}

type FaultyJournal = FolderJournal<FaultySystem<'static, HostRuntime>>;

// The directory's journal, over such a system.
fn failing_journal(
    rt: &impl Abort,
    system: &HostRuntime,
    folder: &PathBuf,
    call: SystemCall,
) -> FaultyJournal {
    FolderJournal::open(failing(system, call), system.alloc(), folder).expect(rt, "a journal")
}

type FaultyFiles = FolderFiles<FaultySystem<'static, HostRuntime>>;

// The directory's files, over such a system.
fn failing_files(
    rt: &impl Abort,
    system: &HostRuntime,
    folder: &PathBuf,
    call: SystemCall,
) -> FaultyFiles {
    FolderFiles::new(failing(system, call), folder.clone().expect(rt, "memory"))
}

// The steps are so over the directory's files and journal, if the one call of the files' system fails, and the other of
// the journal's.
fn follow_failing(
    rt: &impl Abort,
    system: &HostRuntime,
    folder: &PathBuf,
    of_files: SystemCall,
    of_journal: SystemCall,
    steps: &[Step],
) {
    let journal = failing_journal(rt, system, folder, of_journal);
    let files = Journaled::new(failing_files(rt, system, folder, of_files), journal);
    follow_with(rt, system, folder, files, steps)
}

// What a directory has with a file 5.
const FIVE: &[(&str, Made)] = &[("5", Made::File(b"5"))];

const REFUSED: &[Step] = &[
    Step::Gives(Call::Replace(5, b"new"), Answer::Device),
    Step::Gives(Call::Remove(5), Answer::Device),
    Step::HasFailed(2),
];

const KEPT: &[Step] = &[Step::Gives(Call::Read(5), Answer::Bytes(Some(b"5")))];

// No change that the device refused is told as done, or seen.
#[test]
fn a_failing_device_is_told_and_counted(rt: HostRuntime) {
    for call in &[SystemCall::Open, SystemCall::Write] {
        let folder = folder_of(&rt, "journal-failing", FIVE).expect(&rt, "a folder");
        follow_failing(&rt, &rt, &folder, *call, *call, REFUSED);
        follow_opened(&rt, &rt, &folder, KEPT);
        remove(&rt, folder).expect(&rt, "a folder");
    }
}

const WAITS: &[Step] = &[
    Step::Gives(Call::Replace(7, b"7"), Answer::Done),
    Step::Gives(Call::Sync, Answer::Device),
    Step::Gives(Call::Sync, Answer::Device),
    Step::HasFailed(2),
];

const SEVEN_STORED: &[Step] = &[Step::Gives(Call::Read(7), Answer::Bytes(Some(b"7")))];

// Of the files and of their journal, whose wait fails.
const WAITING: &[(SystemCall, SystemCall)] = &[
    (SystemCall::Sync, SystemCall::None),
    (SystemCall::None, SystemCall::Sync),
];

// A wait that the disk refuses is told, by the files and by their journal, each time; what is stored stays so.
#[test]
fn a_wait_that_fails_is_told(rt: HostRuntime) {
    for (of_files, of_journal) in WAITING {
        let folder = folder_of(&rt, "journal-waits", FIVE).expect(&rt, "a folder");
        follow_failing(&rt, &rt, &folder, *of_files, *of_journal, WAITS);
        follow_opened(&rt, &rt, &folder, SEVEN_STORED);
        remove(&rt, folder).expect(&rt, "a folder");
    }
}

const CLOSED: &[Step] = &[
    Step::Gives(Call::Sync, Answer::Done),
    Step::Gives(Call::Replace(7, b"7"), Answer::Done),
    Step::Gives(Call::Replace(8, b"8"), Answer::Done),
    Step::Gives(Call::Replace(0, b"state"), Answer::Done),
    Step::Has("0", true),
    NO_JOURNAL,
];

const NOT_CLOSED: &[Step] = &[
    Step::Gives(Call::Sync, Answer::Done),
    Step::Gives(Call::Replace(7, b"7"), Answer::Done),
    Step::Gives(Call::Replace(8, b"8"), Answer::Done),
    Step::Gives(Call::Replace(0, b"state"), Answer::Device),
    Step::Has("0", false),
    Step::Has("journal", true),
];

// The call that fails of the journal's system, and the close.
const CLOSES: &[(SystemCall, &[Step])] = &[
    (SystemCall::None, CLOSED),
    (SystemCall::Sync, NOT_CLOSED),
];

// What such a close has stored.
const STORED: &[Step] = &[
    Step::Gives(Call::Read(5), Answer::Bytes(Some(b"5"))),
    Step::Gives(Call::Read(7), Answer::Bytes(Some(b"7"))),
    Step::Gives(Call::Read(8), Answer::Bytes(Some(b"8"))),
];

// The steps are so if the fourth call of the files fails.
fn follow_losing(
    rt: &impl Abort,
    system: &HostRuntime,
    folder: &PathBuf,
    of_journal: SystemCall,
    steps: &[Step],
) {
    let journal = failing_journal(rt, system, folder, of_journal);
    let path = folder.clone().expect(rt, "memory");
    let files = FailingFiles::new(FolderFiles::new(*system, path), 4);
    follow_with(rt, system, folder, Journaled::new(files, journal), steps)
}

// A close whose wait for all files fails, as it does for good once the disk lost something: if the disk takes the names
// of what is stored, that is enough, and else it is told, and the journal stays. The calls of the files: a wait for the
// disk, two stores, and the wait that fails.
#[test]
fn a_close_waits_for_what_it_stores(rt: HostRuntime) {
    for (of_journal, steps) in CLOSES {
        let folder = folder_of(&rt, "journal-lost", FIVE).expect(&rt, "a folder");
        follow_losing(&rt, &rt, &folder, *of_journal, steps);
        follow_opened(&rt, &rt, &folder, STORED);
        remove(&rt, folder).expect(&rt, "a folder");
    }
}

// How many of the longest records fill a journal.
const FILLING: u64 = 128;

// How many files are stored one after another, and how many calls of the files are left then. Once the journal is full
// the next one tries to empty it, by a store that fails.
const FILLED: &[(u64, u64)] = &[(FILLING, 999), (1, 998), (FILLING - 1, 998)];

// Stores that many files of these bytes, under numbers from 1 on. Whether each was done.
fn stores_all<F: Files<Outside>>(files: &mut F, alloc: Global, bytes: &[u8], count: u64) -> bool {
    for number in 1..=count {
        if files.replace(alloc, number, bytes) != Ok(()) {
            return false;
        }
    }
    true
}

// Stores files of the longest records.
fn fill<F: Files<Outside>>(rt: &impl Abort, alloc: Global, files: &mut F, left: &Cell<u64>) {
    let longest = of_length(alloc, LONGEST_RECORD).expect(rt, "memory");
    for (count, calls) in FILLED {
        let is_so = stores_all(files, alloc, &longest, *count) && left.get() == *calls;
        require(rt, is_so, "a full journal goes on");
    }
    drop(longest)
}

const REFUSES_WAIT: &[Step] = &[Step::Gives(Call::Sync, Answer::Device)];

const ONE_FAILED: &[Step] = &[Step::HasFailed(1), Step::Has("journal", true)];

// A wait is refused, and changes aren't, where the files' calls are counted there.
fn go_on_full<F: Files<Outside>>(
    rt: &impl Abort,
    system: &HostRuntime,
    folder: &PathBuf,
    files: F,
    left: &Cell<u64>,
) {
    let mut files = files;
    follow(rt, system, folder, &mut files, REFUSES_WAIT);
    fill(rt, system.alloc(), &mut files, left);
    follow(rt, system, folder, &mut files, ONE_FAILED);
}

// The same of the directory's files and journal.
fn go_on_full_in(rt: &impl Abort, system: &HostRuntime, folder: &PathBuf) {
    let left = Rc::new(system.alloc(), Cell::new(1_000)).expect(rt, "memory");
    let counted = left.clone().expect(rt, "memory");
    let journal = failing_journal(rt, system, folder, SystemCall::Sync);
    let files = StopFiles::new(failing_files(rt, system, folder, SystemCall::Sync), counted);
    go_on_full(rt, system, folder, Journaled::new(files, journal), &left);
    drop(left)
}

const FIVE_FILLED: &[Step] = &[Step::IsFilled(5, LONGEST_RECORD)];

// A disk that fails for good refuses no change that the full journal can note, and isn't asked at each of them.
#[test]
fn a_full_journal_that_stays_goes_on(rt: HostRuntime) {
    let folder = folder_of(&rt, "journal-full", &[]).expect(&rt, "a folder");
    go_on_full_in(&rt, &rt, &folder);
    follow_opened(&rt, &rt, &folder, FIVE_FILLED);
    remove(&rt, folder).expect(&rt, "a folder");
}

// A journal without room for a removal, over files whose calls are counted: it notes how many were left when the disk
// was waited for last.
#[derive(Drop)]
struct Roomless {
    left: Rc<Cell<u64>>,
    at_wait: Rc<Cell<u64>>,
}

impl Journal<Outside> for Roomless {
    ghost use Rattle.std.specs.Prelude.{None};

    ghost changes = { λ _ _. None };

    fn is_full(&self) -> bool {
        false
    }

    fn obstacle(&self) -> Option<Obstacle> {
        None
    }

    fn put_off(&mut self) {}

    fn read(
        &mut self,
        _alloc: Global,
        _number: u64,
    ) -> Result<Option<Option<Vec<u8>>>, FilesFault> {
        Ok(None)
    }

    fn head(&mut self, _number: u64) -> Result<Option<Option<Head>>, FilesFault> {
        Ok(None)
    }

    fn store(&mut self, _alloc: Global, _number: u64, _bytes: &[u8]) -> Result<(), FilesFault> {
        Err(FilesFault::Memory)
    }

    fn store_directory(
        &mut self,
        _alloc: Global,
        _number: u64,
        _body: &[u8],
    ) -> Result<(), FilesFault> {
        Err(FilesFault::Memory)
    }

    fn remove(&mut self, _number: u64) -> Result<bool, FilesFault> {
        Ok(false)
    }

    fn pass(&mut self, _number: u64) -> Result<(), FilesFault> {
        Ok(())
    }

    fn settle(&mut self) -> Result<(), FilesFault> {
        self.at_wait.set(self.left.get());
        Ok(())
    }

    fn settle_names(&mut self) -> Result<(), FilesFault> {
        Ok(())
    }

    fn date(&mut self, _number: u64) {}

    fn numbers(&mut self, alloc: Global) -> Result<Vec<u64>, FilesFault> {
        Ok(Vec::new(alloc))
    }

    fn empty(&mut self) -> Result<(), FilesFault> {
        Ok(())
    }
}

// Once somebody waited for the disk, it has what the journal says before a file is removed past it. Each removal is two
// calls of the files, since it looks first how long the file is.
fn wait_for_it<F: Files<Outside>>(
    rt: &impl Abort,
    alloc: Global,
    files: F,
    left: &Cell<u64>,
    at_wait: &Cell<u64>,
) {
    let mut files = files;
    let is_removed = files.remove(5) == Ok(());
    require(
        rt,
        is_removed && left.get() == 7 && at_wait.get() == 0,
        "nothing waited for",
    );
    require(rt, files.sync(alloc) == Ok(()), "a wait");
    at_wait.set(0);
    let is_removed = files.remove(5) == Ok(());
    require(
        rt,
        is_removed && left.get() == 4 && at_wait.get() == 5,
        "the journal waited for",
    );
}

#[test]
fn a_removal_without_room_waits_for_the_journal(rt: HostRuntime) {
    let left = Rc::new(rt.alloc(), Cell::new(9)).expect(&rt, "memory");
    let at_wait = Rc::new(rt.alloc(), Cell::new(0)).expect(&rt, "memory");
    let journal = Roomless {
        left: left.clone().expect(&rt, "memory"),
        at_wait: at_wait.clone().expect(&rt, "memory"),
    };
    let counted = left.clone().expect(&rt, "memory");
    let files = StopFiles::new(MemoryFiles::<Outside>::new(rt.alloc()), counted);
    wait_for_it(
        &rt,
        rt.alloc(),
        Journaled::new(files, journal),
        &left,
        &at_wait,
    );
    drop(left);
    drop(at_wait);
}

const GOES_PAST: &[Step] = &[
    Step::Gives(Call::Replace(5, b"new"), Answer::Done),
    Step::HasFailed(0),
    Step::Gives(Call::Read(5), Answer::Bytes(Some(b"new"))),
    NO_JOURNAL,
];

// If the journal can't be written, what it had goes into the files, and the change too.
#[test]
fn a_change_goes_past_a_failing_journal(rt: HostRuntime) {
    for call in &[SystemCall::Open, SystemCall::Write] {
        let folder = folder_of(&rt, "journal-past-failing", FIVE).expect(&rt, "a folder");
        follow_failing(&rt, &rt, &folder, SystemCall::None, *call, GOES_PAST);
        remove(&rt, folder).expect(&rt, "a folder");
    }
}

// Whether a file that no journal has is stored, though a call fails meanwhile.
fn is_stored<F: Files<Outside>>(files: F, alloc: Global) -> bool {
    let mut files = files;
    fills(&mut files, alloc, 5, LONGEST_RECORD + 1)
        && files.failures() == 0
        && is_filled(&mut files, alloc, 5, LONGEST_RECORD + 1)
}

// As on a full disk, of which the journal has yet to remove what nobody wants any more.
#[test]
fn a_store_that_fails_is_made_once_the_journal_is_empty(rt: HostRuntime) {
    let files = FailingFiles::new(MemoryFiles::<Outside>::new(rt.alloc()), 1);
    let files = Journaled::new(files, MemoryJournal::<Outside>::new(rt.alloc()));
    require(&rt, is_stored(files, rt.alloc()), "stored");
}

const LARGE_AND_SMALL: &[(&str, Made)] = &[("5", Made::Long(16 << 20)), ("6", Made::File(b"six"))];

// The small one is removed when the journal is emptied.
const REMOVED: &[Step] = &[
    Step::Gives(Call::Remove(5), Answer::Done),
    Step::Gives(Call::Remove(6), Answer::Done),
    Step::Gives(Call::Read(5), Answer::Bytes(None)),
    Step::Gives(Call::Read(6), Answer::Bytes(None)),
    Step::Has("5", false),
    Step::Has("6", true),
];

#[test]
fn a_large_file_goes_at_once(rt: HostRuntime) {
    let folder = folder_of(&rt, "journal-large", LARGE_AND_SMALL).expect(&rt, "a folder");
    follow_opened(&rt, &rt, &folder, REMOVED);
    remove(&rt, folder).expect(&rt, "a folder");
}

#[test]
fn what_is_no_journal_refuses(rt: HostRuntime) {
    let folder = folder_of(&rt, "journal-odd", &[]).expect(&rt, "a folder");
    make(&rt, &folder, "journal", Made::Folder).expect(&rt, "a folder");
    let fault = opened(&rt, &folder).err();
    remove(&rt, folder).expect(&rt, "a folder");
    assert!(rt; fault == Some(FilesFault::Device));
}
