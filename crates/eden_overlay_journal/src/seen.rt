// How files with a journal over them are read and changed.
ghost use Rattle.std.specs.Prelude.{◌≡◌, ◌≤◌, None, Some, IfOk, IfErr, IfSome, OnOk, OnErr};
ghost use Rattle.std.specs.Prelude.{length, option_map};
ghost use Rattle.std.specs.Ordering.{nat_cmp};
ghost use Rattle.std.specs.List.Sorted.{IsStrictlySortedBy};
ghost use Rattle.eden_overlay.specs.Files.{IsHeadOf, ListsNumbers, part, with_file};
ghost use Rattle.eden_overlay.specs.declared.files.FilesFault.TheVariants as fault;
ghost use Rattle.eden_overlay_journal.specs.Changes.{changed_files};
ghost use Rattle.eden_overlay_journal.specs.New.{bytes_as};

use crate::journal::Journal;
use crate::new_file::{NewFile, note, store};
use crate::pouring::{Wait, pour};
use eden_model::World;
use eden_overlay::{Files, FilesFault, STATE_NUMBER, part_of};
use eden_overlay_format::Head;
use std::alloc::Global;

/// A file of so many bytes goes as soon as the disk has what the journal says; others go when that is emptied.
const LARGE: u64 = 16 << 20;

/// What stands in the way of a note in the journal, and of letting it go.
#[derive(Clone, Copy)]
pub(crate) struct Standing {
    /// Whether the state is stored, or may be.
    pub(crate) is_closed: bool,
    /// Whether somebody was told that a loss of power takes nothing of what was stored.
    pub(crate) is_promised: bool,
}

impl Standing {
    // What is waited for before the journal goes.
    fn wait(self) -> Wait {
        if self.is_promised {
            Wait::Poured
        } else {
            Wait::Nothing
        }
    }
}

pub(crate) fn read<W: World, F: Files<W>, J: Journal<W>>(
    alloc: Global,
    files: &mut F,
    journal: &mut J,
    number: u64,
) -> Result<Option<Vec<u8>>, FilesFault>
    ensures found { W.honest → IfOk result (λ o. option_map (λ v. v.items) o
        ≡ changed_files (J.changes journal.old) (F.stored files.old) number) }
    ensures files { W.honest → F.stored files.new ≡ F.stored files.old }
    ensures journal { W.honest → J.changes journal.new ≡ J.changes journal.old }
{
    match journal.read(alloc, number)? {
        Some(said) => Ok(said),
        None => files.read(alloc, number),
    }
}

pub(crate) fn head<W: World, F: Files<W>, J: Journal<W>>(
    files: &mut F,
    journal: &mut J,
    number: u64,
) -> Result<Option<Head>, FilesFault>
    ensures found { W.honest → IfOk result
        (IsHeadOf (changed_files (J.changes journal.old) (F.stored files.old) number)) }
    ensures files { W.honest → F.stored files.new ≡ F.stored files.old }
    ensures journal { W.honest → J.changes journal.new ≡ J.changes journal.old }
    ensures fault { IfErr result (λ f. f ≡ fault.Device) }
{
    match journal.head(number)? {
        Some(said) => Ok(said),
        None => files.head(number),
    }
}

// What is noted is short, and is read whole.
pub(crate) fn read_part<W: World, F: Files<W>, J: Journal<W>>(
    alloc: Global,
    files: &mut F,
    journal: &mut J,
    number: u64,
    from: u64,
    most: u64,
) -> Result<Option<Vec<u8>>, FilesFault>
    ensures found { W.honest → IfOk result (λ o. option_map (λ v. v.items) o
        ≡ option_map (part from most) (changed_files (J.changes journal.old) (F.stored files.old) number)) }
    ensures bounded { IfOk result (λ o. IfSome o (λ v. length v.items ≤ most)) }
    ensures files { W.honest → F.stored files.new ≡ F.stored files.old }
    ensures journal { W.honest → J.changes journal.new ≡ J.changes journal.old }
{
    let said = journal.read(alloc, number)?;
    match said {
        Some(None) => Ok(None),
        Some(Some(bytes)) => Ok(Some(part_of(alloc, &bytes, from, most)?)),
        None => files.read_part(alloc, number, from, most),
    }
}

// Empties the journal before the state is stored, and where it is full. Only the first is an error where it fails: a
// full journal still has room.
fn make_room<W: World, F: Files<W>, J: Journal<W>>(
    alloc: Global,
    files: &mut F,
    journal: &mut J,
    standing: Standing,
) -> Result<(), FilesFault>
    ensures { W.honest → changed_files (J.changes journal.new) (F.stored files.new)
        ≡ changed_files (J.changes journal.old) (F.stored files.old) }
{
    if standing.is_closed {
        return pour::<W, _, _>(alloc, files, journal, standing.wait());
    }
    if journal.is_full() {
        pour_full::<W, _, _>(alloc, files, journal, standing);
    }
    Ok(())
}

// Empties the full journal. Where that fails it goes on as it is: a change that it can note isn't refused for that,
// and not each change is to try again.
fn pour_full<W: World, F: Files<W>, J: Journal<W>>(
    alloc: Global,
    files: &mut F,
    journal: &mut J,
    standing: Standing,
)
    ensures { W.honest → changed_files (J.changes journal.new) (F.stored files.new)
        ≡ changed_files (J.changes journal.old) (F.stored files.old) }
{
    if pour::<W, _, _>(alloc, files, journal, standing.wait()).is_err() {
        journal.put_off();
    }
}

// Nothing is noted where the state is stored, or is to be.
pub(crate) fn replace<W: World, F: Files<W>, J: Journal<W>>(
    alloc: Global,
    files: &mut F,
    journal: &mut J,
    standing: Standing,
    number: u64,
    new: NewFile<'_>,
) -> Result<(), FilesFault>
    ensures ok { W.honest → OnOk result (changed_files (J.changes journal.new) (F.stored files.new)
        ≡ with_file (changed_files (J.changes journal.old) (F.stored files.old)) number (Some (bytes_as new.entry))) }
    ensures err { W.honest → OnErr result (changed_files (J.changes journal.new) (F.stored files.new)
        ≡ changed_files (J.changes journal.old) (F.stored files.old)) }
{
    make_room::<W, _, _>(alloc, files, journal, standing)?;
    put_in::<W, _, _>(alloc, files, journal, standing, number, new)
}

// Notes the file, or stores it where it is too long, or nothing is noted.
fn put_in<W: World, F: Files<W>, J: Journal<W>>(
    alloc: Global,
    files: &mut F,
    journal: &mut J,
    standing: Standing,
    number: u64,
    new: NewFile<'_>,
) -> Result<(), FilesFault>
    ensures ok { W.honest → OnOk result (changed_files (J.changes journal.new) (F.stored files.new)
        ≡ with_file (changed_files (J.changes journal.old) (F.stored files.old)) number (Some (bytes_as new.entry))) }
    ensures err { W.honest → OnErr result (changed_files (J.changes journal.new) (F.stored files.new)
        ≡ changed_files (J.changes journal.old) (F.stored files.old)) }
{
    let answer = if standing.is_closed || !new.is_short() {
        put_past::<W, _, _>(alloc, files, journal, standing, number, new)
    } else {
        note::<W, _>(alloc, journal, number, new)
    };
    match answer {
        // As on a full disk, on which there may be room once the journal is gone, and what it says was removed.
        Err(FilesFault::Device) => {
            put_poured::<W, _, _>(alloc, files, journal, standing, number, new)
        }
        answer => answer,
    }
}

// Stores the file past the journal, once that is empty.
fn put_poured<W: World, F: Files<W>, J: Journal<W>>(
    alloc: Global,
    files: &mut F,
    journal: &mut J,
    standing: Standing,
    number: u64,
    new: NewFile<'_>,
) -> Result<(), FilesFault>
    ensures ok { W.honest → OnOk result (changed_files (J.changes journal.new) (F.stored files.new)
        ≡ with_file (changed_files (J.changes journal.old) (F.stored files.old)) number (Some (bytes_as new.entry))) }
    ensures err { W.honest → OnErr result (changed_files (J.changes journal.new) (F.stored files.new)
        ≡ changed_files (J.changes journal.old) (F.stored files.old)) }
{
    pour::<W, _, _>(alloc, files, journal, standing.wait())?;
    put_past::<W, _, _>(alloc, files, journal, standing, number, new)
}

// Stores the file past the journal, which says nothing of it any more.
fn put_past<W: World, F: Files<W>, J: Journal<W>>(
    alloc: Global,
    files: &mut F,
    journal: &mut J,
    standing: Standing,
    number: u64,
    new: NewFile<'_>,
) -> Result<(), FilesFault>
    ensures ok { W.honest → OnOk result (changed_files (J.changes journal.new) (F.stored files.new)
        ≡ with_file (changed_files (J.changes journal.old) (F.stored files.old)) number (Some (bytes_as new.entry))) }
    ensures err { W.honest → OnErr result (changed_files (J.changes journal.new) (F.stored files.new)
        ≡ changed_files (J.changes journal.old) (F.stored files.old)) }
{
    settle_first::<W, _>(journal, standing);
    store::<W, _>(alloc, files, number, new)?;
    wait_past::<W, _>(alloc, files, standing);
    journal.pass(number)
}

// Once something was promised, the disk has what the journal says before a file that goes past it can be there, or be
// gone: that may be a directory's, which names what only the journal knows, or one that only the journal knows to be
// named no more. Where the disk fails, the journal tells it to whoever waits for it next.
fn settle_first<W: World, J: Journal<W>>(journal: &mut J, standing: Standing)
    ensures { W.honest → J.changes journal.new ≡ J.changes journal.old }
{
    if standing.is_promised {
        let _ = journal.settle();
    }
}

// Once something was promised, what went past the journal is on the disk before a record can be there that names it:
// so whatever a loss of power leaves can be opened. Where the disk fails, the files tell it to whoever waits for them
// next.
fn wait_past<W: World, F: Files<W>>(alloc: Global, files: &mut F, standing: Standing)
    ensures { W.honest → F.stored files.new ≡ F.stored files.old }
{
    if standing.is_promised {
        let _ = files.sync(alloc);
    }
}

pub(crate) fn remove<W: World, F: Files<W>, J: Journal<W>>(
    files: &mut F,
    journal: &mut J,
    standing: Standing,
    number: u64,
) -> Result<(), FilesFault>
    ensures ok { W.honest → OnOk result (changed_files (J.changes journal.new) (F.stored files.new)
        ≡ with_file (changed_files (J.changes journal.old) (F.stored files.old)) number None) }
    ensures err { W.honest → OnErr result (changed_files (J.changes journal.new) (F.stored files.new)
        ≡ changed_files (J.changes journal.old) (F.stored files.old)) }
    ensures fault { IfErr result (λ f. f ≡ fault.Device) }
{
    if standing.is_closed
        || number == STATE_NUMBER
        || goes_at_once::<W, _, _>(files, journal, number)
    {
        return remove_past::<W, _, _>(files, journal, standing, number);
    }
    match journal.remove(number)? {
        true => Ok(()),
        false => remove_unnoted::<W, _, _>(files, journal, standing, number),
    }
}

// Whether the file of that number is removed past the journal: a large one, whose room may be wanted. The disk has what
// the journal says then, since a loss of power could else leave a directory that names the file.
fn goes_at_once<W: World, F: Files<W>, J: Journal<W>>(
    files: &mut F,
    journal: &mut J,
    number: u64,
) -> bool
    ensures files { W.honest → F.stored files.new ≡ F.stored files.old }
    ensures journal { W.honest → J.changes journal.new ≡ J.changes journal.old }
{
    match files.head(number) {
        Ok(Some(head)) if head.len >= LARGE => journal.settle().is_ok(),
        _ => false,
    }
}

// Removes the file, of which the journal says nothing.
fn remove_unnoted<W: World, F: Files<W>, J: Journal<W>>(
    files: &mut F,
    journal: &mut J,
    standing: Standing,
    number: u64,
) -> Result<(), FilesFault>
    ensures journal { W.honest → J.changes journal.new ≡ J.changes journal.old }
    ensures ok { W.honest → OnOk result (F.stored files.new ≡ with_file (F.stored files.old) number None) }
    ensures err { W.honest → OnErr result (F.stored files.new ≡ F.stored files.old) }
    ensures fault { IfErr result (λ f. f ≡ fault.Device) }
{
    settle_first::<W, _>(journal, standing);
    files.remove(number)
}

// Removes the file past the journal, which says nothing of it any more.
fn remove_past<W: World, F: Files<W>, J: Journal<W>>(
    files: &mut F,
    journal: &mut J,
    standing: Standing,
    number: u64,
) -> Result<(), FilesFault>
    ensures ok { W.honest → OnOk result (changed_files (J.changes journal.new) (F.stored files.new)
        ≡ with_file (changed_files (J.changes journal.old) (F.stored files.old)) number None) }
    ensures err { W.honest → OnErr result (changed_files (J.changes journal.new) (F.stored files.new)
        ≡ changed_files (J.changes journal.old) (F.stored files.old)) }
    ensures fault { IfErr result (λ f. f ≡ fault.Device) }
{
    settle_first::<W, _>(journal, standing);
    files.remove(number)?;
    journal.pass(number)
}

// The files come first, since the journal says of some that they were changed past it.
pub(crate) fn sync<W: World, F: Files<W>, J: Journal<W>>(
    alloc: Global,
    files: &mut F,
    journal: &mut J,
) -> Result<(), FilesFault>
    ensures files { W.honest → F.stored files.new ≡ F.stored files.old }
    ensures journal { W.honest → J.changes journal.new ≡ J.changes journal.old }
{
    files.sync(alloc)?;
    journal.settle()
}

// The journal is emptied first: files are listed where an overlay is opened, and it is small then.
pub(crate) fn list<W: World, F: Files<W>, J: Journal<W>>(
    alloc: Global,
    files: &mut F,
    journal: &mut J,
    standing: Standing,
) -> Result<Vec<u64>, FilesFault>
    ensures rising { IfOk result (λ v. IsStrictlySortedBy nat_cmp v.items) }
    ensures all { W.honest → IfOk result (λ v.
        ListsNumbers v.items (changed_files (J.changes journal.old) (F.stored files.old))) }
    ensures unchanged { W.honest → changed_files (J.changes journal.new) (F.stored files.new)
        ≡ changed_files (J.changes journal.old) (F.stored files.old) }
{
    pour::<W, _, _>(alloc, files, journal, standing.wait())?;
    files.list(alloc)
}
