// What a journal says, done to the files.
ghost use Rattle.std.specs.Prelude.{◌≡◌, All, OnErr, OnOk, Some};
ghost use Rattle.eden_overlay.specs.Files.{with_file};
ghost use Rattle.eden_overlay_journal.specs.Changes.{at_opening, changed_files, unchanged};

use crate::journal::Journal;
use eden_model::World;
use eden_overlay::{Files, FilesFault, STATE_NUMBER};
use std::alloc::Global;

// Does to the file what the journal says of it.
fn pour_one<W: World, F: Files<W>, J: Journal<W>>(
    alloc: Global,
    files: &mut F,
    journal: &mut J,
    number: u64,
) -> Result<(), FilesFault>
    ensures journal { W.honest → J.changes journal.new ≡ J.changes journal.old }
    ensures ok { W.honest → OnOk result (F.stored files.new
        ≡ with_file (F.stored files.old) number (changed_files (J.changes journal.old) (F.stored files.old) number)) }
    ensures err { W.honest → OnErr result (F.stored files.new ≡ F.stored files.old) }
{
    match journal.read(alloc, number)? {
        None => Ok(()),
        Some(None) => files.remove(number),
        Some(Some(bytes)) => store_one::<W, _, _>(alloc, files, journal, number, &bytes),
    }
}

// Stores the file, which gets the time at which the journal was told of it.
fn store_one<W: World, F: Files<W>, J: Journal<W>>(
    alloc: Global,
    files: &mut F,
    journal: &mut J,
    number: u64,
    bytes: &[u8],
) -> Result<(), FilesFault>
    ensures journal { W.honest → J.changes journal.new ≡ J.changes journal.old }
    ensures ok { W.honest → OnOk result (F.stored files.new ≡ with_file (F.stored files.old) number (Some bytes.now)) }
    ensures err { W.honest → OnErr result (F.stored files.new ≡ F.stored files.old) }
{
    files.replace(alloc, number, bytes)?;
    journal.date(number);
    Ok(())
}

/// What a loss of power may not take before a journal goes of which all lies in the files.
#[derive(Clone, Copy)]
pub(crate) enum Wait {
    /// Nobody was promised anything.
    Nothing,
    /// What is stored now. The files were asked before for all that is stored, so that each waits for its bytes.
    Poured,
    /// All files.
    Everything,
}

// Does to the files all that the journal says, and empties it, once the disk has what is to be waited for.
pub(crate) fn pour<W: World, F: Files<W>, J: Journal<W>>(
    alloc: Global,
    files: &mut F,
    journal: &mut J,
    wait: Wait,
) -> Result<(), FilesFault>
    ensures same { W.honest → changed_files (J.changes journal.new) (F.stored files.new)
        ≡ changed_files (J.changes journal.old) (F.stored files.old) }
    ensures empty { W.honest → OnOk result (J.changes journal.new ≡ unchanged) }
{
    let numbers = journal.numbers(alloc)?;
    // Else a power loss could leave files that name others of which only the journal's lost end knows. Where the disk
    // fails, no later write is better off without the earlier ones.
    let _ = journal.settle();
    pour_all::<W, _, _>(alloc, files, journal, &numbers)?;
    empty_poured::<W, _, _>(alloc, files, journal, wait, &numbers)
}

// Empties the journal, of which all lies in the files of these numbers.
fn empty_poured<W: World, F: Files<W>, J: Journal<W>>(
    alloc: Global,
    files: &mut F,
    journal: &mut J,
    wait: Wait,
    numbers: &[u64],
) -> Result<(), FilesFault>
    ensures files { W.honest → F.stored files.new ≡ F.stored files.old }
    ensures ok { W.honest → OnOk result (J.changes journal.new ≡ unchanged) }
    ensures err { W.honest → OnErr result (J.changes journal.new ≡ J.changes journal.old) }
{
    if !numbers.is_empty() {
        wait_poured::<W, _, _>(alloc, files, journal, wait)?;
    }
    journal.empty()
}

// Waits until the disk has what is to be waited for. Files that once lost something tell it for good; but that isn't
// what was stored just now: of this each has its bytes, and then the names are enough.
fn wait_poured<W: World, F: Files<W>, J: Journal<W>>(
    alloc: Global,
    files: &mut F,
    journal: &mut J,
    wait: Wait,
) -> Result<(), FilesFault>
    ensures files { W.honest → F.stored files.new ≡ F.stored files.old }
    ensures journal { W.honest → J.changes journal.new ≡ J.changes journal.old }
{
    match wait {
        Wait::Nothing => Ok(()),
        Wait::Poured => match files.sync(alloc) {
            Err(FilesFault::Device) => journal.settle_names(),
            answer => answer,
        },
        Wait::Everything => files.sync(alloc),
    }
}

// Does to the files of these numbers what the journal says of them.
fn pour_all<W: World, F: Files<W>, J: Journal<W>>(
    alloc: Global,
    files: &mut F,
    journal: &mut J,
    numbers: &[u64],
) -> Result<(), FilesFault>
    ensures journal { W.honest → J.changes journal.new ≡ J.changes journal.old }
    ensures same { W.honest → changed_files (J.changes journal.old) (F.stored files.new)
        ≡ changed_files (J.changes journal.old) (F.stored files.old) }
    ensures ok { W.honest → OnOk result (All (λ k. F.stored files.new k
        ≡ changed_files (J.changes journal.old) (F.stored files.old) k) numbers.now) }
{
    for number in numbers {
        pour_one::<W, _, _>(alloc, files, journal, *number)?;
    }
    Ok(())
}

// Does to the files what a journal says that was left, and empties it. Where the state is stored the journal is from
// before that, since it was emptied then: a program that knows of no journals passed it over. Answers whether it is.
// After an error the journal still says over the files what it said, so that it can be done again.
pub(crate) fn take_in<W: World, F: Files<W>, J: Journal<W>>(
    alloc: Global,
    files: &mut F,
    journal: &mut J,
) -> Result<bool, FilesFault>
    ensures said { W.honest → OnOk result (J.changes journal.new ≡ unchanged) }
    ensures stored { W.honest → OnOk result (F.stored files.new
        ≡ at_opening (J.changes journal.old) (F.stored files.old)) }
    ensures kept { W.honest → OnErr result (changed_files (J.changes journal.new) (F.stored files.new)
        ≡ changed_files (J.changes journal.old) (F.stored files.old)) }
{
    match files.head(STATE_NUMBER)? {
        Some(_) => {
            journal.empty()?;
            Ok(true)
        }
        None => {
            // The run that left the journal may have promised what it says.
            pour::<W, _, _>(alloc, files, journal, Wait::Everything)?;
            Ok(false)
        }
    }
}
