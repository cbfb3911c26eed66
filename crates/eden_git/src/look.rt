// Which packs lie in a directory of packs, and opening them.
ghost use Rattle.std.specs.Prelude.{◌≡◌, true, false, Ok, IfErr};
ghost use Rattle.eden_pack_format.specs.Causes.{IsReadingCause};

use crate::index::Index;
use crate::multi_index::MultiIndex;
use crate::pack::Pack;
use crate::packs::{Multi, Packs};
use crate::pieces::{Pieces, open_pieces};
use eden_model::Cause;
use eden_pack_format::split_name;
use eden_plain_files::{FolderFault, entry_in};
use std::alloc::{Alloc, AllocError, Allocator, Global};
use std::fs::{self, DirEntry};
use std::io::{self, ErrorKind, Read, Seek};
use std::path::PathBuf;
use std::rt::Files;
use std::str;

/// The name of a multi-pack index.
const MULTI: &str = "multi-pack-index";

/// Looks at the directory again. Where other files are in it than were seen, all are opened anew; else those that
/// aren't open are tried again. Whether more is known than before.
pub(crate) fn look_again<R: Files + Alloc + Clone + Drop>(
    files: &R,
    alloc: Global,
    packs: &mut Packs<R::File>,
    numbers: &mut u64,
) -> Result<bool, Cause>
    ensures kept { result ≡ Ok false → packs.new.is_damaged ≡ packs.old.is_damaged }
    ensures causes { IfErr result IsReadingCause }
{
    let was_damaged = packs.is_damaged;
    let names = file_names(files, alloc, &packs.folder)?;
    let is_other = names != packs.seen;
    if is_other {
        packs.see(alloc, names)?;
    }
    let before = packs.open.len();
    packs.is_damaged = false;
    open_by_indexes(files, alloc, packs, numbers)?;
    if packs.multi.is_none() || was_damaged || packs.open.len() != before {
        add_multi(files, alloc, packs, numbers)?;
    }
    let has_more = packs.open.len() != before;
    Ok(is_other || has_more || packs.is_damaged != was_damaged)
}

// Opens the packs that have an index of their own and aren't open.
fn open_by_indexes<R: Files + Drop>(
    files: &R,
    alloc: Global,
    packs: &mut Packs<R::File>,
    numbers: &mut u64,
) -> Result<(), Cause>
    ensures causes { IfErr result IsReadingCause }
{
    for name in 0..packs.seen.len() {
        if packs.opened_by(name).is_none() {
            open_by_index(files, alloc, packs, name, numbers)?;
        }
    }
    Ok(())
}

// Opens the pack whose own index has the name of that number, if it is one's name.
fn open_by_index<R: Files + Drop>(
    files: &R,
    alloc: Global,
    packs: &mut Packs<R::File>,
    name: usize,
    numbers: &mut u64,
) -> Result<(), Cause>
    ensures kept { packs.old.is_damaged ≡ true → packs.new.is_damaged ≡ true }
    ensures causes { IfErr result IsReadingCause }
{
    let Some(stem) = packs.seen.get(name).and_then(stem_of) else {
        return Ok(());
    };
    *numbers = numbers.saturating_add(1);
    let opened = open_pack(files, alloc, &packs.folder, stem, true, *numbers);
    packs.add(name, opened)
}

// What stands before the ending of an index's name.
fn stem_of(name: &String) -> Option<&str> {
    name.strip_suffix(".idx")
}

// The names of the packs' files in the directory, and of indexes, in order. The directory need not be there.
fn file_names<R: Files + Alloc + Clone + Drop>(
    files: &R,
    alloc: Global,
    folder: &PathBuf,
) -> Result<Vec<String>, Cause>
    ensures causes { IfErr result IsReadingCause }
{
    let mut names = Vec::new(alloc);
    let items = match fs::read_dir(files, folder.as_path()) {
        Ok(items) => items,
        Err(error) if error.kind() == ErrorKind::NotFound => return Ok(names),
        Err(error) => return Err(cause_of(FolderFault::from(error))),
    };
    for item in items {
        if let Some(name) = file_name(alloc, item)? {
            names.push(name)?;
        }
    }
    names.sort()?;
    Ok(names)
}

// The name of the entry, if it is a pack's or an index's.
fn file_name<R: Files + Drop, A: Allocator>(
    alloc: Global,
    item: io::Result<DirEntry<R, A>>,
) -> Result<Option<String>, Cause>
    ensures causes { IfErr result IsReadingCause }
{
    match entry_in(item).map_err(cause_of)? {
        Some(entry) if is_of_packs(entry.file_name()) => {
            Ok(Some(String::from_str(alloc, entry.file_name())?))
        }
        _ => Ok(None),
    }
}

fn is_of_packs(name: &str) -> bool {
    name.ends_with(".idx") || name.ends_with(".pack") || name == MULTI
}

// The pack of that name, with its own index or without one. `Missing`, where one of the two is gone by now.
fn open_pack<R: Files + Drop>(
    files: &R,
    alloc: Global,
    folder: &PathBuf,
    stem: &str,
    has_index: bool,
    number: u64,
) -> Result<Pack<R::File>, FolderFault> {
    let index = if has_index {
        let index = open_named(files, alloc, folder, stem, ".idx")?;
        Some(Index::open(index).map_err(fault_of)?)
    } else {
        None
    };
    let pieces = open_named(files, alloc, folder, stem, ".pack")?;
    Pack::open(number, index, pieces).map_err(fault_of)
}

fn open_named<R: Files>(
    files: &R,
    alloc: Global,
    folder: &PathBuf,
    stem: &str,
    ending: &str,
) -> Result<Pieces<R::File>, FolderFault> {
    let name = joined(alloc, stem, ending)?;
    let path = folder.join(alloc, name.as_str())?;
    open_pieces(files, path.as_str())
}

fn joined(alloc: Global, stem: &str, ending: &str) -> Result<String, AllocError> {
    let mut name = String::from_str(alloc, stem)?;
    name.push_str(ending)?;
    Ok(name)
}

// Opens the multi-pack index, if there is one, and finds its packs among the open ones. One that can't be read is as if
// it weren't there, so that nothing says what is in a pack that has no index of its own.
fn add_multi<R: Files + Drop>(
    files: &R,
    alloc: Global,
    packs: &mut Packs<R::File>,
    numbers: &mut u64,
) -> Result<(), Cause>
    ensures kept { packs.old.is_damaged ≡ true → packs.new.is_damaged ≡ true }
    ensures causes { IfErr result IsReadingCause }
{
    match open_multi(files, alloc, packs, numbers) {
        Ok(multi) => packs.put_multi(multi),
        Err(FolderFault::Missing) => {}
        Err(FolderFault::Memory) => return Err(Cause::Memory),
        Err(_) if has_lone_pack(alloc, packs)? => packs.is_damaged = true,
        Err(_) => {}
    }
    Ok(())
}

fn open_multi<R: Files + Drop>(
    files: &R,
    alloc: Global,
    packs: &mut Packs<R::File>,
    numbers: &mut u64,
) -> Result<Multi<R::File>, FolderFault>
    ensures kept { packs.old.is_damaged ≡ true → packs.new.is_damaged ≡ true }
{
    let pieces = open_named(files, alloc, &packs.folder, MULTI, "")?;
    let mut index = MultiIndex::open(pieces).map_err(fault_of)?;
    let names = index.names(alloc).map_err(fault_of)?;
    let mut found = Vec::new(alloc);
    let mut last: &[u8] = b"";
    let mut rest = names.as_slice();
    for _ in 0..index.packs() {
        let (name, others) = split_name(rest).ok_or(FolderFault::Device)?;
        // Their order shows that none comes twice.
        if name <= last {
            return Err(FolderFault::Device);
        }
        let pack = find_pack(files, alloc, packs, name, numbers).map_err(fault_of)?;
        found.push(pack)?;
        last = name;
        rest = others;
    }
    Ok(Multi {
        index,
        packs: found,
    })
}

// Which of the open packs has that name for its own index. One that isn't open is opened without.
fn find_pack<R: Files + Drop>(
    files: &R,
    alloc: Global,
    packs: &mut Packs<R::File>,
    name: &[u8],
    numbers: &mut u64,
) -> Result<Option<usize>, Cause>
    ensures kept { packs.old.is_damaged ≡ true → packs.new.is_damaged ≡ true }
    ensures causes { IfErr result IsReadingCause }
{
    let Ok(name) = str::from_utf8(name) else {
        return Ok(None);
    };
    let Some(stem) = name.strip_suffix(".idx") else {
        return Ok(None);
    };
    if let Some(number) = opened_by(alloc, packs, stem, ".idx")? {
        return Ok(Some(number));
    }
    if let Some(number) = opened_by(alloc, packs, stem, ".pack")? {
        return Ok(Some(number));
    }
    open_without(files, alloc, packs, stem, numbers)
}

// Opens the pack of that name without an index of its own. Which of the open ones it is then, if it is one.
fn open_without<R: Files + Drop>(
    files: &R,
    alloc: Global,
    packs: &mut Packs<R::File>,
    stem: &str,
    numbers: &mut u64,
) -> Result<Option<usize>, Cause>
    ensures kept { packs.old.is_damaged ≡ true → packs.new.is_damaged ≡ true }
    ensures causes { IfErr result IsReadingCause }
{
    let Some(name) = packs.name_of(&joined(alloc, stem, ".pack")?) else {
        return Ok(None);
    };
    *numbers = numbers.saturating_add(1);
    let opened = open_pack(files, alloc, &packs.folder, stem, false, *numbers);
    packs.add(name, opened)?;
    Ok(packs.opened_by(name))
}

// Which of the open packs was opened by that name.
fn opened_by<F: Read + Seek + Drop>(
    alloc: Global,
    packs: &Packs<F>,
    stem: &str,
    ending: &str,
) -> Result<Option<usize>, AllocError> {
    match packs.name_of(&joined(alloc, stem, ending)?) {
        Some(name) => Ok(packs.opened_by(name)),
        None => Ok(None),
    }
}

// Whether a pack has no index of its own.
fn has_lone_pack<F: Read + Seek + Drop>(
    alloc: Global,
    packs: &Packs<F>,
) -> Result<bool, AllocError> {
    for name in &packs.seen {
        if let Some(stem) = name.strip_suffix(".pack") {
            if packs.name_of(&joined(alloc, stem, ".idx")?).is_none() {
                return Ok(true);
            }
        }
    }
    Ok(false)
}

// Why a pack isn't opened.
fn fault_of(cause: Cause) -> FolderFault {
    match cause {
        Cause::Memory => FolderFault::Memory,
        _ => FolderFault::Device,
    }
}

// What a source answers where a directory can't be listed.
pub(crate) fn cause_of(fault: FolderFault) -> Cause
    ensures { IsReadingCause result }
{
    match fault {
        FolderFault::Memory => Cause::Memory,
        _ => Cause::Device,
    }
}
