ghost use Rattle.std.specs.Prelude.{◌≡◌, ◌≤◌, ◌<◌, ◌+◌, List, Ok, Err, IfOk, OnOk};
ghost use Rattle.eden_object_writer.specs.Limits.{most_levels};
ghost use Rattle.eden_object_writer.specs.Trees.{HasPlainModes, IsTreeOf};
ghost use Rattle.eden_object_writer.specs.declared.fault.ImportFault.TheVariants as fault;
ghost use Rattle.eden_model.specs.Limits.{most_file};
ghost use Rattle.eden_model.specs.declared.tree_entry.TreeEntry.{TreeEntry};

use crate::fault::ImportFault;
use crate::found::{Found, Kind, entry_name, list};
use crate::store::Store;
use crate::tree::framed_tree;
use eden_model::MAX_FILE;
use eden_object::{Id, Mode, TreeEntry, encode_blob};
use eden_plain_files::{Links, read_file};
use std::alloc::{Alloc, Global};
use std::path::PathBuf;
use std::rt::Files;

/// How many levels below the top a folder may lie.
pub const LEVELS: u32 = 256;

/// The longest file that is imported, in bytes.
const LONGEST: u64 = MAX_FILE;

/// Imports the folder at the path into the store, and gives the id of its tree. Files have the mode 100644 and folders
/// 40000; folders that come out empty are left out, but for the top, whose tree may be the empty one.
///
/// The first fault that is met ends it: `Kind`, where there is neither a file nor a folder (a link is neither); `Name`,
/// where a name isn't UTF-8; `TooLarge`, where a file has more than 2^30 bytes or a folder lies more than 256 levels
/// below the top, or where a folder's tree can't be written; `Device` and `Memory`. What was stored by then stays.
pub fn import<R: Files + Alloc + Eprint + Clone + Drop>(
    alloc: Global,
    folder: &PathBuf,
    store: &mut Store<R>,
) -> Result<Id, ImportFault>
    ensures { IfOk result (λ id. (entries : List TreeEntry) × HasPlainModes entries × IsTreeOf entries id) }
{
    let outcome = import_top(alloc, folder, store);
    store.tell_end();
    outcome
}

fn import_top<R: Files + Alloc + Eprint + Clone + Drop>(
    alloc: Global,
    folder: &PathBuf,
    store: &mut Store<R>,
) -> Result<Id, ImportFault>
    ensures { IfOk result (λ id. (entries : List TreeEntry) × HasPlainModes entries × IsTreeOf entries id) }
{
    let entries = import_entries(alloc, folder, 0, store)?;
    import_tree(alloc, entries.as_slice(), store)
}

// The entries of a folder that lies so many levels below the top.
fn import_entries<R: Files + Alloc + Eprint + Clone + Drop>(
    alloc: Global,
    folder: &PathBuf,
    levels: u32,
    store: &mut Store<R>,
) -> Result<Vec<TreeEntry>, ImportFault>
    ensures { IfOk result (λ entries. HasPlainModes entries.items) }
{
    let mut entries = Vec::new(alloc);
    for found in list(store.files(), alloc, folder)? {
        let path = folder.join(alloc, found.name.as_str())?;
        match found.kind {
            Kind::File => {
                let id = import_file(alloc, &path, store)?;
                push_entry(alloc, &mut entries, &found, id)?;
            }
            Kind::Folder => {
                let below = import_entries(alloc, &path, level_below(levels)?, store)?;
                if !below.is_empty() {
                    let id = import_tree(alloc, below.as_slice(), store)?;
                    push_entry(alloc, &mut entries, &found, id)?;
                }
            }
        }
    }
    Ok(entries)
}

// How many levels below the top that lies which is in a folder of that level.
fn level_below(levels: u32) -> Result<u32, ImportFault>
    ensures within { levels < most_levels → result ≡ Ok (levels + 1) }
    ensures deep { most_levels ≤ levels → result ≡ Err fault.TooLarge }
{
    if levels < LEVELS {
        Ok(levels + 1)
    } else {
        Err(ImportFault::TooLarge)
    }
}

fn push_entry(
    alloc: Global,
    entries: &mut Vec<TreeEntry>,
    found: &Found,
    id: Id,
) -> Result<(), ImportFault>
    ensures { OnOk result (HasPlainModes entries.old.items → HasPlainModes entries.new.items) }
{
    let mode = match found.kind {
        Kind::File => Mode::File,
        Kind::Folder => Mode::Dir,
    };
    let name = entry_name(alloc, found.name.as_str())?;
    entries.push(TreeEntry { mode, name, id })?;
    Ok(())
}

fn import_tree<R: Files + Eprint>(
    alloc: Global,
    entries: &[TreeEntry],
    store: &mut Store<R>,
) -> Result<Id, ImportFault>
    ensures { IfOk result (IsTreeOf entries.now) }
{
    let framed = framed_tree(alloc, entries)?;
    store.put(alloc, framed.as_slice())
}

fn import_file<R: Files + Eprint>(
    alloc: Global,
    path: &PathBuf,
    store: &mut Store<R>,
) -> Result<Id, ImportFault>
    ensures bound { LONGEST ≡ most_file }
{
    let content = read_file(store.files(), alloc, path.as_str(), Links::Refused, LONGEST)?;
    let framed = encode_blob(alloc, content.as_slice())?;
    store.put(alloc, framed.as_slice())
}
