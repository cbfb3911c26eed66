//! Own directories: what can't be had is taken out of them.
ghost use Rattle.std.specs.Prelude.{[], ◌≡◌, ◌≤◌, ◌+◌, ◌++◌, ℕ, List, length};
ghost use Rattle.std.specs.Prelude.{Err, IfOk, IsTrue, OnOk, OnErr};
ghost use Rattle.std.specs.Ordering.{nat_cmp};
ghost use Rattle.std.specs.BTreeSet.{contains, btree_set_len};
ghost use Rattle.eden_model.specs.Failures.{Counted};
ghost use Rattle.eden_model.specs.Limits.{number_end};
ghost use Rattle.eden_model.specs.Numbers.{IsNumber};
ghost use Rattle.eden_model.specs.declared.kind.Origin.TheVariants as origin;
ghost use Rattle.eden_overlay.specs.Files.{Stored};
ghost use Rattle.eden_overlay.specs.declared.files.FilesFault.TheVariants as fault;
ghost use Rattle.eden_repair.specs.Repairing.{Way, Stores};
ghost use Rattle.eden_repair.specs.Surveying.{CoversOwn, IsMended, MendsOn};

use crate::finding::Finding;
use crate::survey::{Directory, Sorted, sort_out};
use eden_model::World;
use eden_overlay::{Files, FilesFault, entries_of};
use eden_overlay_format::Listing;
use std::alloc::Global;
use std::collections::BTreeSet;

// Stores what stays of a directory if anything goes, which is told. After an error nothing has changed, and nothing
// more is told.
fn store<W: World, F: Files<W>>(
    alloc: Global,
    files: &mut F,
    number: u64,
    listing: Listing,
    mut cut: Vec<Finding>,
    found: &mut Vec<Finding>,
) -> Result<(), FilesFault>
    ensures ok { W.honest
        → OnOk result (Stores (F.stored files.old) number listing cut.items (F.stored files.new)) }
    ensures told { OnOk result (found.new.items ≡ found.old.items ++ cut.items) }
    ensures err { W.honest → OnErr result (F.stored files.new ≡ F.stored files.old) }
    ensures untold { OnErr result (found.new.items ≡ found.old.items) }
    ensures counted { Counted (result ≡ Err fault.Device) (F.failures files.old) (F.failures files.new) }
{
    if cut.is_empty() {
        return Ok(());
    }
    let before = found.len();
    found.append(&mut cut)?;
    match files.replace(alloc, number, &listing.into_file()) {
        Ok(()) => Ok(()),
        Err(fault) => {
            found.truncate(before);
            Err(fault)
        }
    }
}

/// Takes out of an own directory what can't be had, and tells it. The directories among the entries that stay.
///
/// There are none if the directory can't be read, or was seen before. After an error it is as it was.
pub(crate) fn mend_own<W: World, F: Files<W>>(
    alloc: Global,
    files: &mut F,
    met: &mut BTreeSet<u64>,
    seen: &mut BTreeSet<u64>,
    directory: &Directory,
    found: &mut Vec<Finding>,
) -> Result<Vec<Directory>, FilesFault>
    requires own { directory.now.origin ≡ origin.Own }
    requires met { (k : ℕ) → IsTrue (contains nat_cmp met.old k) → IsNumber k }
    requires few { btree_set_len met.old ≤ number_end }
    ensures mended { W.honest → IfOk result (λ v. MendsOn directory.now
        found.old.items (F.stored files.old) met.old seen.old
        found.new.items (F.stored files.new) met.new seen.new v.items) }
    ensures covered { W.honest → IfOk result (λ v. CoversOwn directory.now
        (F.stored files.old) (contains nat_cmp met.old) (contains nat_cmp seen.old) v.items
        (F.stored files.new) (contains nat_cmp met.new) (contains nat_cmp seen.new)) }
    ensures so_far { W.honest → OnErr result ((begun : Stored) (first : List Way)
        → IsMended begun first found.old.items (F.stored files.old) []
        → IsMended begun first found.new.items (F.stored files.new) []) }
    ensures more { IfOk result (λ v. btree_set_len met.old + length v.items ≤ btree_set_len met.new) }
    ensures range { OnOk result ((k : ℕ) → IsTrue (contains nat_cmp met.new k) → IsNumber k) }
    ensures few { OnOk result (btree_set_len met.new ≤ number_end) }
    ensures counted { Counted (result ≡ Err fault.Device) (F.failures files.old) (F.failures files.new) }
{
    if !seen.insert(directory.number)? {
        return Ok(Vec::new(alloc));
    }
    let Some(entries) = entries_of(alloc, files, directory.number)? else {
        return Ok(Vec::new(alloc));
    };
    let sorted = sort_out(alloc, files, met, &directory.path, entries)?;
    let Sorted {
        listing,
        below,
        cut,
    } = sorted;
    store(alloc, files, directory.number, listing, cut, found)?;
    Ok(below)
}
