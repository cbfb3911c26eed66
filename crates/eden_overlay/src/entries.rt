//! The entries of a stored directory.

ghost use Rattle.std.specs.Prelude.{◌≡◌, None, Err, IfOk, IfSome};
ghost use Rattle.eden_model.specs.Failures.{Counted};
ghost use Rattle.eden_overlay_format.specs.Directory.{AreStorable};
ghost use Rattle.eden_overlay.specs.Held.{HoldsEntries, entries_at};
ghost use Rattle.eden_overlay.specs.declared.files.FilesFault.TheVariants as fault;

use crate::files::{Files, FilesFault};
use eden_model::World;
use eden_overlay_format::{DecodeFault, StoredEntry, decode_dir};
use std::alloc::Global;

/// The entries of the directory that the file of that number stores; None if it isn't there, or stores none.
pub fn entries_of<W: World, F: Files<W>>(
    alloc: Global,
    files: &mut F,
    number: u64,
) -> Result<Option<Vec<StoredEntry>>, FilesFault>
    ensures held { W.honest
        → IfOk result (λ o. IfSome o (λ v. HoldsEntries (F.stored files.old) number v.items)) }
    ensures none { W.honest → IfOk result (λ o. o ≡ None → entries_at (F.stored files.old) number ≡ None) }
    ensures storable { IfOk result (λ o. IfSome o (λ v. AreStorable v.items)) }
    ensures unchanged { W.honest → F.stored files.new ≡ F.stored files.old }
    ensures counted { Counted (result ≡ Err fault.Device) (F.failures files.old) (F.failures files.new) }
{
    match files.read(alloc, number)? {
        None => Ok(None),
        Some(file) => match decode_dir(alloc, &file) {
            Ok(entries) => Ok(Some(entries)),
            Err(DecodeFault::Refused(_)) => Ok(None),
            Err(DecodeFault::Memory) => Err(FilesFault::Memory),
        },
    }
}
