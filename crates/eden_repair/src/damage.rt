//! What is wrong with what an entry names.
ghost use Rattle.std.specs.Prelude.{◌≡◌, ◌≢◌, None, Some, Err, IfOk, IfErr, IfSome};
ghost use Rattle.eden_model.specs.Failures.{Counted};
ghost use Rattle.eden_overlay.specs.Soundness.{HoldsKind};
ghost use Rattle.eden_overlay.specs.declared.files.FilesFault.TheVariants as fault;
ghost use Rattle.eden_repair.specs.Repairing.{IsDamagedSo};
ghost use Rattle.eden_repair.specs.declared.damage.Damage.TheVariants as damage;

use eden_model::{Kind, World};
use eden_overlay::{Files, FilesFault};
use eden_overlay_format::{DecodeFault, Refusal, decode_dir, decode_file};
use std::alloc::Global;
use thiserror::Error;

/// Why what an entry names can't be had.
#[derive(Clone, Copy, Debug, PartialEq, Eq, Error)]
pub enum Damage {
    /// Its file isn't stored.
    #[error("missing")]
    Missing,
    /// Its file is stored, and isn't what the entry says.
    #[error("damaged: {0}")]
    Damaged(Refusal),
    /// An entry that was looked at before has the same number.
    #[error("named twice")]
    Twice,
}

/// What is wrong with the own file of an inode of that number and kind; None if it is there and good.
///
/// A content is read whole, for its digest. Errors are the device's, and want of memory.
pub(crate) fn damage_at<W: World, F: Files<W>>(
    alloc: Global,
    files: &mut F,
    number: u64,
    kind: Kind,
) -> Result<Option<Damage>, FilesFault>
    ensures bad { W.honest
        → IfOk result (λ found. IfSome found (IsDamagedSo (F.stored files.old) number kind)) }
    ensures good { W.honest → IfOk result (λ found. found ≡ None → HoldsKind (F.stored files.old) number kind) }
    ensures once { IfOk result (λ found. IfSome found (λ d. d ≢ damage.Twice)) }
    ensures unchanged { W.honest → F.stored files.new ≡ F.stored files.old }
    ensures counted { Counted (result ≡ Err fault.Device) (F.failures files.old) (F.failures files.new) }
{
    match files.read(alloc, number)? {
        None => Ok(Some(Damage::Missing)),
        Some(file) => match refusal_of(alloc, &file, kind)? {
            None => Ok(None),
            Some(refusal) => Ok(Some(Damage::Damaged(refusal))),
        },
    }
}

// Why the bytes are no directory, or no content, as the kind says; None if they are.
fn refusal_of(alloc: Global, file: &[u8], kind: Kind) -> Result<Option<Refusal>, FilesFault>
    ensures bad { IfOk result
        (λ found. IfSome found (λ r. IsDamagedSo (λ _. Some file.now) 0 kind (damage.Damaged r))) }
    ensures good { IfOk result (λ found. found ≡ None → HoldsKind (λ _. Some file.now) 0 kind) }
    ensures fault { IfErr result (λ f. f ≡ fault.Memory) }
{
    match kind {
        Kind::Dir => match decode_dir(alloc, file) {
            Ok(_) => Ok(None),
            Err(DecodeFault::Refused(refusal)) => Ok(Some(refusal)),
            Err(DecodeFault::Memory) => Err(FilesFault::Memory),
        },
        Kind::File | Kind::Exec | Kind::Link => Ok(decode_file(file).err()),
    }
}
