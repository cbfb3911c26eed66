ghost use Rattle.std.specs.Prelude.{◌≡◌, ◌≢◌, Ok, Some, None, IfErr, IsErrAnd};
ghost use Rattle.std.specs.IoError.{error_kind};
ghost use Rattle.eden_plain_files.specs.Faults.{IsFailure};

use crate::fault::FolderFault;
use std::io::{self, ErrorKind};

/// What an item of `fs::read_dir` has: its entry, or nothing where its name isn't UTF-8. Such a name ends no listing.
pub fn entry_in<E: Drop>(item: io::Result<E>) -> Result<Option<E>, FolderFault>
    ensures named { (e : E) → item ≡ Ok e → result ≡ Ok (Some e) }
    ensures no_text { IsErrAnd item (λ e. error_kind e ≡ ErrorKind.InvalidFilename) → result ≡ Ok None }
    ensures failed { IfErr item (λ e. error_kind e ≢ ErrorKind.InvalidFilename → IsErrAnd result (IsFailure e)) }
{
    match item {
        Ok(entry) => Ok(Some(entry)),
        Err(error) if error.kind() == ErrorKind::InvalidFilename => Ok(None),
        Err(error) => Err(FolderFault::from(error)),
    }
}
