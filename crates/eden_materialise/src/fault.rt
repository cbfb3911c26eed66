ghost use Rattle.std.specs.Prelude.{◌≡◌};
ghost use Rattle.eden_materialise.specs.Faults.{told_files_fault};

use eden_model::Fault;
use eden_overlay::FilesFault;

/// A fault of the stored files, as a mount tells it.
pub fn told(fault: FilesFault) -> Fault
    ensures { result ≡ told_files_fault fault }
{
    match fault {
        FilesFault::Device => Fault::Overlay,
        FilesFault::Memory => Fault::Memory,
    }
}
