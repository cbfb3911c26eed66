ghost use Rattle.std.specs.Prelude.{◌≡◌, ◌⊎◌, Ok, Err, IfOk, IfErr};
ghost use Rattle.eden_object.specs.Encoding.{IsEncoded};
ghost use Rattle.eden_object_writer.specs.Trees.{IsEncodable};
ghost use Rattle.eden_object_writer.specs.declared.fault.ImportFault.TheVariants as fault;

use crate::fault::ImportFault;
use eden_object::{TreeEntry, encode_tree, is_encodable};
use std::alloc::Global;

/// The framed tree of a folder's entries.
///
/// `TooLarge`, where no tree can be written of them; `Memory`.
pub(crate) fn framed_tree(alloc: Global, entries: &[TreeEntry]) -> Result<Vec<u8>, ImportFault>
    ensures written { IfOk result (λ framed. IsEncoded entries.now framed.items) }
    ensures large { result ≡ Err fault.TooLarge → ¬ IsEncodable entries.now }
    ensures faults { IfErr result (λ f. (f ≡ fault.TooLarge) ⊎ (f ≡ fault.Memory)) }
{
    if !is_encodable(alloc, entries)? {
        return Err(ImportFault::TooLarge);
    }
    Ok(encode_tree(alloc, entries)?)
}
