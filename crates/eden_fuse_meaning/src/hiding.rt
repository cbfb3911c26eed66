// Hidden names of the root.
ghost use Rattle.std.specs.Prelude.{◌≡◌, IfOk};
ghost use Rattle.eden_fuse_meaning.specs.Hiding.{hidden_name, is_hidden, list_hidden};

use crate::step::{Step, Then};
use eden_model::{MAX_ENTRIES, Name, Path, Request};
use itoa::Buffer;
use std::alloc::{AllocError, Global};

/// Whether a name of the root is one of those that nobody sees: what was removed while it is open stands there.
pub fn is_hidden(name: &[u8]) -> bool
    ensures { result ≡ is_hidden name.now }
{
    name.starts_with(&[255, 255, 255, 255])
}

/// The hidden name of the file with that node. The only error is want of memory.
pub fn hidden_name(alloc: Global, node: u64) -> Result<Vec<u8>, AllocError>
    ensures { IfOk result (λ name. name.items ≡ hidden_name node) }
{
    let mut buffer = Buffer::new();
    let mut name = Vec::from_slice(alloc, &[255, 255, 255, 255])?;
    name.extend_from_slice(buffer.format(node).as_bytes())?;
    Ok(name)
}

/// The step that lists what another run left at hidden names. The only error is want of memory.
pub fn list_hidden(alloc: Global) -> Result<Step, AllocError>
    ensures { IfOk result (λ step. step ≡ list_hidden) }
{
    let root = Path::new(Vec::new(alloc)).unwrap();
    let last = Name::new(Vec::from_slice(alloc, &[255, 255, 255, 255])?).unwrap();
    Ok(Step::Ask(Request::List(root, Some(last), MAX_ENTRIES), Then::List))
}
