ghost use Rattle.std.specs.Prelude.{◌≡◌, ◌≤◌, ◌+◌, ◌++◌, IfOk, OnOk, OnErr, drop, length, take};
ghost use Rattle.eden_model.specs.Operations.{written};

use std::alloc::{AllocError, Global};
use std::marker::Model;
use std::sync::Arc;

/// Bytes that have several owners, none of whom copies them: who hands them over still has them. Contracts see the list
/// of the bytes.
#[derive(Debug, Drop)]
pub struct SharedBytes {
    content: Arc<Vec<u8>>,
}

impl Model for SharedBytes {
    ghost use Rattle.std.specs.Prelude.{List, ℕ};
    ghost use Rattle.std.specs.Arc.{arc_value};

    ghost Value = { List ℕ };

    ghost view = { λ b. (arc_value b.content).items };
}

impl SharedBytes {
    /// Takes the bytes as they are, with no copy. The only error is want of memory.
    pub fn new(alloc: Global, content: Vec<u8>) -> Result<SharedBytes, AllocError>
        ensures { IfOk result (λ b. b ≡ content.items) }
    {
        match Arc::new(alloc, content) {
            Ok(content) => Ok(SharedBytes { content }),
            Err(_) => Err(AllocError),
        }
    }

    /// The bytes.
    pub fn as_slice(&self) -> &[u8]
        ensures { result.now ≡ self.now }
    {
        self.content.as_slice()
    }

    /// How many bytes there are.
    pub fn len(&self) -> usize
        ensures { result ≡ length self.now }
    {
        self.content.len()
    }

    /// One more owner of the same bytes. The only error is that there are as many as can be counted.
    pub fn share(&self) -> Result<SharedBytes, AllocError>
        ensures { IfOk result (λ b. b ≡ self.now) }
    {
        let content = Arc::try_clone(&self.content)?;
        Ok(SharedBytes { content })
    }

    /// Writes bytes into them, from a place in them or their end on: over what is there, and behind it. Those that have
    /// another owner are copied first. Without memory nothing changes.
    pub fn write(&mut self, alloc: Global, at: usize, bytes: &[u8]) -> Result<(), AllocError>
        requires { at ≤ length self.old }
        ensures ok { OnOk result (self.new ≡ written at bytes.now self.old) }
        ensures err { OnErr result (self.new ≡ self.old) }
    {
        if let Some(content) = Arc::get_mut(&mut self.content) {
            return write_over(content, at, bytes);
        }
        let content = overwritten(alloc, self.content.as_slice(), at, bytes)?;
        *self = SharedBytes::new(alloc, content)?;
        Ok(())
    }
}

// Bytes from a place on that isn't behind the end, where they lie. Without memory nothing changes.
fn write_over(content: &mut Vec<u8>, at: usize, bytes: &[u8]) -> Result<(), AllocError>
    requires { at ≤ length content.old.items }
    ensures ok { OnOk result (content.new.items ≡ written at bytes.now content.old.items) }
    ensures err { OnErr result (content.new.items ≡ content.old.items) }
{
    let (over, behind) = bytes.split_at(bytes.len().min(content.len() - at));
    content.extend_from_slice(behind)?;
    put_over(content.as_mut_slice(), at, over);
    Ok(())
}

// Bytes in place of as many others.
fn put_over(content: &mut [u8], at: usize, bytes: &[u8])
    requires { at + length bytes.now ≤ length content.old }
    ensures { content.new ≡ take at content.old ++ bytes.now ++ drop (at + length bytes.now) content.old }
{
    content[at..at + bytes.len()].copy_from_slice(bytes);
}

// .. with what is around them in other room.
fn overwritten(alloc: Global, old: &[u8], at: usize, bytes: &[u8]) -> Result<Vec<u8>, AllocError>
    requires { at ≤ length old.now }
    ensures { IfOk result (λ v. v.items ≡ written at bytes.now old.now) }
{
    let end = at.saturating_add(bytes.len()).min(old.len());
    let mut content = Vec::with_capacity(alloc, old.len().saturating_add(bytes.len()))?;
    content.extend_from_slice(&old[..at])?;
    content.extend_from_slice(bytes)?;
    content.extend_from_slice(&old[end..])?;
    Ok(content)
}
