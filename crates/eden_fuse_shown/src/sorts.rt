ghost use Rattle.std.specs.Prelude.{◌≡◌};
ghost use Rattle.eden_fuse_format.specs.Asked.{seen};
ghost use Rattle.eden_fuse_shown.specs.Naming.{denial, last_name};
ghost use Rattle.eden_fuse_shown.specs.Showing.{batch_of, data_of, sort_of};

use eden_fuse_format::{Operation, ReadIn};

/// What has to be done for a message, beside what it asks of the mount.
#[derive(Clone, Copy)]
pub enum Sort {
    /// Its node is forgotten so often, and nothing is asked.
    One(u64),
    /// A batch of nodes is forgotten, and nothing is asked.
    Batch,
    /// An open directory is read on.
    On(ReadIn),
    /// A file is closed.
    Close,
    /// What is written at that offset waits to be stored.
    Write(u64),
    /// What waits for its node is stored first.
    Look,
    /// .. and then the mount waits for the disk.
    Sync,
    /// What another run left is removed first.
    Start,
    /// If what is removed is open, it is hidden.
    Remove,
    /// If what is replaced in the directory of that node is open, it is hidden first.
    Replace(u64),
    /// Nothing.
    Plain,
}

/// What sort of message it is.
pub(crate) fn sort_of(operation: &Operation<'_>) -> Sort
    ensures { result ≡ sort_of (seen operation.now) }
{
    match operation {
        Operation::Forget(forget) => Sort::One(forget.nlookup),
        Operation::BatchForget(_) => Sort::Batch,
        Operation::ReadDir(read) => Sort::On(*read),
        Operation::Release(_) => Sort::Close,
        Operation::Write(head, _) => Sort::Write(head.offset),
        Operation::SetAttr(_) | Operation::Flush(_) | Operation::Fallocate(_) => Sort::Look,
        Operation::FSync(_) | Operation::FSyncDir(_) => Sort::Sync,
        Operation::Init(_) => Sort::Start,
        Operation::Unlink(_) => Sort::Remove,
        Operation::Rename(head, _, _) => Sort::Replace(head.newdir),
        Operation::Rename2(head, _, _) => {
            if head.flags == 0 {
                Sort::Replace(head.newdir)
            } else {
                Sort::Plain
            }
        }
        _ => Sort::Plain,
    }
}

/// The batch that a message forgets.
pub(crate) fn batch_of<'a>(operation: &Operation<'a>) -> &'a [u8]
    ensures { result.now ≡ batch_of (seen operation.now) }
{
    match operation {
        Operation::BatchForget(batch) => batch,
        _ => &[],
    }
}

/// The bytes that a message writes.
pub(crate) fn data_of<'a>(operation: &Operation<'a>) -> &'a [u8]
    ensures { result.now ≡ data_of (seen operation.now) }
{
    match operation {
        Operation::Write(_, bytes) => bytes,
        _ => &[],
    }
}

/// The name at which a message removes or replaces what stands there.
pub(crate) fn last_name<'a>(operation: &Operation<'a>) -> &'a [u8]
    ensures { result.now ≡ last_name (seen operation.now) }
{
    match operation {
        Operation::Unlink(name) => name,
        Operation::Rename(_, _, name) => name,
        Operation::Rename2(_, _, name) => name,
        _ => &[],
    }
}

/// The number of the error with which a message is refused that names what nobody sees.
pub(crate) fn denial(operation: &Operation<'_>) -> u32
    ensures { result ≡ denial (seen operation.now) }
{
    match operation {
        Operation::Lookup(_) => 2,
        _ => 1,
    }
}
