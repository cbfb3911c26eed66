ghost use Rattle.std.specs.Prelude.{◌≡◌, option_map, option_and_then};
ghost use Rattle.eden_fuse_format.specs.Members.{behind, name_in, names_in};
ghost use Rattle.eden_fuse_format.specs.Asked.{seen, asked_by, asked_write, forgotten, forget_one};

use crate::members::{behind, name_in, names_in, u32_at, u64_at};
use crate::opcode::Opcode;
use crate::structs::{
    AccessIn, CreateIn, FSyncIn, FallocateIn, FlushIn, ForgetIn, ForgetOne, GetAttrIn, InitIn,
    InterruptIn, LinkIn, MkDirIn, MkNodIn, OpenIn, ReadIn, ReleaseIn, Rename2In, RenameIn,
    SetAttrIn, WriteIn, access_in, create_in, fallocate_in, flush_in, forget_in, fsync_in,
    getattr_in, init_in, interrupt_in, link_in, mkdir_in, mknod_in, open_in, read_in, release_in,
    rename_in, rename2_in, setattr_in, write_in,
};

/// What a message asks for, of the node that its header names. Names and bytes are the message's own; a name is any
/// bytes without NUL.
#[derive(Clone, Copy)]
pub enum Operation<'a> {
    Lookup(&'a [u8]),
    Forget(ForgetIn),
    GetAttr(GetAttrIn),
    SetAttr(SetAttrIn),
    ReadLink,
    /// A name, and the new link's target.
    Symlink(&'a [u8], &'a [u8]),
    MkNod(MkNodIn, &'a [u8]),
    MkDir(MkDirIn, &'a [u8]),
    Unlink(&'a [u8]),
    RmDir(&'a [u8]),
    /// A name, and its new one.
    Rename(RenameIn, &'a [u8], &'a [u8]),
    Link(LinkIn, &'a [u8]),
    Open(OpenIn),
    Read(ReadIn),
    /// As many bytes as the struct says.
    Write(WriteIn, &'a [u8]),
    StatFs,
    Release(ReleaseIn),
    FSync(FSyncIn),
    Flush(FlushIn),
    Init(InitIn),
    OpenDir(OpenIn),
    ReadDir(ReadIn),
    ReleaseDir(ReleaseIn),
    FSyncDir(FSyncIn),
    Access(AccessIn),
    Create(CreateIn, &'a [u8]),
    Interrupt(InterruptIn),
    Destroy,
    /// What `forget_at` finds, 16 bytes each.
    BatchForget(&'a [u8]),
    Fallocate(FallocateIn),
    ReadDirPlus(ReadIn),
    /// A name, and its new one.
    Rename2(Rename2In, &'a [u8], &'a [u8]),
}

/// The node at this place of a batch that is to be forgotten, or none behind its end.
pub fn forget_at(batch: &[u8], index: usize) -> Option<ForgetOne>
    ensures { result ≡ forget_one index batch.now }
{
    if index >= batch.len() / 16 {
        return None;
    }
    let (_, rest) = batch.split_at(16 * index);
    Some(ForgetOne {
        nodeid: u64_at(rest, 0),
        nlookup: u64_at(rest, 8),
    })
}

fn written(body: &[u8]) -> Option<Operation<'_>>
    ensures { option_map seen result ≡ asked_write body.now }
{
    let head = write_in(body)?;
    let bytes = behind(40, body)?;
    if bytes.len() == head.size as usize {
        Some(Operation::Write(head, bytes))
    } else {
        None
    }
}

fn forgotten(body: &[u8]) -> Option<Operation<'_>>
    ensures { option_map seen result ≡ forgotten body.now }
{
    let batch = behind(8, body)?;
    if batch.len() == u32_at(body, 0) as usize * 16 {
        Some(Operation::BatchForget(batch))
    } else {
        None
    }
}

// The name behind a struct of this size.
fn name_behind(size: usize, body: &[u8]) -> Option<&[u8]>
    ensures { option_map (λ x. x.now) result ≡ option_and_then name_in (behind size body.now) }
{
    name_in(behind(size, body)?)
}

// The two names behind a struct of this size.
fn names_behind(size: usize, body: &[u8]) -> Option<(&[u8], &[u8])>
    ensures { option_map (λ x. (x.0.now, x.1.now)) result ≡ option_and_then names_in (behind size body.now) }
{
    names_in(behind(size, body)?)
}

/// What a body asks for under this operation.
pub(crate) fn read_operation(opcode: Opcode, body: &[u8]) -> Option<Operation<'_>>
    ensures { option_map seen result ≡ asked_by opcode body.now }
{
    match opcode {
        Opcode::Lookup => Some(Operation::Lookup(name_in(body)?)),
        Opcode::Forget => Some(Operation::Forget(forget_in(body)?)),
        Opcode::GetAttr => Some(Operation::GetAttr(getattr_in(body)?)),
        Opcode::SetAttr => Some(Operation::SetAttr(setattr_in(body)?)),
        Opcode::ReadLink => Some(Operation::ReadLink),
        Opcode::Symlink => {
            let (name, target) = names_in(body)?;
            Some(Operation::Symlink(name, target))
        }
        Opcode::MkNod => Some(Operation::MkNod(mknod_in(body)?, name_behind(16, body)?)),
        Opcode::MkDir => Some(Operation::MkDir(mkdir_in(body)?, name_behind(8, body)?)),
        Opcode::Unlink => Some(Operation::Unlink(name_in(body)?)),
        Opcode::RmDir => Some(Operation::RmDir(name_in(body)?)),
        Opcode::Rename => {
            let head = rename_in(body)?;
            let (name, new_name) = names_behind(8, body)?;
            Some(Operation::Rename(head, name, new_name))
        }
        Opcode::Link => Some(Operation::Link(link_in(body)?, name_behind(8, body)?)),
        Opcode::Open => Some(Operation::Open(open_in(body)?)),
        Opcode::Read => Some(Operation::Read(read_in(body)?)),
        Opcode::Write => written(body),
        Opcode::StatFs => Some(Operation::StatFs),
        Opcode::Release => Some(Operation::Release(release_in(body)?)),
        Opcode::FSync => Some(Operation::FSync(fsync_in(body)?)),
        Opcode::Flush => Some(Operation::Flush(flush_in(body)?)),
        Opcode::Init => Some(Operation::Init(init_in(body)?)),
        Opcode::OpenDir => Some(Operation::OpenDir(open_in(body)?)),
        Opcode::ReadDir => Some(Operation::ReadDir(read_in(body)?)),
        Opcode::ReleaseDir => Some(Operation::ReleaseDir(release_in(body)?)),
        Opcode::FSyncDir => Some(Operation::FSyncDir(fsync_in(body)?)),
        Opcode::Access => Some(Operation::Access(access_in(body)?)),
        Opcode::Create => Some(Operation::Create(create_in(body)?, name_behind(16, body)?)),
        Opcode::Interrupt => Some(Operation::Interrupt(interrupt_in(body)?)),
        Opcode::Destroy => Some(Operation::Destroy),
        Opcode::BatchForget => forgotten(body),
        Opcode::Fallocate => Some(Operation::Fallocate(fallocate_in(body)?)),
        Opcode::ReadDirPlus => Some(Operation::ReadDirPlus(read_in(body)?)),
        Opcode::Rename2 => {
            let head = rename2_in(body)?;
            let (name, new_name) = names_behind(16, body)?;
            Some(Operation::Rename2(head, name, new_name))
        }
    }
}
