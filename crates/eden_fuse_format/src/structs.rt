// The structs of messages. Members have the names of Linux's include/uapi/linux/fuse.h.
ghost use Rattle.std.specs.Prelude.{◌≡◌};
ghost use Rattle.eden_fuse_format.specs.Structs.{
  forget_in,
  getattr_in,
  setattr_in,
  mknod_in,
  mkdir_in,
  rename_in,
  rename2_in,
  link_in,
  open_in,
  create_in,
  read_in,
  write_in,
  release_in,
  fsync_in,
  flush_in,
  init_in,
  access_in,
  interrupt_in,
  fallocate_in,
};

use crate::members::{u32_at, u64_at};

/// How often a node is forgotten.
#[derive(Clone, Copy)]
pub struct ForgetIn {
    pub nlookup: u64,
}

/// A node, and how often it is forgotten.
#[derive(Clone, Copy)]
pub struct ForgetOne {
    pub nodeid: u64,
    pub nlookup: u64,
}

/// Whose attributes are asked for: of an open file, if bit 0 of `getattr_flags` is set.
#[derive(Clone, Copy)]
pub struct GetAttrIn {
    pub getattr_flags: u32,
    pub fh: u64,
}

/// Attributes to be set. The bits of `valid` say which of the other members count.
#[derive(Clone, Copy)]
pub struct SetAttrIn {
    pub valid: u32,
    pub fh: u64,
    pub size: u64,
    pub lock_owner: u64,
    pub atime: u64,
    pub mtime: u64,
    pub ctime: u64,
    pub atimensec: u32,
    pub mtimensec: u32,
    pub ctimensec: u32,
    pub mode: u32,
    pub uid: u32,
    pub gid: u32,
}

/// What a new node is to be, the creator's umask taken off its mode.
#[derive(Clone, Copy)]
pub struct MkNodIn {
    pub mode: u32,
    pub rdev: u32,
    pub umask: u32,
}

/// What a new directory is to be.
#[derive(Clone, Copy)]
pub struct MkDirIn {
    pub mode: u32,
    pub umask: u32,
}

/// Which directory a name goes to.
#[derive(Clone, Copy)]
pub struct RenameIn {
    pub newdir: u64,
}

/// Which directory a name goes to, and the flags of renameat2(2).
#[derive(Clone, Copy)]
pub struct Rename2In {
    pub newdir: u64,
    pub flags: u32,
}

/// Which node is to get one more name.
#[derive(Clone, Copy)]
pub struct LinkIn {
    pub oldnodeid: u64,
}

/// How a file or a directory is opened: the flags of open(2), and the kernel's own.
#[derive(Clone, Copy)]
pub struct OpenIn {
    pub flags: u32,
    pub open_flags: u32,
}

/// How a file is made and opened.
#[derive(Clone, Copy)]
pub struct CreateIn {
    pub flags: u32,
    pub mode: u32,
    pub umask: u32,
    pub open_flags: u32,
}

/// From where on an open file or directory is read, and at most how many bytes.
#[derive(Clone, Copy)]
pub struct ReadIn {
    pub fh: u64,
    pub offset: u64,
    pub size: u32,
    pub read_flags: u32,
    pub lock_owner: u64,
    pub flags: u32,
}

/// From where on bytes are put into an open file, and how many.
#[derive(Clone, Copy)]
pub struct WriteIn {
    pub fh: u64,
    pub offset: u64,
    pub size: u32,
    pub write_flags: u32,
    pub lock_owner: u64,
    pub flags: u32,
}

/// Which open file or directory is closed for the last time.
#[derive(Clone, Copy)]
pub struct ReleaseIn {
    pub fh: u64,
    pub flags: u32,
    pub release_flags: u32,
    pub lock_owner: u64,
}

/// Which open file or directory is to be stored; without its attributes, if bit 0 of `fsync_flags` is set.
#[derive(Clone, Copy)]
pub struct FSyncIn {
    pub fh: u64,
    pub fsync_flags: u32,
}

/// Of which open file one descriptor is closed.
#[derive(Clone, Copy)]
pub struct FlushIn {
    pub fh: u64,
    pub lock_owner: u64,
}

/// The kernel's version of the protocol, how far it reads ahead at most, in bytes, and what it can do.
#[derive(Clone, Copy)]
pub struct InitIn {
    pub major: u32,
    pub minor: u32,
    pub max_readahead: u32,
    pub flags: u32,
}

/// Which access is asked about.
#[derive(Clone, Copy)]
pub struct AccessIn {
    pub mask: u32,
}

/// Which request nobody waits for any more.
#[derive(Clone, Copy)]
pub struct InterruptIn {
    pub unique: u64,
}

/// The bytes of an open file for which there is to be room, from an offset on. `mode` is that of fallocate(2).
#[derive(Clone, Copy)]
pub struct FallocateIn {
    pub fh: u64,
    pub offset: u64,
    pub length: u64,
    pub mode: u32,
}

pub(crate) fn forget_in(body: &[u8]) -> Option<ForgetIn>
    ensures { result ≡ forget_in body.now }
{
    if body.len() < 8 {
        return None;
    }
    Some(ForgetIn {
        nlookup: u64_at(body, 0),
    })
}

pub(crate) fn getattr_in(body: &[u8]) -> Option<GetAttrIn>
    ensures { result ≡ getattr_in body.now }
{
    if body.len() < 16 {
        return None;
    }
    Some(GetAttrIn {
        getattr_flags: u32_at(body, 0),
        fh: u64_at(body, 8),
    })
}

pub(crate) fn setattr_in(body: &[u8]) -> Option<SetAttrIn>
    ensures { result ≡ setattr_in body.now }
{
    if body.len() < 88 {
        return None;
    }
    Some(SetAttrIn {
        valid: u32_at(body, 0),
        fh: u64_at(body, 8),
        size: u64_at(body, 16),
        lock_owner: u64_at(body, 24),
        atime: u64_at(body, 32),
        mtime: u64_at(body, 40),
        ctime: u64_at(body, 48),
        atimensec: u32_at(body, 56),
        mtimensec: u32_at(body, 60),
        ctimensec: u32_at(body, 64),
        mode: u32_at(body, 68),
        uid: u32_at(body, 76),
        gid: u32_at(body, 80),
    })
}

pub(crate) fn mknod_in(body: &[u8]) -> Option<MkNodIn>
    ensures { result ≡ mknod_in body.now }
{
    if body.len() < 16 {
        return None;
    }
    Some(MkNodIn {
        mode: u32_at(body, 0),
        rdev: u32_at(body, 4),
        umask: u32_at(body, 8),
    })
}

pub(crate) fn mkdir_in(body: &[u8]) -> Option<MkDirIn>
    ensures { result ≡ mkdir_in body.now }
{
    if body.len() < 8 {
        return None;
    }
    Some(MkDirIn {
        mode: u32_at(body, 0),
        umask: u32_at(body, 4),
    })
}

pub(crate) fn rename_in(body: &[u8]) -> Option<RenameIn>
    ensures { result ≡ rename_in body.now }
{
    if body.len() < 8 {
        return None;
    }
    Some(RenameIn {
        newdir: u64_at(body, 0),
    })
}

pub(crate) fn rename2_in(body: &[u8]) -> Option<Rename2In>
    ensures { result ≡ rename2_in body.now }
{
    if body.len() < 16 {
        return None;
    }
    Some(Rename2In {
        newdir: u64_at(body, 0),
        flags: u32_at(body, 8),
    })
}

pub(crate) fn link_in(body: &[u8]) -> Option<LinkIn>
    ensures { result ≡ link_in body.now }
{
    if body.len() < 8 {
        return None;
    }
    Some(LinkIn {
        oldnodeid: u64_at(body, 0),
    })
}

pub(crate) fn open_in(body: &[u8]) -> Option<OpenIn>
    ensures { result ≡ open_in body.now }
{
    if body.len() < 8 {
        return None;
    }
    Some(OpenIn {
        flags: u32_at(body, 0),
        open_flags: u32_at(body, 4),
    })
}

pub(crate) fn create_in(body: &[u8]) -> Option<CreateIn>
    ensures { result ≡ create_in body.now }
{
    if body.len() < 16 {
        return None;
    }
    Some(CreateIn {
        flags: u32_at(body, 0),
        mode: u32_at(body, 4),
        umask: u32_at(body, 8),
        open_flags: u32_at(body, 12),
    })
}

pub(crate) fn read_in(body: &[u8]) -> Option<ReadIn>
    ensures { result ≡ read_in body.now }
{
    if body.len() < 40 {
        return None;
    }
    Some(ReadIn {
        fh: u64_at(body, 0),
        offset: u64_at(body, 8),
        size: u32_at(body, 16),
        read_flags: u32_at(body, 20),
        lock_owner: u64_at(body, 24),
        flags: u32_at(body, 32),
    })
}

pub(crate) fn write_in(body: &[u8]) -> Option<WriteIn>
    ensures { result ≡ write_in body.now }
{
    if body.len() < 40 {
        return None;
    }
    Some(WriteIn {
        fh: u64_at(body, 0),
        offset: u64_at(body, 8),
        size: u32_at(body, 16),
        write_flags: u32_at(body, 20),
        lock_owner: u64_at(body, 24),
        flags: u32_at(body, 32),
    })
}

pub(crate) fn release_in(body: &[u8]) -> Option<ReleaseIn>
    ensures { result ≡ release_in body.now }
{
    if body.len() < 24 {
        return None;
    }
    Some(ReleaseIn {
        fh: u64_at(body, 0),
        flags: u32_at(body, 8),
        release_flags: u32_at(body, 12),
        lock_owner: u64_at(body, 16),
    })
}

pub(crate) fn fsync_in(body: &[u8]) -> Option<FSyncIn>
    ensures { result ≡ fsync_in body.now }
{
    if body.len() < 16 {
        return None;
    }
    Some(FSyncIn {
        fh: u64_at(body, 0),
        fsync_flags: u32_at(body, 8),
    })
}

pub(crate) fn flush_in(body: &[u8]) -> Option<FlushIn>
    ensures { result ≡ flush_in body.now }
{
    if body.len() < 24 {
        return None;
    }
    Some(FlushIn {
        fh: u64_at(body, 0),
        lock_owner: u64_at(body, 16),
    })
}

pub(crate) fn init_in(body: &[u8]) -> Option<InitIn>
    ensures { result ≡ init_in body.now }
{
    if body.len() < 16 {
        return None;
    }
    Some(InitIn {
        major: u32_at(body, 0),
        minor: u32_at(body, 4),
        max_readahead: u32_at(body, 8),
        flags: u32_at(body, 12),
    })
}

pub(crate) fn access_in(body: &[u8]) -> Option<AccessIn>
    ensures { result ≡ access_in body.now }
{
    if body.len() < 8 {
        return None;
    }
    Some(AccessIn {
        mask: u32_at(body, 0),
    })
}

pub(crate) fn interrupt_in(body: &[u8]) -> Option<InterruptIn>
    ensures { result ≡ interrupt_in body.now }
{
    if body.len() < 8 {
        return None;
    }
    Some(InterruptIn {
        unique: u64_at(body, 0),
    })
}

pub(crate) fn fallocate_in(body: &[u8]) -> Option<FallocateIn>
    ensures { result ≡ fallocate_in body.now }
{
    if body.len() < 32 {
        return None;
    }
    Some(FallocateIn {
        fh: u64_at(body, 0),
        offset: u64_at(body, 8),
        length: u64_at(body, 16),
        mode: u32_at(body, 24),
    })
}
