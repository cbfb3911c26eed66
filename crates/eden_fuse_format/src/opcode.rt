ghost use Rattle.std.specs.Prelude.{◌≡◌, ◌≢◌, MatchOption};
ghost use Rattle.eden_fuse_format.specs.Opcodes.{number_of};
ghost use Rattle.eden_fuse_format.specs.declared.opcode.Opcode.{Opcode};

/// The operations that a message may ask for. Each has the kernel's number.
#[derive(Clone, Copy)]
pub enum Opcode {
    Lookup = 1,
    Forget = 2,
    GetAttr = 3,
    SetAttr = 4,
    ReadLink = 5,
    Symlink = 6,
    MkNod = 8,
    MkDir = 9,
    Unlink = 10,
    RmDir = 11,
    Rename = 12,
    Link = 13,
    Open = 14,
    Read = 15,
    Write = 16,
    StatFs = 17,
    Release = 18,
    FSync = 20,
    Flush = 25,
    Init = 26,
    OpenDir = 27,
    ReadDir = 28,
    ReleaseDir = 29,
    FSyncDir = 30,
    Access = 34,
    Create = 35,
    Interrupt = 36,
    Destroy = 38,
    BatchForget = 42,
    Fallocate = 43,
    ReadDirPlus = 44,
    Rename2 = 45,
}

/// The operation of this number, if it is known.
pub fn read_opcode(number: u32) -> Option<Opcode>
    ensures { MatchOption result ((o : Opcode) → number ≢ number_of o) (λ o. number ≡ number_of o) }
{
    Some(match number {
        1 => Opcode::Lookup,
        2 => Opcode::Forget,
        3 => Opcode::GetAttr,
        4 => Opcode::SetAttr,
        5 => Opcode::ReadLink,
        6 => Opcode::Symlink,
        8 => Opcode::MkNod,
        9 => Opcode::MkDir,
        10 => Opcode::Unlink,
        11 => Opcode::RmDir,
        12 => Opcode::Rename,
        13 => Opcode::Link,
        14 => Opcode::Open,
        15 => Opcode::Read,
        16 => Opcode::Write,
        17 => Opcode::StatFs,
        18 => Opcode::Release,
        20 => Opcode::FSync,
        25 => Opcode::Flush,
        26 => Opcode::Init,
        27 => Opcode::OpenDir,
        28 => Opcode::ReadDir,
        29 => Opcode::ReleaseDir,
        30 => Opcode::FSyncDir,
        34 => Opcode::Access,
        35 => Opcode::Create,
        36 => Opcode::Interrupt,
        38 => Opcode::Destroy,
        42 => Opcode::BatchForget,
        43 => Opcode::Fallocate,
        44 => Opcode::ReadDirPlus,
        45 => Opcode::Rename2,
        _ => return None,
    })
}
