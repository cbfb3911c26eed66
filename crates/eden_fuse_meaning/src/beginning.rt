ghost use Rattle.std.specs.Prelude.{◌≡◌, IfOk, false, if◌then◌else◌};
ghost use Rattle.eden_model.specs.declared.request.Request.TheVariants as ask;
ghost use Rattle.eden_model.specs.Limits.{most_entries};
ghost use Rattle.eden_fuse_format.specs.Asked.{seen};
ghost use Rattle.eden_fuse_meaning.specs.declared.step.Then.TheVariants as after;
ghost use Rattle.eden_fuse_meaning.specs.declared.step.Step.TheVariants.{Ask};
ghost use Rattle.eden_fuse_meaning.specs.Steps.{
  first,
  gives_away,
  is_exec,
  is_exclusive,
  makes_file,
  moves,
  on_child,
  on_listed,
  on_path,
  refuse,
  renames,
  reserve,
  set_mode,
  set_size,
  show,
  unlisted,
};

use crate::paths::{ESTALE, child_at, path_at};
use crate::step::{Outcome, Owner, Step, Then};
use eden_fuse_format::{CreateIn, FallocateIn, MkNodIn, Operation, ReadIn, SetAttrIn, WriteIn};
use eden_model::{Bytes, MAX_ENTRIES, MAX_FILE, Name, Path, Request, SharedBytes};
use std::alloc::{AllocError, Global};

const EPERM: u32 = 1;

const EINVAL: u32 = 22;

const EFBIG: u32 = 27;

const ENOSYS: u32 = 38;

const EOPNOTSUPP: u32 = 95;

pub(crate) fn refuse(errno: u32) -> Step
    ensures { result ≡ refuse errno }
{
    Step::Tell(Outcome::Refused(errno))
}

fn gives_away(owner: Owner, setting: &SetAttrIn) -> bool
    ensures { result ≡ gives_away owner setting.now }
{
    (setting.valid & 2 != 0 && setting.uid != owner.uid)
        || (setting.valid & 4 != 0 && setting.gid != owner.gid)
}

fn makes_file(mode: u32) -> bool
    ensures { result ≡ makes_file mode }
{
    mode & 61440 == 32768 || mode & 61440 == 0
}

pub(crate) fn set_mode(path: Path, setting: &SetAttrIn, alloc: Global) -> Result<Step, AllocError>
    ensures { IfOk result (λ s. s ≡ set_mode path setting.now) }
{
    if setting.valid & 1 == 0 || setting.mode & 61440 != 32768 {
        return Ok(Step::Ask(Request::Stat(path), Then::Show));
    }
    let same = path.copy(alloc)?;
    Ok(Step::Ask(
        Request::SetExec(path, setting.mode & 64 != 0),
        Then::Set(same),
    ))
}

fn set_size(path: Path, setting: &SetAttrIn, alloc: Global) -> Result<Step, AllocError>
    ensures { IfOk result (λ s. s ≡ set_size path setting.now) }
{
    if setting.valid & 8 == 0 {
        return set_mode(path, setting, alloc);
    }
    let same = path.copy(alloc)?;
    Ok(Step::Ask(
        Request::Truncate(path, setting.size),
        Then::Cut(same, *setting),
    ))
}

fn set_attributes(
    alloc: Global,
    owner: Owner,
    at: &Result<Path, u32>,
    setting: &SetAttrIn,
) -> Result<Step, AllocError>
    ensures { IfOk result (λ s. s ≡ on_path at.now
        (λ p. if gives_away owner setting.now then refuse 1 else set_size p setting.now)) }
{
    match path_at(alloc, at)? {
        Err(errno) => Ok(refuse(errno)),
        Ok(path) => {
            if gives_away(owner, setting) {
                return Ok(refuse(EPERM));
            }
            set_size(path, setting, alloc)
        }
    }
}

fn look_up(alloc: Global, at: &Result<Path, u32>, name: &[u8]) -> Result<Step, AllocError>
    ensures { IfOk result (λ s. s ≡ on_child at.now name.now (λ p. Ask (ask.Stat p) after.Look)) }
{
    match child_at(alloc, at, name)? {
        Err(errno) => Ok(refuse(errno)),
        Ok(path) => Ok(Step::Ask(Request::Stat(path), Then::Look)),
    }
}

fn get_attributes(alloc: Global, at: &Result<Path, u32>) -> Result<Step, AllocError>
    ensures { IfOk result (λ s. s ≡ on_path at.now show) }
{
    match path_at(alloc, at)? {
        Err(errno) => Ok(refuse(errno)),
        Ok(path) => Ok(Step::Ask(Request::Stat(path), Then::Show)),
    }
}

fn read_link(alloc: Global, at: &Result<Path, u32>) -> Result<Step, AllocError>
    ensures { IfOk result (λ s. s ≡ on_path at.now (λ p. Ask (ask.ReadLink p) after.Give)) }
{
    match path_at(alloc, at)? {
        Err(errno) => Ok(refuse(errno)),
        Ok(path) => Ok(Step::Ask(Request::ReadLink(path), Then::Give)),
    }
}

fn symlink(
    alloc: Global,
    at: &Result<Path, u32>,
    name: &[u8],
    target: &[u8],
) -> Result<Step, AllocError>
    ensures { IfOk result (λ s. s ≡ on_child at.now name.now
        (λ p. Ask (ask.Symlink p target.now) (after.Make p false))) }
{
    match child_at(alloc, at, name)? {
        Err(errno) => Ok(refuse(errno)),
        Ok(path) => {
            let same = path.copy(alloc)?;
            let target = Bytes::new(Vec::from_slice(alloc, target)?);
            Ok(Step::Ask(Request::Symlink(path, target), Then::Make(same, false)))
        }
    }
}

fn make_node(
    alloc: Global,
    at: &Result<Path, u32>,
    name: &[u8],
    node: &MkNodIn,
) -> Result<Step, AllocError>
    ensures { IfOk result (λ s. s ≡ on_child at.now name.now (λ p.
        if makes_file node.now.mode then Ask (ask.Create p) (after.Make p (is_exec node.now.mode)) else refuse 1)) }
{
    match child_at(alloc, at, name)? {
        Err(errno) => Ok(refuse(errno)),
        Ok(path) => {
            if !makes_file(node.mode) {
                return Ok(refuse(EPERM));
            }
            let same = path.copy(alloc)?;
            Ok(Step::Ask(Request::Create(path), Then::Make(same, node.mode & 64 != 0)))
        }
    }
}

fn make_directory(alloc: Global, at: &Result<Path, u32>, name: &[u8]) -> Result<Step, AllocError>
    ensures { IfOk result (λ s. s ≡ on_child at.now name.now (λ p. Ask (ask.Mkdir p) (after.Make p false))) }
{
    match child_at(alloc, at, name)? {
        Err(errno) => Ok(refuse(errno)),
        Ok(path) => {
            let same = path.copy(alloc)?;
            Ok(Step::Ask(Request::Mkdir(path), Then::Make(same, false)))
        }
    }
}

fn unlink(alloc: Global, at: &Result<Path, u32>, name: &[u8]) -> Result<Step, AllocError>
    ensures { IfOk result (λ s. s ≡ on_child at.now name.now (λ p. Ask (ask.Unlink p) after.Finish)) }
{
    match child_at(alloc, at, name)? {
        Err(errno) => Ok(refuse(errno)),
        Ok(path) => Ok(Step::Ask(Request::Unlink(path), Then::Finish)),
    }
}

fn remove_directory(alloc: Global, at: &Result<Path, u32>, name: &[u8]) -> Result<Step, AllocError>
    ensures { IfOk result (λ s. s ≡ on_child at.now name.now (λ p. Ask (ask.Rmdir p) after.Finish)) }
{
    match child_at(alloc, at, name)? {
        Err(errno) => Ok(refuse(errno)),
        Ok(path) => Ok(Step::Ask(Request::Rmdir(path), Then::Finish)),
    }
}

fn move_to(alloc: Global, flags: u32, from: Path, to: Path) -> Result<Step, AllocError>
    ensures { IfOk result (λ s. s ≡ renames flags from to) }
{
    match flags {
        0 => Ok(Step::Ask(Request::Rename(from, to), Then::Finish)),
        1 => {
            let same = to.copy(alloc)?;
            Ok(Step::Ask(Request::Kind(same), Then::Free(from, to)))
        }
        _ => Ok(refuse(EINVAL)),
    }
}

fn rename(
    alloc: Global,
    at: &Result<Path, u32>,
    to: &Result<Path, u32>,
    name: &[u8],
    new_name: &[u8],
    flags: u32,
) -> Result<Step, AllocError>
    ensures { IfOk result (λ s. s ≡ moves at.now to.now name.now new_name.now (renames flags)) }
{
    let from = match child_at(alloc, at, name)? {
        Err(errno) => return Ok(refuse(errno)),
        Ok(from) => from,
    };
    match child_at(alloc, to, new_name)? {
        Err(errno) => Ok(refuse(errno)),
        Ok(to) => move_to(alloc, flags, from, to),
    }
}

fn open_file(alloc: Global, at: &Result<Path, u32>) -> Result<Step, AllocError>
    ensures { IfOk result (λ s. s ≡ on_path at.now (λ p. Ask (ask.Kind p) after.OpenFile)) }
{
    match path_at(alloc, at)? {
        Err(errno) => Ok(refuse(errno)),
        Ok(path) => Ok(Step::Ask(Request::Kind(path), Then::OpenFile)),
    }
}

fn open_directory(alloc: Global, at: &Result<Path, u32>) -> Result<Step, AllocError>
    ensures { IfOk result (λ s. s ≡ on_path at.now (λ p. Ask (ask.Kind p) after.OpenDir)) }
{
    match path_at(alloc, at)? {
        Err(errno) => Ok(refuse(errno)),
        Ok(path) => Ok(Step::Ask(Request::Kind(path), Then::OpenDir)),
    }
}

fn read(alloc: Global, at: &Result<Path, u32>, asked: &ReadIn) -> Result<Step, AllocError>
    ensures { IfOk result (λ s. s ≡ on_path at.now
        (λ p. Ask (ask.Read p asked.now.offset asked.now.size) after.Give)) }
{
    match path_at(alloc, at)? {
        Err(errno) => Ok(refuse(errno)),
        Ok(path) => {
            let request = Request::Read(path, asked.offset, u64::from(asked.size));
            Ok(Step::Ask(request, Then::Give))
        }
    }
}

fn write(
    alloc: Global,
    at: &Result<Path, u32>,
    asked: &WriteIn,
    bytes: &[u8],
) -> Result<Step, AllocError>
    ensures { IfOk result (λ s. s ≡ on_path at.now
        (λ p. Ask (ask.Patch p asked.now.offset bytes.now) after.Count)) }
{
    match path_at(alloc, at)? {
        Err(errno) => Ok(refuse(errno)),
        Ok(path) => {
            let bytes = SharedBytes::new(alloc, Vec::from_slice(alloc, bytes)?)?;
            Ok(Step::Ask(Request::Patch(path, asked.offset, bytes), Then::Count))
        }
    }
}

// What is told of a directory without a path: one that was removed has come to its end.
fn unlisted(errno: u32) -> Step
    ensures { result ≡ unlisted errno }
{
    if errno == ESTALE {
        return Step::Tell(Outcome::Done);
    }
    refuse(errno)
}

fn read_directory(
    alloc: Global,
    at: &Result<Path, u32>,
    last: &Option<Name>,
) -> Result<Step, AllocError>
    ensures { IfOk result (λ s. s ≡ on_listed at.now (λ p. Ask (ask.List p last.now most_entries) after.List)) }
{
    match path_at(alloc, at)? {
        Err(errno) => Ok(unlisted(errno)),
        Ok(path) => {
            let after = match last {
                None => None,
                Some(name) => Some(name.copy(alloc)?),
            };
            Ok(Step::Ask(Request::List(path, after, MAX_ENTRIES), Then::List))
        }
    }
}

fn create(
    alloc: Global,
    at: &Result<Path, u32>,
    name: &[u8],
    file: &CreateIn,
) -> Result<Step, AllocError>
    ensures { IfOk result (λ s. s ≡ on_child at.now name.now (λ p.
        Ask (ask.Create p) (after.Create p (is_exec file.now.mode) (is_exclusive file.now.flags)))) }
{
    match child_at(alloc, at, name)? {
        Err(errno) => Ok(refuse(errno)),
        Ok(path) => {
            let same = path.copy(alloc)?;
            let then = Then::Create(same, file.mode & 64 != 0, file.flags & 128 != 0);
            Ok(Step::Ask(Request::Create(path), then))
        }
    }
}

fn make_room(alloc: Global, at: &Result<Path, u32>, room: &FallocateIn) -> Result<Step, AllocError>
    ensures { IfOk result (λ s. s ≡ on_path at.now (reserve room.now)) }
{
    let path = match path_at(alloc, at)? {
        Err(errno) => return Ok(refuse(errno)),
        Ok(path) => path,
    };
    if room.mode != 0 {
        return Ok(refuse(EOPNOTSUPP));
    }
    if room.offset > MAX_FILE || room.length > MAX_FILE - room.offset {
        return Ok(refuse(EFBIG));
    }
    let same = path.copy(alloc)?;
    let then = Then::Reach(same, room.offset + room.length);
    Ok(Step::Ask(Request::Stat(path), then))
}

/// What a message begins with. `at` is the path of its node, and `to` that of the other directory of a rename, or the
/// error's number if no request can name it; `last` is the name after which a directory is read on. The only error is
/// want of memory.
pub fn first(
    alloc: Global,
    owner: Owner,
    at: &Result<Path, u32>,
    to: &Result<Path, u32>,
    last: &Option<Name>,
    operation: &Operation<'_>,
) -> Result<Step, AllocError>
    ensures { IfOk result (λ s. s ≡ first owner at.now to.now last.now (seen operation.now)) }
{
    match operation {
        Operation::Lookup(name) => look_up(alloc, at, name),
        Operation::GetAttr(_) => get_attributes(alloc, at),
        Operation::SetAttr(setting) => set_attributes(alloc, owner, at, setting),
        Operation::ReadLink => read_link(alloc, at),
        Operation::Symlink(name, target) => symlink(alloc, at, name, target),
        Operation::MkNod(node, name) => make_node(alloc, at, name, node),
        Operation::MkDir(_, name) => make_directory(alloc, at, name),
        Operation::Unlink(name) => unlink(alloc, at, name),
        Operation::RmDir(name) => remove_directory(alloc, at, name),
        Operation::Rename(_, name, new) => rename(alloc, at, to, name, new, 0),
        Operation::Rename2(head, name, new) => rename(alloc, at, to, name, new, head.flags),
        Operation::Open(_) => open_file(alloc, at),
        Operation::OpenDir(_) => open_directory(alloc, at),
        Operation::Read(asked) => read(alloc, at, asked),
        Operation::Write(asked, bytes) => write(alloc, at, asked, bytes),
        Operation::ReadDir(_) => read_directory(alloc, at, last),
        Operation::Create(file, name) => create(alloc, at, name, file),
        Operation::Fallocate(room) => make_room(alloc, at, room),
        Operation::Forget(_) | Operation::BatchForget(_) | Operation::Interrupt(_) => {
            Ok(Step::Tell(Outcome::Silent))
        }
        Operation::Link(_, _) => Ok(refuse(EPERM)),
        Operation::Access(_) | Operation::ReadDirPlus(_) => Ok(refuse(ENOSYS)),
        Operation::StatFs => Ok(Step::Tell(Outcome::Space)),
        Operation::Init(_) => Ok(Step::Tell(Outcome::Started)),
        Operation::Release(_)
        | Operation::FSync(_)
        | Operation::Flush(_)
        | Operation::ReleaseDir(_)
        | Operation::FSyncDir(_)
        | Operation::Destroy => Ok(Step::Tell(Outcome::Done)),
    }
}
