ghost use Rattle.std.specs.Prelude.{◌≡◌, IfOk, if◌then◌else◌};
ghost use Rattle.eden_model.specs.Faults.{errno_number};
ghost use Rattle.eden_model.specs.declared.errno.Errno.TheVariants as errno;
ghost use Rattle.eden_model.specs.declared.request.Request.TheVariants as ask;
ghost use Rattle.eden_fuse_meaning.specs.declared.step.Outcome.TheVariants.{Absent, Attributes, Done, Found};
ghost use Rattle.eden_fuse_meaning.specs.declared.step.Step.TheVariants.{Ask, Tell};
ghost use Rattle.eden_fuse_meaning.specs.declared.step.Then.TheVariants as after;
ghost use Rattle.eden_fuse_meaning.specs.Steps.{
  count,
  give,
  mark,
  next,
  on_kind,
  on_ok,
  on_stat,
  open_dir,
  open_file,
  open_made,
  or_if,
  lengthen,
  refuse,
  refused,
  rows,
  set_mode,
  show,
};

use crate::beginning::{refuse, set_mode};
use crate::step::{Outcome, Step, Then};
use eden_fuse_format::SetAttrIn;
use eden_model::{Errno, Kind, Path, Reply, Request};
use std::alloc::{AllocError, Global};

const EIO: u32 = 5;

const EEXIST: u32 = 17;

const ENOTDIR: u32 = 20;

const EISDIR: u32 = 21;

const ELOOP: u32 = 40;

// A reply that the request can't have, or a refusal.
fn refused(reply: &Reply) -> Step
    ensures { result ≡ refused reply.now }
{
    match reply {
        Reply::Err(errno) => refuse(u32::from(errno.number())),
        _ => refuse(EIO),
    }
}

fn look(reply: &Reply) -> Step
    ensures { result ≡ or_if errno.ENOENT (Tell Absent) (on_stat (λ k n i. Tell (Found k n i))) reply.now }
{
    match reply {
        Reply::Stat(kind, size, inode) => Step::Tell(Outcome::Found(*kind, *size, *inode)),
        Reply::Err(Errno::ENOENT) => Step::Tell(Outcome::Absent),
        _ => refused(reply),
    }
}

fn show(reply: &Reply) -> Step
    ensures { result ≡ on_stat (λ k n i. Tell (Attributes k n i)) reply.now }
{
    match reply {
        Reply::Stat(kind, size, inode) => Step::Tell(Outcome::Attributes(*kind, *size, *inode)),
        _ => refused(reply),
    }
}

fn enter(reply: &Reply) -> Step
    ensures { result ≡ on_stat (λ k n i. Tell (Found k n i)) reply.now }
{
    match reply {
        Reply::Stat(kind, size, inode) => Step::Tell(Outcome::Found(*kind, *size, *inode)),
        _ => refused(reply),
    }
}

fn open_made(reply: &Reply) -> Step
    ensures { result ≡ on_stat open_made reply.now }
{
    match reply {
        Reply::Stat(Kind::Link, _, _) => refuse(ELOOP),
        Reply::Stat(Kind::Dir, _, _) => refuse(EISDIR),
        Reply::Stat(kind, size, inode) => Step::Tell(Outcome::Made(*kind, *size, *inode)),
        _ => refused(reply),
    }
}

fn open_file(reply: &Reply) -> Step
    ensures { result ≡ on_kind open_file reply.now }
{
    match reply {
        Reply::Kind(Kind::Link) => refuse(ELOOP),
        Reply::Kind(Kind::Dir) => refuse(EISDIR),
        Reply::Kind(_) => Step::Tell(Outcome::Opened),
        _ => refused(reply),
    }
}

fn open_directory(reply: &Reply) -> Step
    ensures { result ≡ on_kind open_dir reply.now }
{
    match reply {
        Reply::Kind(Kind::Dir) => Step::Tell(Outcome::Opened),
        Reply::Kind(_) => refuse(ENOTDIR),
        _ => refused(reply),
    }
}

// What was made is made executable, or is looked at.
fn mark(alloc: Global, path: Path, exec: bool, to_be_opened: bool) -> Result<Step, AllocError>
    ensures { IfOk result (λ s. s ≡ (if to_be_opened then mark path exec (after.MarkOpened path) after.Open
        else mark path exec (after.Mark path) after.Enter)) }
{
    if !exec {
        let then = if to_be_opened {
            Then::Open
        } else {
            Then::Enter
        };
        return Ok(Step::Ask(Request::Stat(path), then));
    }
    let same = path.copy(alloc)?;
    let then = if to_be_opened {
        Then::MarkOpened(same)
    } else {
        Then::Mark(same)
    };
    Ok(Step::Ask(Request::SetExec(path, true), then))
}

fn made(alloc: Global, path: Path, exec: bool, reply: &Reply) -> Result<Step, AllocError>
    ensures { IfOk result (λ s. s ≡ on_ok (mark path exec (after.Mark path) after.Enter) reply.now) }
{
    match reply {
        Reply::Ok => mark(alloc, path, exec, false),
        _ => Ok(refused(reply)),
    }
}

fn created(
    alloc: Global,
    path: Path,
    exec: bool,
    exclusive: bool,
    reply: &Reply,
) -> Result<Step, AllocError>
    ensures { IfOk result (λ s. s ≡ or_if errno.EEXIST
        (if exclusive then refuse 17 else Ask (ask.Stat path) after.Open)
        (on_ok (mark path exec (after.MarkOpened path) after.Open)) reply.now) }
{
    match reply {
        Reply::Ok => mark(alloc, path, exec, true),
        Reply::Err(Errno::EEXIST) => {
            if exclusive {
                return Ok(refuse(EEXIST));
            }
            Ok(Step::Ask(Request::Stat(path), Then::Open))
        }
        _ => Ok(refused(reply)),
    }
}

// Looks at what was changed.
fn look_again(path: Path, seen: Then, reply: &Reply) -> Step
    ensures { result ≡ on_ok (Ask (ask.Stat path) seen) reply.now }
{
    match reply {
        Reply::Ok => Step::Ask(Request::Stat(path), seen),
        _ => refused(reply),
    }
}

fn cut(alloc: Global, path: Path, setting: &SetAttrIn, reply: &Reply) -> Result<Step, AllocError>
    ensures { IfOk result (λ s. s ≡ on_ok (set_mode path setting.now) reply.now) }
{
    match reply {
        Reply::Ok => set_mode(path, setting, alloc),
        _ => Ok(refused(reply)),
    }
}

fn move_if_free(from: Path, to: Path, reply: &Reply) -> Step
    ensures { result ≡ or_if errno.ENOENT (Ask (ask.Rename from to) after.Finish) (on_kind (λ k. refuse 17)) reply.now }
{
    match reply {
        Reply::Err(Errno::ENOENT) => Step::Ask(Request::Rename(from, to), Then::Finish),
        Reply::Kind(_) => refuse(EEXIST),
        _ => refused(reply),
    }
}

fn finish(reply: &Reply) -> Step
    ensures { result ≡ on_ok (Tell Done) reply.now }
{
    match reply {
        Reply::Ok => Step::Tell(Outcome::Done),
        _ => refused(reply),
    }
}

fn count(reply: &Reply) -> Step
    ensures { result ≡ count reply.now }
{
    match reply {
        Reply::Count(count) => Step::Tell(Outcome::Written(*count)),
        _ => refused(reply),
    }
}

fn give(reply: Reply) -> Step
    ensures { result ≡ give reply }
{
    match reply {
        Reply::Data(bytes) => Step::Tell(Outcome::Bytes(bytes)),
        other => refused(&other),
    }
}

fn rows(reply: Reply) -> Step
    ensures { result ≡ rows reply }
{
    match reply {
        Reply::Entries(entries, more) => Step::Tell(Outcome::Rows(entries, more)),
        other => refused(&other),
    }
}

fn reach(path: Path, end: u64, reply: &Reply) -> Step
    ensures { result ≡ on_stat (λ k n i. lengthen path end n) reply.now }
{
    match reply {
        Reply::Stat(_, size, _) => {
            if *size < end {
                Step::Ask(Request::Truncate(path, end), Then::Finish)
            } else {
                Step::Tell(Outcome::Done)
            }
        }
        _ => refused(reply),
    }
}

/// What is made of a reply. The only error is want of memory.
pub fn next(alloc: Global, awaited: Then, reply: Reply) -> Result<Step, AllocError>
    ensures { IfOk result (λ s. s ≡ next awaited reply) }
{
    Ok(match awaited {
        Then::Look => look(&reply),
        Then::Show => show(&reply),
        Then::Enter => enter(&reply),
        Then::Open => open_made(&reply),
        Then::Cut(path, setting) => cut(alloc, path, &setting, &reply)?,
        Then::Set(path) => look_again(path, Then::Show, &reply),
        Then::Make(path, exec) => made(alloc, path, exec, &reply)?,
        Then::Mark(path) => look_again(path, Then::Enter, &reply),
        Then::Create(path, exec, exclusive) => created(alloc, path, exec, exclusive, &reply)?,
        Then::MarkOpened(path) => look_again(path, Then::Open, &reply),
        Then::Give => give(reply),
        Then::Count => count(&reply),
        Then::List => rows(reply),
        Then::OpenFile => open_file(&reply),
        Then::OpenDir => open_directory(&reply),
        Then::Free(from, to) => move_if_free(from, to, &reply),
        Then::Reach(path, end) => reach(path, end, &reply),
        Then::Finish => finish(&reply),
    })
}
