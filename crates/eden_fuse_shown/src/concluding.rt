// What is answered once it is known what a message came to.
ghost use Rattle.std.specs.Prelude.{◌≡◌, ◌⊎◌, ℕ, IfOk, List, true};
ghost use Rattle.eden_fuse_format.specs.declared.answer.Answer.TheVariants as answer;
ghost use Rattle.eden_fuse_format.specs.Answers.{IsBrief};
ghost use Rattle.eden_fuse_format.specs.Asked.{seen};
ghost use Rattle.eden_fuse_nodes.specs.Tables.{IsSameNodes};
ghost use Rattle.eden_fuse_session.specs.Turns.{IsBriefly, told};
ghost use Rattle.eden_fuse_shown.specs.Attributes.{entry_of, open_file};
ghost use Rattle.eden_fuse_shown.specs.Naming.{goal_of, named_place};
ghost use Rattle.eden_fuse_shown.specs.Opens.{IsSameOpens};
ghost use Rattle.eden_fuse_shown.specs.Showing.{
  Concludes,
  Enters,
  EntersOpen,
  IsListed,
  IsOpened,
  ListsRows,
  Shuts,
  count,
  errno_of,
  failed,
  flags_of,
  give,
  refuse,
  rows_told,
  say,
  seen_bytes,
  start,
  synced,
};
ghost use Rattle.eden_fuse_shown.specs.Waiting.{extent_of};

use crate::attributes::{attributes_of, entry_of, open_directory, open_file, started};
use crate::changing::{change, enter, enter_open};
use crate::extents::Extents;
use crate::listing::{entries_from, put_listing};
use crate::manner::Manner;
use crate::mount::Unheard;
use crate::opens::Opens;
use crate::pages::{Page, Pages};
use crate::times::Times;
use eden_fuse_format::{Answer, Operation, ReadIn, Time};
use eden_fuse_meaning::Outcome;
use eden_fuse_nodes::{Nodes, Place};
use eden_fuse_session::Said;
use eden_model::{Bytes, Entries, Kind, Name};
use std::alloc::{AllocError, Global};

const EIO: u32 = 5;

const ENOMEM: u32 = 12;

/// The most entries that may come before a page.
const MOST_BEFORE: u64 = 1 << 62;

pub(crate) fn refuse(errno: u32) -> Said
    ensures told { (bytes : List ℕ) → told result bytes ≡ refuse errno }
    ensures brief { (bytes : List ℕ) → IsBriefly result bytes }
{
    Said::Answers(Answer::Refused(errno))
}

/// Whether an error is told.
pub(crate) fn failed(said: &Said) -> bool
    ensures { (bytes : List ℕ) → failed (told said.now bytes) ≡ result }
{
    match said {
        Said::Answers(Answer::Refused(errno)) => *errno != 0,
        _ => false,
    }
}

/// What is answered once the mount waited for the disk; an error where that failed.
pub(crate) fn synced(went: bool) -> Said
    ensures told { (bytes : List ℕ) → told result bytes ≡ synced went }
    ensures brief { (bytes : List ℕ) → IsBriefly result bytes }
{
    if went {
        Said::Answers(Answer::Done)
    } else {
        refuse(EIO)
    }
}

pub(crate) fn errno_of(why: Unheard) -> u32
    ensures { result ≡ errno_of why }
{
    match why {
        Unheard::Fault(_) => EIO,
        Unheard::Blocked(obstacle) => obstacle.number(),
        Unheard::Memory => ENOMEM,
    }
}

// When the node was made that a message found: now, but for one that was looked up.
fn fresh(operation: &Operation<'_>, now: Time) -> Option<Time> {
    match operation {
        Operation::Lookup(_) => None,
        _ => Some(now),
    }
}

// The node at the place is found.
fn found(
    alloc: Global,
    manner: Manner,
    nodes: &mut Nodes,
    times: &mut Times,
    waits: &Extents,
    fresh: Option<Time>,
    place: Option<Place>,
    kind: Kind,
    size: u64,
    inode: u64,
) -> Answer<'static>
    ensures enters { Enters place (λ id at. answer.Entry (entry_of manner waits.now id inode at kind size))
        nodes.old nodes.new (say result) }
    ensures brief { IsBrief result }
{
    match enter(alloc, nodes, place) {
        Err(errno) => Answer::Refused(errno),
        Ok(id) => {
            if let Some(now) = fresh {
                times.change(id, now);
            }
            Answer::Entry(entry_of(manner, waits, id, inode, times.of(id, inode), kind, size))
        }
    }
}

/// How a message opens a file.
fn flags_of(operation: &Operation<'_>) -> u32
    ensures { result ≡ flags_of (seen operation.now) }
{
    match operation {
        Operation::Open(open) => open.flags,
        Operation::Create(create, _) => create.flags,
        _ => 0,
    }
}

// The file at the place was made, and is open.
fn made(
    alloc: Global,
    manner: Manner,
    nodes: &mut Nodes,
    opens: &mut Opens,
    times: &mut Times,
    waits: &Extents,
    now: Time,
    operation: &Operation<'_>,
    place: Option<Place>,
    kind: Kind,
    size: u64,
    inode: u64,
) -> Answer<'static>
    ensures enters { EntersOpen place (λ id at. answer.Created (entry_of manner waits.now id inode at kind size)
        (open_file (flags_of (seen operation.now))))
        nodes.old nodes.new opens.old opens.new (say result) }
    ensures brief { IsBrief result }
{
    match enter_open(alloc, nodes, opens, place) {
        Err(errno) => Answer::Refused(errno),
        Ok(id) => {
            if let Some(now) = fresh(operation, now) {
                times.change(id, now);
            }
            Answer::Created(
                entry_of(manner, waits, id, inode, times.of(id, inode), kind, size),
                open_file(flags_of(operation)),
            )
        }
    }
}

// A file or a directory is opened.
fn open(
    alloc: Global,
    pages: &mut Pages,
    opens: &mut Opens,
    node: u64,
    operation: &Operation<'_>,
) -> Answer<'static>
    ensures opened { IsOpened node (seen operation.now) pages.old pages.new opens.old opens.new (say result) }
    ensures brief { IsBrief result }
{
    match operation {
        Operation::OpenDir(_) => match pages.open(alloc) {
            Ok(handle) => Answer::Opened(open_directory(handle)),
            Err(_) => Answer::Refused(ENOMEM),
        },
        _ => match opens.raise(node) {
            Ok(()) => Answer::Opened(open_file(flags_of(operation))),
            Err(_) => Answer::Refused(ENOMEM),
        },
    }
}

fn shut(pages: &mut Pages, operation: &Operation<'_>)
    ensures { Shuts (seen operation.now) pages.old pages.new }
{
    match operation {
        Operation::ReleaseDir(release) => pages.close(release.fh),
        _ => {}
    }
}

fn start(operation: &Operation<'_>) -> Answer<'static>
    ensures told { say result ≡ start (seen operation.now) }
    ensures brief { IsBrief result }
{
    match operation {
        Operation::Init(init) => started(init),
        _ => Answer::Refused(EIO),
    }
}

/// So many bytes were written.
pub(crate) fn count(written: u64) -> Answer<'static>
    ensures told { say result ≡ count written }
    ensures brief { IsBrief result }
{
    if written < 1 << 32 {
        Answer::Written(written as u32)
    } else {
        Answer::Refused(EIO)
    }
}

// Bytes are left in the room.
fn give(bytes: Vec<u8>, room: &mut Vec<u8>) -> Said
    ensures told { told result room.new.items ≡ give bytes.items }
    ensures brief { IsBriefly result room.new.items }
{
    if bytes.len() >= 1 << 31 {
        return Said::Answers(Answer::Refused(EIO));
    }
    *room = bytes;
    Said::Data
}

// What is seen of the bytes that the mount told is left there.
fn give_seen(
    alloc: Global,
    waits: &Extents,
    node: u64,
    operation: &Operation<'_>,
    bytes: Bytes,
    room: &mut Vec<u8>,
) -> Said
    ensures told { (told result room.new.items
        ≡ give (seen_bytes (seen operation.now) (extent_of waits.now node) bytes))
        ⊎ (told result room.new.items ≡ refuse 12) }
    ensures brief { IsBriefly result room.new.items }
{
    match seen_bytes(alloc, waits, node, operation, bytes.into_vec()) {
        Ok(bytes) => give(bytes, room),
        Err(_) => refuse(ENOMEM),
    }
}

fn seen_bytes(
    alloc: Global,
    waits: &Extents,
    node: u64,
    operation: &Operation<'_>,
    bytes: Vec<u8>,
) -> Result<Vec<u8>, AllocError>
    ensures { IfOk result (λ v. v.items ≡ seen_bytes (seen operation.now) (extent_of waits.now node) bytes.items) }
{
    match operation {
        Operation::Read(read) => {
            waits.seen_part(alloc, node, read.offset, u64::from(read.size), bytes)
        }
        _ => Ok(bytes),
    }
}

/// Tells entries of an open directory.
pub(crate) fn tell_rows(node: u64, read: &ReadIn, rows: &[(Name, Kind)], room: &mut Vec<u8>) -> Said
    ensures told { (told result room.new.items ≡ rows_told node read.now rows.now)
        ⊎ (told result room.new.items ≡ refuse 12) }
    ensures brief { IsBriefly result room.new.items }
{
    if lay_out(node, read, rows, room) {
        Said::Data
    } else {
        refuse(ENOMEM)
    }
}

// Leaves the rows in the room; false if there is no memory for them.
fn lay_out(node: u64, read: &ReadIn, rows: &[(Name, Kind)], room: &mut Vec<u8>) -> bool
    ensures told { result ≡ true → told Said.Data room.new.items ≡ rows_told node read.now rows.now }
    ensures brief { result ≡ true → IsBriefly Said.Data room.new.items }
{
    room.clear();
    if read.offset >= MOST_BEFORE || rows.len() as u64 >= MOST_BEFORE {
        return false;
    }
    put_listing(node, room, read.size as usize, read.offset, rows).is_ok() && room.len() < 1 << 31
}

// Entries of an open directory were listed, and become its page.
fn list_from(
    pages: &mut Pages,
    node: u64,
    read: &ReadIn,
    last: Option<Name>,
    rows: Entries,
    more: bool,
    room: &mut Vec<u8>,
) -> Said
    ensures listed { ListsRows node read.now last rows more pages.old pages.new (told result room.new.items) }
    ensures brief { IsBriefly result room.new.items }
{
    if !lay_out(node, read, rows.as_slice(), room) {
        return refuse(ENOMEM);
    }
    let page = Page {
        from: entries_from(read.offset),
        before: last,
        rows,
        more,
    };
    pages.turn(read.fh, page);
    Said::Data
}

fn list(
    pages: &mut Pages,
    node: u64,
    operation: &Operation<'_>,
    last: Option<Name>,
    rows: Entries,
    more: bool,
    room: &mut Vec<u8>,
) -> Said
    ensures listed { IsListed node (seen operation.now) last rows more pages.old pages.new
        (told result room.new.items) }
    ensures brief { IsBriefly result room.new.items }
{
    match operation {
        Operation::ReadDir(read) => list_from(pages, node, read, last, rows, more, room),
        _ => refuse(EIO),
    }
}

/// What is answered to a message that came to that end. What the answer has of bytes is left in the room.
pub(crate) fn conclude(
    alloc: Global,
    manner: Manner,
    nodes: &mut Nodes,
    pages: &mut Pages,
    opens: &mut Opens,
    times: &mut Times,
    waits: &Extents,
    now: Time,
    node: u64,
    operation: &Operation<'_>,
    place: Option<Place>,
    goal: Option<Place>,
    last: Option<Name>,
    end: Result<Outcome, Unheard>,
    room: &mut Vec<u8>,
) -> Said
    requires place { place ≡ named_place node (seen operation.now) }
    requires goal { goal ≡ goal_of (seen operation.now) }
    ensures concludes { Concludes manner node (seen operation.now) last nodes.old nodes.new pages.old pages.new
        opens.old opens.new waits.now end (told result room.new.items) }
    ensures brief { IsBriefly result room.new.items }
{
    match end {
        Err(why) => refuse(errno_of(why)),
        Ok(Outcome::Silent) => Said::Nothing,
        Ok(Outcome::Refused(errno)) => refuse(errno),
        Ok(Outcome::Done) => {
            change(alloc, nodes, node, operation, place, goal);
            shut(pages, operation);
            Said::Answers(Answer::Done)
        }
        Ok(Outcome::Absent) => Said::Answers(Answer::NoEntry(manner.keep)),
        Ok(Outcome::Found(kind, size, inode)) => {
            let fresh = fresh(operation, now);
            Said::Answers(found(
                alloc, manner, nodes, times, waits, fresh, place, kind, size, inode,
            ))
        }
        Ok(Outcome::Attributes(kind, size, inode)) => {
            let moments = times.of(node, inode);
            let attributes = attributes_of(manner, waits, node, inode, moments, kind, size);
            Said::Answers(Answer::Attributes(attributes))
        }
        Ok(Outcome::Opened) => Said::Answers(open(alloc, pages, opens, node, operation)),
        Ok(Outcome::Made(kind, size, inode)) => Said::Answers(made(
            alloc, manner, nodes, opens, times, waits, now, operation, place, kind, size, inode,
        )),
        Ok(Outcome::Bytes(bytes)) => give_seen(alloc, waits, node, operation, bytes, room),
        Ok(Outcome::Written(written)) => Said::Answers(count(written)),
        Ok(Outcome::Rows(rows, more)) => { list(pages, node, operation, last, rows, more, room) }
        Ok(Outcome::Space) => Said::Answers(Answer::StatFs(manner.space)),
        Ok(Outcome::Started) => Said::Answers(start(operation)),
    }
}
