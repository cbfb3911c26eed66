ghost use Rattle.std.specs.Prelude.{◌≡◌, ◌≤◌, ◌<◌, ◌+◌, ◌^◌, ◌++◌, ℕ, length, OnOk, OnErr, vec_capacity};
ghost use Rattle.eden_fuse_format.specs.Answers.{
  attr_text,
  entry_head,
  entry_text,
  no_entry_text,
  attr_out_text,
  open_text,
  write_text,
  statfs_text,
  init_text,
  body_text,
  error_of,
  out_header,
  answer_text,
  IsBrief,
};

use crate::members::{Member, put_members};
use std::alloc::AllocError;

/// A time since 1970, as the kernel tells it; seconds before that are those of two's complement.
#[derive(Clone, Copy)]
pub struct Time {
    pub seconds: u64,
    pub nanoseconds: u32,
}

/// The attributes of a node.
#[derive(Clone, Copy)]
pub struct Attr {
    /// The number that stat(2) tells.
    pub ino: u64,
    /// In bytes.
    pub size: u64,
    /// In units of 512 bytes.
    pub blocks: u64,
    pub atime: Time,
    pub mtime: Time,
    pub ctime: Time,
    /// The kind and the permissions.
    pub mode: u32,
    pub nlink: u32,
    pub uid: u32,
    pub gid: u32,
    /// In which pieces reading serves best, in bytes.
    pub blksize: u32,
}

/// A node that was found, and for how many seconds the kernel may keep its name and its attributes.
#[derive(Clone, Copy)]
pub struct EntryOut {
    pub nodeid: u64,
    pub entry_valid: u64,
    pub attr_valid: u64,
    pub attr: Attr,
}

/// Attributes, and for how many seconds the kernel may keep them.
#[derive(Clone, Copy)]
pub struct AttrOut {
    pub attr_valid: u64,
    pub attr: Attr,
}

/// The handle of an open file or directory, by which it is named from now on, and flags for the kernel.
#[derive(Clone, Copy)]
pub struct OpenOut {
    pub fh: u64,
    pub open_flags: u32,
}

/// The room of the disk, in blocks of `frsize` bytes.
#[derive(Clone, Copy)]
pub struct StatFsOut {
    pub blocks: u64,
    pub bfree: u64,
    pub bavail: u64,
    pub files: u64,
    pub ffree: u64,
    pub bsize: u32,
    pub namelen: u32,
    pub frsize: u32,
}

/// What is agreed on at the start.
#[derive(Clone, Copy)]
pub struct InitOut {
    /// In bytes.
    pub max_readahead: u32,
    pub flags: u32,
    /// How many requests that nobody waits for may be under way.
    pub max_background: u16,
    /// From how many of them on the kernel holds back.
    pub congestion_threshold: u16,
    /// The most bytes of a write.
    pub max_write: u32,
    /// The unit of times, in nanoseconds.
    pub time_gran: u32,
    /// The most pages of a request.
    pub max_pages: u16,
}

/// What a request is answered.
#[derive(Clone, Copy)]
pub enum Answer<'a> {
    /// An error's number.
    Refused(u32),
    Done,
    Entry(EntryOut),
    /// No such name; the kernel may keep that for so many seconds.
    NoEntry(u64),
    Attributes(AttrOut),
    Opened(OpenOut),
    /// A file that was made and opened.
    Created(EntryOut, OpenOut),
    /// Bytes of a file, the target of a link, or rows of a directory.
    Bytes(&'a [u8]),
    /// How many bytes were written.
    Written(u32),
    StatFs(StatFsOut),
    Started(InitOut),
}

#[tactic(auto, unfolding(crate::specs::Answers::attr_text))]
fn put_attr(out: &mut Vec<u8>, attr: &Attr)
    requires { length out.old.items + length (attr_text attr.now) ≤ vec_capacity out.old }
    ensures items { out.new.items ≡ out.old.items ++ attr_text attr.now }
    ensures room { vec_capacity out.old ≤ vec_capacity out.new }
{
    let members = [
        Member::U64(attr.ino),
        Member::U64(attr.size),
        Member::U64(attr.blocks),
        Member::U64(attr.atime.seconds),
        Member::U64(attr.mtime.seconds),
        Member::U64(attr.ctime.seconds),
        Member::U32(attr.atime.nanoseconds),
        Member::U32(attr.mtime.nanoseconds),
        Member::U32(attr.ctime.nanoseconds),
        Member::U32(attr.mode),
        Member::U32(attr.nlink),
        Member::U32(attr.uid),
        Member::U32(attr.gid),
        Member::U32(0),
        Member::U32(attr.blksize),
        Member::U32(0),
    ];
    put_members(out, &members);
}

// What stands before an entry's attributes.
#[tactic(auto, unfolding(crate::specs::Answers::entry_head))]
fn put_head_of_entry(out: &mut Vec<u8>, nodeid: u64, entry_valid: u64, attr_valid: u64)
    requires { length out.old.items + length (entry_head nodeid entry_valid attr_valid) ≤ vec_capacity out.old }
    ensures items { out.new.items ≡ out.old.items ++ entry_head nodeid entry_valid attr_valid }
    ensures room { vec_capacity out.old ≤ vec_capacity out.new }
{
    let members = [
        Member::U64(nodeid),
        Member::U64(0),
        Member::U64(entry_valid),
        Member::U64(attr_valid),
        Member::U32(0),
        Member::U32(0),
    ];
    put_members(out, &members);
}

#[tactic(auto, unfolding(crate::specs::Answers::entry_text))]
pub(crate) fn put_entry(out: &mut Vec<u8>, entry: &EntryOut)
    requires { length out.old.items + length (entry_text entry.now) ≤ vec_capacity out.old }
    ensures items { out.new.items ≡ out.old.items ++ entry_text entry.now }
    ensures room { vec_capacity out.old ≤ vec_capacity out.new }
{
    put_head_of_entry(out, entry.nodeid, entry.entry_valid, entry.attr_valid);
    put_attr(out, &entry.attr);
}

#[tactic(auto, unfolding(crate::specs::Answers::no_entry_text))]
fn put_no_entry(out: &mut Vec<u8>, entry_valid: u64)
    requires { length out.old.items + length (no_entry_text entry_valid) ≤ vec_capacity out.old }
    ensures items { out.new.items ≡ out.old.items ++ no_entry_text entry_valid }
    ensures room { vec_capacity out.old ≤ vec_capacity out.new }
{
    put_head_of_entry(out, 0, entry_valid, 0);
    out.extend_from_slice(&[0; 88]).unwrap();
}

#[tactic(auto, unfolding(crate::specs::Answers::attr_out_text))]
fn put_attr_out(out: &mut Vec<u8>, attr: &AttrOut)
    requires { length out.old.items + length (attr_out_text attr.now) ≤ vec_capacity out.old }
    ensures items { out.new.items ≡ out.old.items ++ attr_out_text attr.now }
    ensures room { vec_capacity out.old ≤ vec_capacity out.new }
{
    put_members(
        out,
        &[Member::U64(attr.attr_valid), Member::U32(0), Member::U32(0)],
    );
    put_attr(out, &attr.attr);
}

#[tactic(auto, unfolding(crate::specs::Answers::open_text))]
fn put_open(out: &mut Vec<u8>, opened: &OpenOut)
    requires { length out.old.items + length (open_text opened.now) ≤ vec_capacity out.old }
    ensures items { out.new.items ≡ out.old.items ++ open_text opened.now }
    ensures room { vec_capacity out.old ≤ vec_capacity out.new }
{
    put_members(
        out,
        &[
            Member::U64(opened.fh),
            Member::U32(opened.open_flags),
            Member::U32(0),
        ],
    );
}

#[tactic(auto, unfolding(crate::specs::Answers::write_text))]
fn put_written(out: &mut Vec<u8>, size: u32)
    requires { length out.old.items + length (write_text size) ≤ vec_capacity out.old }
    ensures items { out.new.items ≡ out.old.items ++ write_text size }
    ensures room { vec_capacity out.old ≤ vec_capacity out.new }
{
    put_members(out, &[Member::U32(size), Member::U32(0)]);
}

#[tactic(auto, unfolding(crate::specs::Answers::statfs_text))]
fn put_statfs(out: &mut Vec<u8>, space: &StatFsOut)
    requires { length out.old.items + length (statfs_text space.now) ≤ vec_capacity out.old }
    ensures items { out.new.items ≡ out.old.items ++ statfs_text space.now }
    ensures room { vec_capacity out.old ≤ vec_capacity out.new }
{
    let members = [
        Member::U64(space.blocks),
        Member::U64(space.bfree),
        Member::U64(space.bavail),
        Member::U64(space.files),
        Member::U64(space.ffree),
        Member::U32(space.bsize),
        Member::U32(space.namelen),
        Member::U32(space.frsize),
        Member::U32(0),
        Member::U32(0),
        Member::U32(0),
        Member::U32(0),
        Member::U32(0),
        Member::U32(0),
        Member::U32(0),
    ];
    put_members(out, &members);
}

#[tactic(auto, unfolding(crate::specs::Answers::init_text))]
fn put_init(out: &mut Vec<u8>, init: &InitOut)
    requires { length out.old.items + length (init_text init.now) ≤ vec_capacity out.old }
    ensures items { out.new.items ≡ out.old.items ++ init_text init.now }
    ensures room { vec_capacity out.old ≤ vec_capacity out.new }
{
    let members = [
        Member::U32(7),
        Member::U32(31),
        Member::U32(init.max_readahead),
        Member::U32(init.flags),
        Member::U16(init.max_background),
        Member::U16(init.congestion_threshold),
        Member::U32(init.max_write),
        Member::U32(init.time_gran),
        Member::U16(init.max_pages),
        Member::U16(0),
        Member::U32(0),
        Member::U32(0),
        Member::U32(0),
        Member::U32(0),
        Member::U32(0),
        Member::U32(0),
        Member::U32(0),
        Member::U32(0),
    ];
    put_members(out, &members);
}

#[tactic(auto, unfolding(crate::specs::Members::members_text, crate::specs::Answers::attr_text))]
fn attr_len(_attr: &Attr) -> usize
    ensures len { result ≡ length (attr_text _attr.now) }
    ensures small { result ≡ 88 }
{
    88
}

#[tactic(auto, unfolding(crate::specs::Members::members_text, crate::specs::Answers::entry_head))]
fn head_of_entry_len(_nodeid: u64, _entry_valid: u64, _attr_valid: u64) -> usize
    ensures len { result ≡ length (entry_head _nodeid _entry_valid _attr_valid) }
    ensures small { result ≡ 40 }
{
    40
}

/// How long an entry is, in bytes.
#[tactic(auto, unfolding(crate::specs::Answers::entry_text))]
pub fn entry_len(entry: &EntryOut) -> usize
    ensures len { result ≡ length (entry_text entry.now) }
    ensures small { result ≡ 128 }
{
    head_of_entry_len(entry.nodeid, entry.entry_valid, entry.attr_valid) + attr_len(&entry.attr)
}

#[tactic(auto, unfolding(crate::specs::Answers::no_entry_text))]
fn no_entry_len(entry_valid: u64) -> usize
    ensures len { result ≡ length (no_entry_text entry_valid) }
    ensures small { result ≡ 128 }
{
    head_of_entry_len(0, entry_valid, 0) + 88
}

#[tactic(auto, unfolding(crate::specs::Members::members_text, crate::specs::Answers::attr_out_text))]
fn attr_out_len(attr: &AttrOut) -> usize
    ensures len { result ≡ length (attr_out_text attr.now) }
    ensures small { result ≡ 104 }
{
    16 + attr_len(&attr.attr)
}

#[tactic(auto, unfolding(crate::specs::Members::members_text, crate::specs::Answers::open_text))]
fn open_len(_opened: &OpenOut) -> usize
    ensures len { result ≡ length (open_text _opened.now) }
    ensures small { result ≡ 16 }
{
    16
}

#[tactic(auto, unfolding(crate::specs::Members::members_text, crate::specs::Answers::write_text))]
fn written_len(_size: u32) -> usize
    ensures len { result ≡ length (write_text _size) }
    ensures small { result ≡ 8 }
{
    8
}

#[tactic(auto, unfolding(crate::specs::Members::members_text, crate::specs::Answers::statfs_text))]
fn statfs_len(_space: &StatFsOut) -> usize
    ensures len { result ≡ length (statfs_text _space.now) }
    ensures small { result ≡ 80 }
{
    80
}

#[tactic(auto, unfolding(crate::specs::Members::members_text, crate::specs::Answers::init_text))]
fn init_len(_init: &InitOut) -> usize
    ensures len { result ≡ length (init_text _init.now) }
    ensures small { result ≡ 64 }
{
    64
}

fn body_len(answer: &Answer<'_>) -> usize
    requires { IsBrief answer.now }
    ensures len { result ≡ length (body_text answer.now) }
    ensures small { result < 2 ^ 31 }
{
    match answer {
        Answer::Refused(_) => 0,
        Answer::Done => 0,
        Answer::Entry(entry) => entry_len(entry),
        Answer::NoEntry(entry_valid) => no_entry_len(*entry_valid),
        Answer::Attributes(attr) => attr_out_len(attr),
        Answer::Opened(opened) => open_len(opened),
        Answer::Created(entry, opened) => entry_len(entry) + open_len(opened),
        Answer::Bytes(bytes) => bytes.len(),
        Answer::Written(size) => written_len(*size),
        Answer::StatFs(space) => statfs_len(space),
        Answer::Started(init) => init_len(init),
    }
}

fn put_body(out: &mut Vec<u8>, answer: &Answer<'_>)
    requires { length out.old.items + length (body_text answer.now) ≤ vec_capacity out.old }
    ensures items { out.new.items ≡ out.old.items ++ body_text answer.now }
    ensures room { vec_capacity out.old ≤ vec_capacity out.new }
{
    match answer {
        Answer::Refused(_) => {}
        Answer::Done => {}
        Answer::Entry(entry) => put_entry(out, entry),
        Answer::NoEntry(entry_valid) => put_no_entry(out, *entry_valid),
        Answer::Attributes(attr) => put_attr_out(out, attr),
        Answer::Opened(opened) => put_open(out, opened),
        Answer::Created(entry, opened) => {
            put_entry(out, entry);
            put_open(out, opened);
        }
        Answer::Bytes(bytes) => out.extend_from_slice(bytes).unwrap(),
        Answer::Written(size) => put_written(out, *size),
        Answer::StatFs(space) => put_statfs(out, space),
        Answer::Started(init) => put_init(out, init),
    }
}

fn error_of(answer: &Answer<'_>) -> u32
    ensures { result ≡ error_of answer.now }
{
    match answer {
        Answer::Refused(0) => 0,
        Answer::Refused(errno) => u32::MAX - *errno + 1,
        _ => 0,
    }
}

#[tactic(auto, unfolding(crate::specs::Answers::out_header))]
fn put_header(out: &mut Vec<u8>, len: u32, error: u32, unique: u64)
    requires small { len < 2 ^ 31 }
    requires room { length out.old.items + length (out_header len error unique) ≤ vec_capacity out.old }
    ensures items { out.new.items ≡ out.old.items ++ out_header len error unique }
    ensures room { vec_capacity out.old ≤ vec_capacity out.new }
{
    put_members(
        out,
        &[
            Member::U32(16 + len),
            Member::U32(error),
            Member::U64(unique),
        ],
    );
}

/// How long the answer is, in bytes.
#[tactic(auto, unfolding(crate::specs::Members::members_text, crate::specs::Answers::out_header))]
pub fn answer_len(answer: &Answer<'_>) -> usize
    requires { IsBrief answer.now }
    ensures { (unique : ℕ) → result ≡ length (answer_text unique answer.now) }
{
    16 + body_len(answer)
}

/// Appends the answer to the request of this number. The only error is want of memory, which comes only where the room
/// is too small, and leaves what was there.
pub fn put_answer(out: &mut Vec<u8>, unique: u64, answer: &Answer<'_>) -> Result<(), AllocError>
    requires { IsBrief answer.now }
    ensures ok { OnOk result (out.new.items ≡ out.old.items ++ answer_text unique answer.now) }
    ensures err { OnErr result (out.new.items ≡ out.old.items) }
    ensures room { vec_capacity out.old ≤ vec_capacity out.new }
    ensures full { OnErr result (vec_capacity out.old < length out.old.items + length (answer_text unique answer.now)) }
{
    out.reserve(answer_len(answer))?;
    let len = body_len(answer) as u32;
    put_header(out, len, error_of(answer), unique);
    put_body(out, answer);
    Ok(())
}
