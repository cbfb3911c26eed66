// What is told of nodes and of the start.
ghost use Rattle.std.specs.Prelude.{◌≡◌};
ghost use Rattle.eden_fuse_shown.specs.Attributes.{
  attributes_of,
  attr_of,
  blocks_of,
  entry_of,
  kept_for,
  mode_bits,
  open_directory,
  open_file,
  seen_attr,
  start_of,
  started,
};
ghost use Rattle.eden_fuse_shown.specs.Waiting.{extent_of};

use crate::extents::Extents;
use crate::manner::Manner;
use crate::times::Moments;
use eden_fuse_format::{Answer, Attr, AttrOut, EntryOut, InitIn, InitOut, OpenOut};
use eden_fuse_meaning::Owner;
use eden_model::Kind;

const EPROTO: u32 = 71;

/// What the kernel may do of what it offers.
const WANTED: u32 = 12_845_089;

/// What flags of `open` say of reading and writing; 0 is reading alone.
const ACCESS_MODE: u32 = 3;

fn mode_of(kind: Kind) -> u32
    ensures { result ≡ mode_bits kind }
{
    match kind {
        Kind::File => 0o100644,
        Kind::Exec => 0o100755,
        Kind::Link => 0o120777,
        Kind::Dir => 0o40755,
    }
}

fn blocks_of(size: u64) -> u64
    ensures { result ≡ blocks_of size }
{
    if size % 512 == 0 {
        size / 512
    } else {
        size / 512 + 1
    }
}

/// For how many seconds a node's attributes are kept: a length that may be dropped yet is asked for each time.
fn kept_for(manner: Manner, waits: &Extents, node: u64) -> u64
    ensures { result ≡ kept_for manner (extent_of waits.now node) }
{
    match waits.get(node) {
        None => manner.keep,
        Some(_) => 0,
    }
}

fn attr_of(owner: Owner, inode: u64, at: Moments, kind: Kind, size: u64) -> Attr
    ensures { result ≡ attr_of owner inode at kind size }
{
    Attr {
        ino: inode,
        size,
        blocks: blocks_of(size),
        atime: at.content,
        mtime: at.content,
        ctime: at.entry,
        mode: mode_of(kind),
        nlink: 1,
        uid: owner.uid,
        gid: owner.gid,
        blksize: 65_536,
    }
}

/// A node's attributes with what waits for its file, of which a mount tells that it is so long.
fn seen_attr(
    manner: Manner,
    waits: &Extents,
    node: u64,
    inode: u64,
    at: Moments,
    kind: Kind,
    size: u64,
) -> Attr
    ensures { result ≡ seen_attr manner waits.now node inode at kind size }
{
    let seen = waits.seen_length(node, size);
    attr_of(manner.owner, inode, at, kind, seen)
}

/// A node that was found or made, of whose file a mount tells that it is so long.
pub(crate) fn entry_of(
    manner: Manner,
    waits: &Extents,
    node: u64,
    inode: u64,
    at: Moments,
    kind: Kind,
    size: u64,
) -> EntryOut
    ensures { result ≡ entry_of manner waits.now node inode at kind size }
{
    EntryOut {
        nodeid: node,
        entry_valid: manner.keep,
        attr_valid: kept_for(manner, waits, node),
        attr: seen_attr(manner, waits, node, inode, at, kind, size),
    }
}

/// A node's attributes, of whose file a mount tells that it is so long.
pub(crate) fn attributes_of(
    manner: Manner,
    waits: &Extents,
    node: u64,
    inode: u64,
    at: Moments,
    kind: Kind,
    size: u64,
) -> AttrOut
    ensures { result ≡ attributes_of manner waits.now node inode at kind size }
{
    AttrOut {
        attr_valid: kept_for(manner, waits, node),
        attr: seen_attr(manner, waits, node, inode, at, kind, size),
    }
}

/// A file that is opened with these flags of `open`.
pub(crate) fn open_file(flags: u32) -> OpenOut
    ensures { result ≡ open_file flags }
{
    OpenOut {
        fh: 0,
        open_flags: if flags & ACCESS_MODE == 0 { 34 } else { 2 },
    }
}

/// An open directory.
pub(crate) fn open_directory(handle: u64) -> OpenOut
    ensures { result ≡ open_directory handle }
{
    OpenOut {
        fh: handle,
        open_flags: 0,
    }
}

fn start_of(init: &InitIn) -> InitOut
    ensures { result ≡ start_of init.now }
{
    InitOut {
        max_readahead: init.max_readahead,
        flags: init.flags & WANTED,
        max_background: 16,
        congestion_threshold: 12,
        max_write: 1_048_576,
        time_gran: 1,
        max_pages: 256,
    }
}

/// What is agreed on at the start.
pub(crate) fn started(init: &InitIn) -> Answer<'static>
    ensures { result ≡ started init.now }
{
    if init.major != 7 || init.minor < 12 {
        return Answer::Refused(EPROTO);
    }
    Answer::Started(start_of(init))
}
