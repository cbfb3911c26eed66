//! The table of operations in worked rows, as the oracle answers them.
use eden_model::{Bytes, Errno, Kind, Name, Node, Path, Reply, Request, SharedBytes};
use eden_oracle::WholeTree;
use std::alloc::Global;
use std::process::Abort;
use std::test::*;

fn owned(rt: &impl Abort, alloc: Global, text: &str) -> Vec<u8> {
    Vec::from_slice(alloc, text.as_bytes()).expect(rt, "memory")
}

fn bytes(rt: &impl Abort, alloc: Global, text: &str) -> Bytes {
    Bytes::new(owned(rt, alloc, text))
}

fn shared(rt: &impl Abort, alloc: Global, bytes: Bytes) -> SharedBytes {
    SharedBytes::new(alloc, bytes.into_vec()).expect(rt, "memory")
}

fn long(rt: &impl Abort, alloc: Global) -> Bytes {
    let mut content = Vec::new(alloc);
    content.resize(65_537, b'a').expect(rt, "memory");
    Bytes::new(content)
}

fn name(rt: &impl Abort, alloc: Global, text: &str) -> Name {
    Name::new(owned(rt, alloc, text)).expect(rt, "a name")
}

/// The path of that text, as `/bak/test.txt`.
pub(crate) fn path(rt: &impl Abort, alloc: Global, text: &str) -> Path {
    let mut names = Vec::new(alloc);
    for part in text.split('/') {
        if !part.is_empty() {
            names.push(name(rt, alloc, part)).expect(rt, "memory");
        }
    }
    Path::new(names).expect(rt, "a path")
}

/// A row as the tests write it: its path, its kind, and its content; none if that is lost or unlisted.
pub(crate) type Row = (&'static str, Kind, Option<&'static str>);

fn node(rt: &impl Abort, alloc: Global, kind: Kind, text: Option<&str>) -> Node {
    let content = match text {
        None => None,
        Some(text) => Some(bytes(rt, alloc, text)),
    };
    match kind {
        Kind::File => Node::File(false, content),
        Kind::Exec => Node::File(true, content),
        Kind::Link => Node::Link(content),
        Kind::Dir => Node::Dir(text.is_some()),
    }
}

pub(crate) fn whole(rt: &impl Abort, alloc: Global, rows: &[Row]) -> WholeTree {
    let mut all = Vec::new(alloc);
    for (at, kind, text) in rows {
        let row = (path(rt, alloc, at), node(rt, alloc, *kind, *text));
        all.push(row).expect(rt, "memory");
    }
    let tree = WholeTree::new(alloc, all).expect(rt, "memory");
    tree.expect(rt, "a whole tree")
}

/// What is asked of a path.
#[derive(Clone, Copy)]
enum Ask {
    Kind,
    Stat,
    Read(u64, u64),
    ReadLink,
    /// This many entries from the first on.
    List(u64),
    /// This many entries after that name.
    ListAfter(&'static str, u64),
    Write(u64, &'static str),
    /// 65,537 bytes `a`, one more than a write may have.
    WriteLong(u64),
    Patch(u64, &'static str),
    PatchLong(u64),
    Truncate(u64),
    Create,
    SetExec(bool),
    Mkdir,
    Symlink(&'static str),
    Unlink,
    Rmdir,
    Rename(&'static str),
}

fn request(rt: &impl Abort, alloc: Global, at: Path, ask: Ask) -> Request {
    match ask {
        Ask::Kind => Request::Kind(at),
        Ask::Stat => Request::Stat(at),
        Ask::Read(offset, count) => Request::Read(at, offset, count),
        Ask::ReadLink => Request::ReadLink(at),
        Ask::List(limit) => Request::List(at, None, limit),
        Ask::ListAfter(text, limit) => Request::List(at, Some(name(rt, alloc, text)), limit),
        Ask::Write(offset, new) => Request::Write(at, offset, bytes(rt, alloc, new)),
        Ask::WriteLong(offset) => Request::Write(at, offset, long(rt, alloc)),
        Ask::Patch(offset, new) => Request::Patch(
            at,
            offset,
            shared(rt, alloc, bytes(rt, alloc, new)),
        ),
        Ask::PatchLong(offset) => Request::Patch(at, offset, shared(rt, alloc, long(rt, alloc))),
        Ask::Truncate(size) => Request::Truncate(at, size),
        Ask::Create => Request::Create(at),
        Ask::SetExec(exec) => Request::SetExec(at, exec),
        Ask::Mkdir => Request::Mkdir(at),
        Ask::Symlink(target) => Request::Symlink(at, bytes(rt, alloc, target)),
        Ask::Unlink => Request::Unlink(at),
        Ask::Rmdir => Request::Rmdir(at),
        Ask::Rename(to) => Request::Rename(at, path(rt, alloc, to)),
    }
}

/// An entry of a listing.
type Item = (Kind, &'static str);

/// What must be answered.
#[derive(Clone, Copy)]
enum Say {
    /// No reply: the request looks into what is lost or unlisted.
    Nothing,
    Ok,
    Kind(Kind),
    /// A kind, a length and an inode number.
    Stat(Kind, u64, u64),
    Data(&'static str),
    Count(u64),
    /// All the entries after the name.
    All(&'static [Item]),
    /// The first of them, and others come after these.
    First(&'static [Item]),
    Err(Errno),
}

fn is_item(row: &(Name, Kind), want: &Item) -> bool {
    row.0.as_slice() == want.1.as_bytes() && row.1 == want.0
}

fn are_items(rows: &[(Name, Kind)], want: &[Item]) -> bool {
    for k in 0..rows.len() {
        if k >= want.len() || !is_item(&rows[k], &want[k]) {
            return false;
        }
    }
    rows.len() == want.len()
}

fn is_listing(reply: &Reply, want: &[Item], has_more: bool) -> bool {
    match reply {
        Reply::Entries(entries, more) => {
            *more == has_more && are_items(entries.as_slice(), want)
        }
        _ => false,
    }
}

fn is_data(reply: &Reply, want: &str) -> bool {
    match reply {
        Reply::Data(bytes) => bytes.as_slice() == want.as_bytes(),
        _ => false,
    }
}

/// Whether the reply is one without bytes or entries, and that one.
fn is_plain(reply: &Reply, want: Say) -> bool {
    match (reply, want) {
        (Reply::Ok, Say::Ok) => true,
        (Reply::Kind(kind), Say::Kind(other)) => *kind == other,
        (Reply::Stat(kind, size, number), Say::Stat(other, length, own)) => {
            *kind == other && *size == length && *number == own
        }
        (Reply::Count(count), Say::Count(other)) => *count == other,
        (Reply::Err(errno), Say::Err(other)) => *errno == other,
        _ => false,
    }
}

fn is_reply(reply: &Reply, want: Say) -> bool {
    match want {
        Say::Data(text) => is_data(reply, text),
        Say::All(items) => is_listing(reply, items, false),
        Say::First(items) => is_listing(reply, items, true),
        _ => is_plain(reply, want),
    }
}

/// Whether the reply is the wanted one. A copy of it does for itself.
fn is_said(rt: &impl Abort, alloc: Global, reply: &Option<Reply>, want: Say) -> bool {
    match reply {
        None => matches!(want, Say::Nothing),
        Some(reply) => {
            let copy = reply.copy(alloc).expect(rt, "memory");
            let is_wanted = is_reply(&copy, want);
            drop(copy);
            is_wanted
        }
    }
}

/// What the tree answers a request. A copy of the request does for itself.
fn answer(
    rt: &impl Abort,
    alloc: Global,
    tree: &mut WholeTree,
    request: &Request,
) -> Option<Reply> {
    let copy = request.copy(alloc).expect(rt, "memory");
    let reply = tree.step(alloc, &copy).expect(rt, "memory");
    drop(copy);
    reply
}

/// Whether the tree answers so what is asked of a path. Here and above the owned values go by a call, so that what
/// drops each variant of a request or a reply is proved once, and not in each body.
fn answers_so(
    rt: &impl Abort,
    alloc: Global,
    tree: &mut WholeTree,
    at: &str,
    ask: Ask,
    want: Say,
) -> bool {
    let request = request(rt, alloc, path(rt, alloc, at), ask);
    let reply = answer(rt, alloc, tree, &request);
    drop(request);
    let is_wanted = is_said(rt, alloc, &reply, want);
    drop(reply);
    is_wanted
}

/// A path, what is asked of it, and what the tree must answer.
type Line = (&'static str, Ask, Say);

/// Asks the tree each line, and compares what it answers.
fn compare(rt: &impl Abort, alloc: Global, tree: &mut WholeTree, lines: &[Line]) {
    for k in 0..lines.len() {
        let (at, ask, want) = lines[k];
        assert!(rt;
            answers_so(rt, alloc, tree, at, ask, want),
            "line {k}, {at}"
        );
    }
}

fn answers(rt: &impl Abort, alloc: Global, rows: &[Row], lines: &[Line]) {
    let mut tree = whole(rt, alloc, rows);
    compare(rt, alloc, &mut tree, lines);
}

/// The root, and `test.txt` in it.
pub(crate) static ONE_FILE: [Row; 2] = [
    ("/", Kind::Dir, Some("")),
    ("/test.txt", Kind::File, Some("version 1\n")),
];

static READ_AND_WRITTEN: [Line; 23] = [
    ("/", Ask::Kind, Say::Kind(Kind::Dir)),
    ("/test.txt", Ask::Read(0, 100), Say::Data("version 1\n")),
    ("/test.txt", Ask::Read(10, 5), Say::Data("")),
    ("/test.txt", Ask::Read(1_073_741_824, 5), Say::Data("")),
    ("/test.txt", Ask::Read(0, 65537), Say::Err(Errno::EINVAL)),
    ("/test.txt/x", Ask::Kind, Say::Err(Errno::ENOTDIR)),
    ("/no/x", Ask::Kind, Say::Err(Errno::ENOENT)),
    ("/test.txt", Ask::Write(12, "!"), Say::Count(1)),
    (
        "/test.txt",
        Ask::Read(0, 100),
        Say::Data("version 1\n\0\0!"),
    ),
    ("/test.txt", Ask::Write(0, "V"), Say::Count(1)),
    ("/test.txt", Ask::Truncate(9), Say::Ok),
    ("/test.txt", Ask::Read(0, 100), Say::Data("Version 1")),
    ("/test.txt", Ask::Truncate(10), Say::Ok),
    ("/test.txt", Ask::Read(7, 9), Say::Data(" 1\0")),
    ("/test.txt", Ask::SetExec(true), Say::Ok),
    ("/test.txt", Ask::Stat, Say::Stat(Kind::Exec, 10, 2)),
    ("/test.txt", Ask::Write(5, ""), Say::Count(0)),
    ("/test.txt", Ask::Write(1_073_741_824, ""), Say::Count(0)),
    (
        "/test.txt",
        Ask::Write(1_073_741_824, "x"),
        Say::Err(Errno::EFBIG),
    ),
    ("/", Ask::Write(0, "x"), Say::Err(Errno::EISDIR)),
    (
        "/test.txt",
        Ask::Truncate(1_073_741_825),
        Say::Err(Errno::EFBIG),
    ),
    ("/test.txt", Ask::Truncate(0), Say::Ok),
    ("/test.txt", Ask::Read(0, 9), Say::Data("")),
];

#[test]
fn a_file_is_read_and_written(rt: HostRuntime) {
    answers(&rt, rt.alloc(), &ONE_FILE, &READ_AND_WRITTEN);
}

static PATCHED: [Line; 14] = [
    ("/no", Ask::WriteLong(0), Say::Err(Errno::EINVAL)),
    ("/no", Ask::PatchLong(0), Say::Err(Errno::ENOENT)),
    ("/", Ask::Patch(0, "x"), Say::Err(Errno::EISDIR)),
    ("/test.txt", Ask::WriteLong(0), Say::Err(Errno::EINVAL)),
    ("/test.txt", Ask::PatchLong(0), Say::Count(65_537)),
    ("/test.txt", Ask::Stat, Say::Stat(Kind::File, 65_537, 2)),
    ("/test.txt", Ask::Patch(65_538, "!"), Say::Count(1)),
    ("/test.txt", Ask::Read(65_536, 9), Say::Data("a\0!")),
    ("/test.txt", Ask::Patch(1, "b"), Say::Count(1)),
    ("/test.txt", Ask::Read(0, 4), Say::Data("abaa")),
    (
        "/test.txt",
        Ask::PatchLong(1_073_676_288),
        Say::Err(Errno::EFBIG),
    ),
    ("/test.txt", Ask::Patch(1_073_741_824, ""), Say::Count(0)),
    ("/test.txt", Ask::Read(65_536, 9), Say::Data("a\0!")),
    ("/test.txt", Ask::Stat, Say::Stat(Kind::File, 65_539, 2)),
];

#[test]
fn a_file_is_patched_beyond_the_limit_of_a_write(rt: HostRuntime) {
    answers(&rt, rt.alloc(), &ONE_FILE, &PATCHED);
}

static MOVED: [Line; 16] = [
    ("/d", Ask::Mkdir, Say::Ok),
    ("/test.txt", Ask::Rename("/d/t"), Say::Ok),
    ("/test.txt", Ask::Kind, Say::Err(Errno::ENOENT)),
    ("/d/t", Ask::Read(0, 7), Say::Data("version")),
    ("/d", Ask::Rename("/d/e"), Say::Err(Errno::EINVAL)),
    ("/d", Ask::Rename("/"), Say::Err(Errno::EBUSY)),
    ("/d/t", Ask::Rename("/d"), Say::Err(Errno::ENOTEMPTY)),
    ("/d", Ask::Rmdir, Say::Err(Errno::ENOTEMPTY)),
    ("/d", Ask::Rename("/d"), Say::Ok),
    ("/d", Ask::Unlink, Say::Err(Errno::EISDIR)),
    ("/d", Ask::Rename("/e"), Say::Ok),
    ("/", Ask::List(9), Say::All(&[(Kind::Dir, "e")])),
    ("/e", Ask::List(9), Say::All(&[(Kind::File, "t")])),
    ("/e/t", Ask::Unlink, Say::Ok),
    ("/e", Ask::Rmdir, Say::Ok),
    ("/", Ask::List(9), Say::All(&[])),
];

#[test]
fn a_file_is_moved_into_a_directory(rt: HostRuntime) {
    answers(&rt, rt.alloc(), &ONE_FILE, &MOVED);
}

static REPLACED: [Line; 13] = [
    ("/d", Ask::Mkdir, Say::Ok),
    ("/e", Ask::Mkdir, Say::Ok),
    ("/d/a", Ask::Create, Say::Ok),
    ("/d", Ask::Rename("/test.txt"), Say::Err(Errno::ENOTDIR)),
    ("/test.txt", Ask::Rename("/d"), Say::Err(Errno::EISDIR)),
    ("/e", Ask::Rename("/d"), Say::Err(Errno::ENOTEMPTY)),
    ("/e", Ask::Rename("/test.txt/x"), Say::Err(Errno::ENOTDIR)),
    ("/no", Ask::Rename("/no"), Say::Err(Errno::ENOENT)),
    ("/test.txt", Ask::Rename("/test.txt"), Say::Ok),
    ("/test.txt", Ask::Rename("/d/a"), Say::Ok),
    ("/d", Ask::Rename("/e"), Say::Ok),
    ("/", Ask::List(9), Say::All(&[(Kind::Dir, "e")])),
    ("/e/a", Ask::Read(0, 7), Say::Data("version")),
];

#[test]
fn what_stands_at_the_target_is_replaced(rt: HostRuntime) {
    answers(&rt, rt.alloc(), &ONE_FILE, &REPLACED);
}

const ADDED: &[Line] = &[
    ("/a-b", Ask::Create, Say::Ok),
    (
        "/",
        Ask::List(9),
        Say::All(&[(Kind::File, "a-b"), (Kind::File, "test.txt")]),
    ),
    ("/a-b", Ask::Create, Say::Err(Errno::EEXIST)),
    ("/test.txt/d", Ask::Mkdir, Say::Err(Errno::ENOTDIR)),
    ("/l", Ask::Symlink("test.txt"), Say::Ok),
    ("/l", Ask::ReadLink, Say::Data("test.txt")),
    ("/l", Ask::Stat, Say::Stat(Kind::Link, 8, 2)),
    ("/test.txt", Ask::ReadLink, Say::Err(Errno::EINVAL)),
    ("/l", Ask::Write(0, "x"), Say::Err(Errno::EINVAL)),
    ("/m", Ask::Symlink(""), Say::Err(Errno::ENOENT)),
    ("/sub", Ask::Mkdir, Say::Ok),
    ("/sub", Ask::List(10), Say::All(&[])),
    ("/sub/a", Ask::Create, Say::Ok),
    ("/sub", Ask::List(10), Say::All(&[(Kind::File, "a")])),
    ("/l", Ask::Rmdir, Say::Err(Errno::ENOTDIR)),
    ("/l", Ask::Unlink, Say::Ok),
    ("/l", Ask::Unlink, Say::Err(Errno::ENOENT)),
];

#[test]
fn names_are_added(rt: HostRuntime) {
    answers(&rt, rt.alloc(), &ONE_FILE, ADDED);
}

const ROOT_STAYS: &[Line] = &[
    ("/", Ask::Create, Say::Err(Errno::EEXIST)),
    ("/", Ask::Mkdir, Say::Err(Errno::EEXIST)),
    ("/", Ask::Symlink("x"), Say::Err(Errno::EEXIST)),
    ("/", Ask::Symlink(""), Say::Err(Errno::ENOENT)),
    ("/", Ask::Unlink, Say::Err(Errno::EISDIR)),
    ("/", Ask::Rmdir, Say::Err(Errno::EBUSY)),
    ("/", Ask::Rename("/"), Say::Err(Errno::EBUSY)),
    ("/", Ask::Rename("/x"), Say::Err(Errno::EBUSY)),
    ("/no", Ask::Rename("/"), Say::Err(Errno::EBUSY)),
];

#[test]
fn the_root_stays(rt: HostRuntime) {
    answers(&rt, rt.alloc(), &ONE_FILE, ROOT_STAYS);
}

const LISTED_ROWS: &[Row] = &[
    ("/test.txt", Kind::File, Some("version 2\n")),
    ("/bak/test.txt", Kind::File, Some("version 1\n")),
    ("/new.txt", Kind::File, Some("new file\n")),
    ("/bak", Kind::Dir, Some("")),
    ("/", Kind::Dir, Some("")),
];

const LISTED: &[Line] = &[
    ("/bak/test.txt", Ask::Kind, Say::Kind(Kind::File)),
    (
        "/",
        Ask::List(2),
        Say::First(&[(Kind::Dir, "bak"), (Kind::File, "new.txt")]),
    ),
    (
        "/",
        Ask::List(3),
        Say::All(&[
            (Kind::Dir, "bak"),
            (Kind::File, "new.txt"),
            (Kind::File, "test.txt"),
        ]),
    ),
    (
        "/",
        Ask::ListAfter("new.txt", 10),
        Say::All(&[(Kind::File, "test.txt")]),
    ),
    ("/", Ask::List(0), Say::Err(Errno::EINVAL)),
    ("/", Ask::List(1001), Say::Err(Errno::EINVAL)),
    ("/new.txt", Ask::List(1), Say::Err(Errno::ENOTDIR)),
    ("/bak", Ask::Stat, Say::Stat(Kind::Dir, 0, 2)),
    ("/new.txt", Ask::Stat, Say::Stat(Kind::File, 9, 3)),
    ("/bak", Ask::Rename("/old"), Say::Ok),
    ("/bak/test.txt", Ask::Read(0, 9), Say::Err(Errno::ENOENT)),
    ("/old/test.txt", Ask::Read(0, 9), Say::Data("version 1")),
];

#[test]
fn directories_are_listed(rt: HostRuntime) {
    answers(&rt, rt.alloc(), LISTED_ROWS, LISTED);
}

const LOST_ROWS: &[Row] = &[
    ("/", Kind::Dir, Some("")),
    ("/lost", Kind::Exec, None),
    ("/link", Kind::Link, None),
    ("/dir", Kind::Dir, None),
    ("/new", Kind::Dir, Some("")),
];

const LOST: &[Line] = &[
    ("/lost", Ask::Kind, Say::Kind(Kind::Exec)),
    ("/lost", Ask::Stat, Say::Nothing),
    ("/lost", Ask::Read(0, 1), Say::Nothing),
    ("/lost", Ask::Read(0, 0), Say::Data("")),
    ("/lost", Ask::Write(0, ""), Say::Count(0)),
    (
        "/lost",
        Ask::Write(1_073_741_824, "x"),
        Say::Err(Errno::EFBIG),
    ),
    ("/lost", Ask::Write(0, "x"), Say::Nothing),
    ("/lost", Ask::Truncate(1), Say::Nothing),
    ("/link", Ask::ReadLink, Say::Nothing),
    ("/link", Ask::Read(0, 1), Say::Err(Errno::EINVAL)),
    ("/dir", Ask::Kind, Say::Kind(Kind::Dir)),
    ("/dir/x", Ask::Kind, Say::Nothing),
    ("/dir/x", Ask::Create, Say::Nothing),
    ("/dir", Ask::List(1), Say::Nothing),
    ("/dir", Ask::Rmdir, Say::Nothing),
    ("/new", Ask::Rename("/dir"), Say::Nothing),
    (
        "/",
        Ask::List(1000),
        Say::All(&[
            (Kind::Dir, "dir"),
            (Kind::Link, "link"),
            (Kind::Exec, "lost"),
            (Kind::Dir, "new"),
        ]),
    ),
    ("/lost", Ask::SetExec(false), Say::Ok),
    ("/lost", Ask::Rename("/new/l"), Say::Ok),
    ("/new/l", Ask::Stat, Say::Nothing),
    ("/new/l", Ask::Truncate(0), Say::Ok),
    ("/new/l", Ask::Stat, Say::Stat(Kind::File, 0, 2)),
    ("/dir", Ask::Rename("/new/d"), Say::Ok),
    ("/new/d/x", Ask::Kind, Say::Nothing),
];

#[test]
fn what_is_lost_has_no_reply(rt: HostRuntime) {
    answers(&rt, rt.alloc(), LOST_ROWS, LOST);
}

/// The path of this many names `a`.
fn deep(rt: &impl Abort, alloc: Global, count: usize) -> String {
    "/a".repeat(alloc, count).expect(rt, "memory")
}

/// Makes directories of this many levels, each in the one before.
fn deepen(rt: &impl Abort, alloc: Global, tree: &mut WholeTree, levels: usize) {
    for count in 1..=levels {
        let at = deep(rt, alloc, count);
        assert!(rt; answers_so(rt, alloc, tree, at.as_str(), Ask::Mkdir, Say::Ok));
    }
}

/// Whether a directory stands this many levels deep.
fn is_deep(rt: &impl Abort, alloc: Global, tree: &mut WholeTree, levels: usize) -> bool {
    let at = deep(rt, alloc, levels);
    answers_so(
        rt,
        alloc,
        tree,
        at.as_str(),
        Ask::Kind,
        Say::Kind(Kind::Dir),
    )
}

const LONGER: &[Line] = &[
    ("/d", Ask::Mkdir, Say::Ok),
    ("/a", Ask::Rename("/d/b"), Say::Ok),
    ("/d", Ask::Rename("/e"), Say::Ok),
    ("/e/b", Ask::Rename("/a"), Say::Ok),
];

#[test]
fn a_rename_makes_paths_longer_than_a_request_names(rt: HostRuntime) {
    let mut tree = whole(&rt, rt.alloc(), &ONE_FILE);
    deepen(&rt, rt.alloc(), &mut tree, 256);
    compare(&rt, rt.alloc(), &mut tree, LONGER);
    assert!(rt; is_deep(&rt, rt.alloc(), &mut tree, 256));
}
