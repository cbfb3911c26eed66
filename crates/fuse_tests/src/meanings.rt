//! What messages ask of a mount, request by request, and what they come to.
use eden_fuse_format::{
    AccessIn, CreateIn, FallocateIn, ForgetIn, GetAttrIn, LinkIn, MkDirIn, MkNodIn, OpenIn,
    Operation, ReadIn, Rename2In, RenameIn, SetAttrIn, WriteIn,
};
use eden_fuse_meaning::{Outcome, Owner, Step, Then, first, next};
use eden_model::{Bytes, Entries, Errno, Fault, Kind, Name, Path, Reply, Request};
use std::process::Abort;

const OWNER: Owner = Owner { uid: 8, gid: 9 };

fn data(rt: &(impl AllocGlobal + Abort), bytes: &[u8]) -> Vec<u8> {
    Vec::from_slice(rt.alloc(), bytes).expect(rt, "memory")
}

fn name(rt: &(impl AllocGlobal + Abort), text: &str) -> Name {
    Name::new(data(rt, text.as_bytes())).expect(rt, "a name")
}

// The path of a name in the root, or the root's for none.
fn path_of(rt: &(impl AllocGlobal + Abort), text: &str) -> Path {
    let mut names = Vec::new(rt.alloc());
    if !text.is_empty() {
        names.push(name(rt, text)).expect(rt, "memory");
    }
    Path::new(names).expect(rt, "a path")
}

// .. or nowhere, for `?`; or below more names than a path may have, for `far`.
fn path(rt: &(impl AllocGlobal + Abort), text: &str) -> Result<Path, u32> {
    if text == "?" {
        Err(116)
    } else if text == "far" {
        Err(36)
    } else {
        Ok(path_of(rt, text))
    }
}

fn put(rt: &impl Abort, text: &mut Vec<u8>, word: &[u8]) {
    text.extend_from_slice(word).expect(rt, "memory");
}

fn put_number(rt: &(impl AllocGlobal + Abort), text: &mut Vec<u8>, number: u64) {
    let word = format!(in rt.alloc(); " {number}").expect(rt, "memory");
    put(rt, text, word.as_bytes());
}

// Each name of a path after a slash.
fn put_path(rt: &impl Abort, text: &mut Vec<u8>, path: &Path) {
    for name in path.as_slice() {
        put(rt, text, b"/");
        put(rt, text, name.as_slice());
    }
}

// The word of a request, and its path.
fn word_and_path(request: &Request) -> (&'static [u8], &Path) {
    match request {
        Request::Kind(path) => (b"kind ", path),
        Request::Stat(path) => (b"stat ", path),
        Request::Read(path, _, _) => (b"read ", path),
        Request::ReadLink(path) => (b"readlink ", path),
        Request::List(path, _, _) => (b"list ", path),
        Request::Write(path, _, _) => (b"write ", path),
        Request::Patch(path, _, _) => (b"patch ", path),
        Request::Truncate(path, _) => (b"truncate ", path),
        Request::Create(path) => (b"create ", path),
        Request::SetExec(path, true) => (b"mark ", path),
        Request::SetExec(path, false) => (b"unmark ", path),
        Request::Mkdir(path) => (b"mkdir ", path),
        Request::Symlink(path, _) => (b"symlink ", path),
        Request::Unlink(path) => (b"unlink ", path),
        Request::Rmdir(path) => (b"rmdir ", path),
        Request::Rename(path, _) => (b"rename ", path),
    }
}

fn put_bytes(rt: &(impl AllocGlobal + Abort), text: &mut Vec<u8>, offset: u64, bytes: &[u8]) {
    put_number(rt, text, offset);
    put(rt, text, b" ");
    put(rt, text, bytes);
}

fn put_after(rt: &impl Abort, text: &mut Vec<u8>, after: &Option<Name>) {
    if let Some(name) = after {
        put(rt, text, b" after ");
        put(rt, text, name.as_slice());
    }
}

fn put_request(rt: &(impl AllocGlobal + Abort), text: &mut Vec<u8>, request: &Request) {
    let (word, path) = word_and_path(request);
    put(rt, text, word);
    put_path(rt, text, path);
    match request {
        Request::Read(_, offset, count) => {
            put_number(rt, text, *offset);
            put_number(rt, text, *count);
        }
        Request::List(_, after, most) => {
            put_after(rt, text, after);
            put_number(rt, text, *most);
        }
        Request::Write(_, offset, bytes) => put_bytes(rt, text, *offset, bytes.as_slice()),
        Request::Patch(_, offset, bytes) => put_bytes(rt, text, *offset, bytes.as_slice()),
        Request::Truncate(_, size) => put_number(rt, text, *size),
        Request::Symlink(_, target) => {
            put(rt, text, b" ");
            put(rt, text, target.as_slice());
        }
        Request::Rename(_, to) => {
            put(rt, text, b" ");
            put_path(rt, text, to);
        }
        _ => {}
    }
    put(rt, text, b"; ");
}

fn word_of(kind: Kind) -> &'static [u8] {
    match kind {
        Kind::File => b" file",
        Kind::Exec => b" exec",
        Kind::Link => b" link",
        Kind::Dir => b" dir",
    }
}

fn put_node(
    rt: &(impl AllocGlobal + Abort),
    text: &mut Vec<u8>,
    kind: Kind,
    size: u64,
    inode: u64,
) {
    put(rt, text, word_of(kind));
    put_number(rt, text, size);
    put_number(rt, text, inode);
}

fn word_of_outcome(outcome: &Outcome) -> &'static [u8] {
    match outcome {
        Outcome::Silent => b"silent",
        Outcome::Refused(_) => b"refused",
        Outcome::Done => b"done",
        Outcome::Absent => b"absent",
        Outcome::Found(_, _, _) => b"found",
        Outcome::Attributes(_, _, _) => b"shown",
        Outcome::Opened => b"opened",
        Outcome::Made(_, _, _) => b"made",
        Outcome::Bytes(_) => b"bytes ",
        Outcome::Written(_) => b"written",
        Outcome::Rows(_, _) => b"rows",
        Outcome::Space => b"space",
        Outcome::Started => b"started",
    }
}

fn put_outcome(rt: &(impl AllocGlobal + Abort), text: &mut Vec<u8>, outcome: &Outcome) {
    put(rt, text, word_of_outcome(outcome));
    match outcome {
        Outcome::Refused(errno) => put_number(rt, text, u64::from(*errno)),
        Outcome::Found(kind, size, inode)
        | Outcome::Attributes(kind, size, inode)
        | Outcome::Made(kind, size, inode) => put_node(rt, text, *kind, *size, *inode),
        Outcome::Bytes(bytes) => put(rt, text, bytes.as_slice()),
        Outcome::Written(count) => put_number(rt, text, *count),
        Outcome::Rows(entries, more) => {
            put_number(rt, text, entries.len() as u64);
            put(rt, text, if *more { b" of more" } else { b"" });
        }
        _ => {}
    }
}

fn is_named(path: &Path, name: &[u8]) -> bool {
    match path.as_slice().last() {
        None => false,
        Some(last) => last.as_slice() == name,
    }
}

// What stands at a path, by its last name.
fn kind_at(path: &Path) -> Option<Kind> {
    if path.is_root() || is_named(path, b"dir") {
        Some(Kind::Dir)
    } else if is_named(path, b"file") {
        Some(Kind::File)
    } else if is_named(path, b"link") {
        Some(Kind::Link)
    } else {
        None
    }
}

fn stat_of(path: &Path) -> Reply {
    if let Some(kind) = kind_at(path) {
        Reply::Stat(kind, 5, 70)
    } else if is_named(path, b"made") {
        Reply::Stat(Kind::Exec, 0, 71)
    } else if is_named(path, b"lost") {
        Reply::Fault(Fault::Overlay)
    } else {
        Reply::Err(Errno::ENOENT)
    }
}

fn entries(rt: &(impl AllocGlobal + Abort)) -> Entries {
    let mut rows = Vec::new(rt.alloc());
    let row = (name(rt, "file"), Kind::File);
    rows.push(row).expect(rt, "memory");
    Entries::new(rows)
}

// What a mount replies in which `made` is seen only once it was made, and which fails at `lost`.
fn reply(rt: &(impl AllocGlobal + Abort), request: &Request) -> Reply {
    match request {
        Request::Kind(path) => match kind_at(path) {
            Some(kind) => Reply::Kind(kind),
            None => Reply::Err(Errno::ENOENT),
        },
        Request::Stat(path) => stat_of(path),
        Request::Create(path) if kind_at(path).is_some() => Reply::Err(Errno::EEXIST),
        Request::Read(_, _, _) => Reply::Data(Bytes::new(data(rt, b"hello"))),
        Request::ReadLink(_) => Reply::Data(Bytes::new(data(rt, b"target"))),
        Request::List(_, _, _) => Reply::Entries(entries(rt), true),
        Request::Patch(_, _, bytes) => Reply::Count(bytes.len() as u64),
        _ => Reply::Ok,
    }
}

// The first step of an operation on the node of that name. A directory is read on after `file`, and a rename goes to
// the other.
fn first_of(
    rt: &(impl AllocGlobal + Abort),
    at: &str,
    other: &str,
    operation: &Operation<'_>,
) -> Step {
    let last = Some(name(rt, "file"));
    let node = path(rt, at);
    let to = path(rt, other);
    first(rt.alloc(), OWNER, &node, &to, &last, operation).expect(rt, "memory")
}

// What an operation asks and comes to, and whether it came to that.
#[derive(Drop)]
struct Course {
    text: Vec<u8>,
    is_over: bool,
}

impl Course {
    fn tell(&mut self, rt: &(impl AllocGlobal + Abort), outcome: &Outcome) {
        if !self.is_over {
            put_outcome(rt, &mut self.text, outcome);
            self.is_over = true;
        }
    }

    fn ask(&mut self, rt: &(impl AllocGlobal + Abort), request: Request, then: Then) -> Step {
        put_request(rt, &mut self.text, &request);
        let reply = reply(rt, &request);
        drop(request);
        next(rt.alloc(), then, reply).expect(rt, "memory")
    }

    // The step after one that asks; one that tells is the last.
    fn go(&mut self, rt: &(impl AllocGlobal + Abort), step: Step) -> Step {
        match step {
            Step::Tell(outcome) => {
                self.tell(rt, &outcome);
                Step::Tell(outcome)
            }
            Step::Ask(request, then) => self.ask(rt, request, then),
        }
    }

    fn run(&mut self, rt: &(impl AllocGlobal + Abort), first: Step) {
        let mut step = first;
        for _ in 0..8 {
            step = self.go(rt, step);
        }
        drop(step);
    }
}

// Whether these are the requests of an operation on the node of that name, by which a rename goes to the other, and
// what it comes to.
fn is_told_of(
    rt: &(impl AllocGlobal + Abort),
    at: &str,
    other: &str,
    operation: &Operation<'_>,
    want: &str,
) -> bool {
    let mut course = Course {
        text: Vec::new(rt.alloc()),
        is_over: false,
    };
    course.run(rt, first_of(rt, at, other, operation));
    course.text.as_slice() == want.as_bytes()
}

// .. a rename goes to `dir`.
fn is_told(
    rt: &(impl AllocGlobal + Abort),
    at: &str,
    operation: &Operation<'_>,
    want: &str,
) -> bool {
    is_told_of(rt, at, "dir", operation, want)
}

fn setting(valid: u32, mode: u32, uid: u32) -> SetAttrIn {
    SetAttrIn {
        valid,
        fh: 0,
        size: 3,
        lock_owner: 0,
        atime: 0,
        mtime: 0,
        ctime: 0,
        atimensec: 0,
        mtimensec: 0,
        ctimensec: 0,
        mode,
        uid,
        gid: 9,
    }
}

// What is set of the node of that name, and what that asks and comes to.
const SET: &[(&str, u32, u32, u32, &str)] = &[
    (
        "file",
        9,
        0o100755,
        8,
        "truncate /file 3; mark /file; stat /file; shown file 5 70",
    ),
    (
        "file",
        8,
        0,
        8,
        "truncate /file 3; stat /file; shown file 5 70",
    ),
    (
        "file",
        1,
        0o100644,
        8,
        "unmark /file; stat /file; shown file 5 70",
    ),
    ("dir", 1, 0o040755, 8, "stat /dir; shown dir 5 70"),
    ("file", 6, 0, 8, "stat /file; shown file 5 70"),
    ("file", 2, 0, 7, "refused 1"),
    ("?", 8, 0, 8, "refused 116"),
];

#[test]
fn attributes_are_set(rt: HostRuntime) {
    for (at, valid, mode, uid, want) in SET {
        let operation = Operation::SetAttr(setting(*valid, *mode, *uid));
        assert!(rt; is_told(&rt, at, &operation, want), "{want}");
    }
}

const READING: ReadIn = ReadIn {
    fh: 0,
    offset: 2,
    size: 3,
    read_flags: 0,
    lock_owner: 0,
    flags: 0,
};

const WRITING: WriteIn = WriteIn {
    fh: 0,
    offset: 2,
    size: 3,
    write_flags: 0,
    lock_owner: 0,
    flags: 0,
};

const OPENING: OpenIn = OpenIn {
    flags: 0,
    open_flags: 0,
};

// O_WRONLY and O_CREAT; with O_EXCL, of an executable file.
const MAKING: CreateIn = CreateIn {
    flags: 0o101,
    mode: 0o100644,
    umask: 0o022,
    open_flags: 0,
};

const MAKING_NEW: CreateIn = CreateIn {
    flags: 0o301,
    mode: 0o100755,
    umask: 0o022,
    open_flags: 0,
};

// A file that is executable, and a pipe.
const FILE: MkNodIn = MkNodIn {
    mode: 0o100755,
    rdev: 0,
    umask: 0o022,
};

const PIPE: MkNodIn = MkNodIn {
    mode: 0o010644,
    rdev: 0,
    umask: 0o022,
};

const DIRECTORY: MkDirIn = MkDirIn {
    mode: 0o755,
    umask: 0o022,
};

const MOVING: RenameIn = RenameIn { newdir: 3 };

// RENAME_NOREPLACE, and RENAME_EXCHANGE.
const MOVING_IF_FREE: Rename2In = Rename2In {
    newdir: 3,
    flags: 1,
};

const EXCHANGING: Rename2In = Rename2In {
    newdir: 3,
    flags: 2,
};

// Room in a file of 5 bytes: for its last three, for more, for more than a file may have, and for room that isn't seen.
const ROOM: FallocateIn = FallocateIn {
    fh: 0,
    offset: 2,
    length: 3,
    mode: 0,
};

const MORE_ROOM: FallocateIn = FallocateIn {
    fh: 0,
    offset: 2,
    length: (1 << 30) - 2,
    mode: 0,
};

const MOST_ROOM: FallocateIn = FallocateIn {
    fh: 0,
    offset: 2,
    length: (1 << 30) - 1,
    mode: 0,
};

const ENDLESS_ROOM: FallocateIn = FallocateIn {
    fh: 0,
    offset: u64::MAX,
    length: u64::MAX,
    mode: 0,
};

const KEPT_ROOM: FallocateIn = FallocateIn {
    fh: 0,
    offset: 2,
    length: 3,
    mode: 1,
};

// The name of a node, an operation on it, and what that asks and comes to.
const TOLD: &[(&str, Operation<'static>, &str)] = &[
    (
        "",
        Operation::Lookup(b"file"),
        "stat /file; found file 5 70",
    ),
    (
        "dir",
        Operation::Lookup(b"file"),
        "stat /dir/file; found file 5 70",
    ),
    ("", Operation::Lookup(b"none"), "stat /none; absent"),
    ("", Operation::Lookup(b"lost"), "stat /lost; refused 5"),
    ("", Operation::Lookup(b".."), "refused 22"),
    ("?", Operation::Lookup(b"file"), "refused 2"),
    ("?", Operation::Symlink(b"made", b"to"), "refused 2"),
    ("?", Operation::MkNod(FILE, b"made"), "refused 2"),
    ("?", Operation::MkDir(DIRECTORY, b"made"), "refused 2"),
    ("?", Operation::Unlink(b"file"), "refused 2"),
    ("?", Operation::RmDir(b"dir"), "refused 2"),
    ("?", Operation::Create(MAKING_NEW, b"made"), "refused 2"),
    (
        "?",
        Operation::Rename(MOVING, b"file", b"none"),
        "refused 2",
    ),
    (
        "?",
        Operation::Rename2(MOVING_IF_FREE, b"file", b"none"),
        "refused 2",
    ),
    ("?", Operation::ReadDir(READING), "done"),
    ("?", Operation::OpenDir(OPENING), "refused 116"),
    ("?", Operation::Open(OPENING), "refused 116"),
    ("?", Operation::Read(READING), "refused 116"),
    ("link", Operation::ReadLink, "readlink /link; bytes target"),
    (
        "",
        Operation::Symlink(b"made", b"to"),
        "symlink /made to; stat /made; found exec 0 71",
    ),
    (
        "",
        Operation::MkNod(FILE, b"made"),
        "create /made; mark /made; stat /made; found exec 0 71",
    ),
    ("", Operation::MkNod(PIPE, b"made"), "refused 1"),
    (
        "",
        Operation::MkDir(DIRECTORY, b"made"),
        "mkdir /made; stat /made; found exec 0 71",
    ),
    ("", Operation::Unlink(b"file"), "unlink /file; done"),
    ("", Operation::RmDir(b"dir"), "rmdir /dir; done"),
    (
        "",
        Operation::Rename(MOVING, b"file", b"none"),
        "rename /file /dir/none; done",
    ),
    (
        "",
        Operation::Rename2(MOVING_IF_FREE, b"file", b"none"),
        "kind /dir/none; rename /file /dir/none; done",
    ),
    (
        "",
        Operation::Rename2(MOVING_IF_FREE, b"file", b"link"),
        "kind /dir/link; refused 17",
    ),
    (
        "",
        Operation::Rename2(EXCHANGING, b"file", b"link"),
        "refused 22",
    ),
    (
        "",
        Operation::Link(LinkIn { oldnodeid: 2 }, b"made"),
        "refused 1",
    ),
    ("file", Operation::Open(OPENING), "kind /file; opened"),
    ("file", Operation::Fallocate(ROOM), "stat /file; done"),
    (
        "file",
        Operation::Fallocate(MORE_ROOM),
        "stat /file; truncate /file 1073741824; done",
    ),
    ("file", Operation::Fallocate(MOST_ROOM), "refused 27"),
    ("file", Operation::Fallocate(ENDLESS_ROOM), "refused 27"),
    ("file", Operation::Fallocate(KEPT_ROOM), "refused 95"),
    ("lost", Operation::Fallocate(ROOM), "stat /lost; refused 5"),
    ("?", Operation::Fallocate(ROOM), "refused 116"),
    ("link", Operation::Open(OPENING), "kind /link; refused 40"),
    ("dir", Operation::Open(OPENING), "kind /dir; refused 21"),
    ("none", Operation::Open(OPENING), "kind /none; refused 2"),
    ("dir", Operation::OpenDir(OPENING), "kind /dir; opened"),
    (
        "file",
        Operation::OpenDir(OPENING),
        "kind /file; refused 20",
    ),
    (
        "file",
        Operation::Read(READING),
        "read /file 2 3; bytes hello",
    ),
    (
        "file",
        Operation::Write(WRITING, b"xyz"),
        "patch /file 2 xyz; written 3",
    ),
    (
        "dir",
        Operation::ReadDir(READING),
        "list /dir after file 1000; rows 1 of more",
    ),
    (
        "",
        Operation::Create(MAKING_NEW, b"made"),
        "create /made; mark /made; stat /made; made exec 0 71",
    ),
    (
        "",
        Operation::Create(MAKING_NEW, b"file"),
        "create /file; refused 17",
    ),
    (
        "",
        Operation::Create(MAKING, b"file"),
        "create /file; stat /file; made file 5 70",
    ),
    (
        "",
        Operation::Create(MAKING, b"dir"),
        "create /dir; stat /dir; refused 21",
    ),
    ("", Operation::StatFs, "space"),
    ("", Operation::Destroy, "done"),
    (
        "file",
        Operation::Access(AccessIn { mask: 1 }),
        "refused 38",
    ),
    ("file", Operation::Forget(ForgetIn { nlookup: 1 }), "silent"),
];

#[test]
fn operations_ask_and_are_told(rt: HostRuntime) {
    for (at, operation, want) in TOLD {
        assert!(rt; is_told(&rt, at, operation, want), "{want}");
    }
    let node = Operation::GetAttr(GetAttrIn {
        getattr_flags: 0,
        fh: 0,
    });
    assert!(rt; is_told(&rt, "", &node, "stat ; shown dir 5 70"));
}

// To a directory that was removed nothing is moved, and from there neither; what is too far away is refused as such.
#[test]
fn nothing_moves_to_a_removed_directory(rt: HostRuntime) {
    let move_file = Operation::Rename(MOVING, b"file", b"none");
    let move_if_free = Operation::Rename2(MOVING_IF_FREE, b"file", b"none");
    for operation in [move_file, move_if_free] {
        assert!(rt;
            is_told_of(&rt, "", "?", &operation, "refused 2"),
            "to there"
        );
        assert!(rt;
            is_told_of(&rt, "?", "", &operation, "refused 2"),
            "from there"
        );
        assert!(rt;
            is_told_of(&rt, "", "far", &operation, "refused 36"),
            "too far"
        );
    }
    assert!(rt;
        is_told(&rt, "far", &Operation::Lookup(b"file"), "refused 36"),
        "a name"
    );
    assert!(rt;
        is_told(&rt, "far", &Operation::ReadDir(READING), "refused 36"),
        "a listing"
    );
}
