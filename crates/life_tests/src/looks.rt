//! Sessions that look alone: each object is asked for once, and only if a request needs it.
use crate::objects::{no_objects, put, samples};
use crate::sessions::{Session, check, said};
use std::alloc::Global;
use std::test::Fail;
use test_samples::{EMPTY_TREE, NEW_FILE, ONE_FILE, ONE_MODULE, TWO_FILES, VERSION_1, VERSION_2};

const FIRST_RUN: &[Session] = &[
    (
        ONE_FILE,
        "kind /\nread /test.txt 0 100\nlist / - 10\n",
        "kind dir\ndata 10 76657273696f6e20310a\nentries 1 file test.txt end\n",
        &[ONE_FILE, VERSION_1],
    ),
    (ONE_FILE, "", "", &[]),
    (ONE_FILE, "kind /", "err 71 EPROTO\n", &[]),
];

#[test]
fn serves_the_first_run(rt: HostRuntime) {
    check(&rt, rt.alloc(), FIRST_RUN);
}

const ASKED_FOR: &[Session] = &[
    (ONE_FILE, "kind /\n", "kind dir\n", &[]),
    (ONE_FILE, "kind /test.txt\n", "kind file\n", &[ONE_FILE]),
    (ONE_FILE, "read /test.txt 0 0\n", "data 0\n", &[ONE_FILE]),
    (
        TWO_FILES,
        "read /bak/test.txt 0 7\n",
        "data 7 76657273696f6e\n",
        &[TWO_FILES, ONE_FILE, VERSION_1],
    ),
    (
        TWO_FILES,
        "stat /bak\nstat /new.txt\nread /test.txt 0 100\nread /new.txt 0 100\n",
        "stat dir 0 2\nstat file 9 3\ndata 10 76657273696f6e20320a\ndata 9 6e65772066696c650a\n",
        &[TWO_FILES, NEW_FILE, VERSION_2],
    ),
];

#[test]
fn asks_only_for_what_a_request_needs(rt: HostRuntime) {
    check(&rt, rt.alloc(), ASKED_FOR);
}

const PARTS: &[Session] = &[(
    ONE_FILE,
    "read /test.txt 10 5\nread /test.txt 1073741824 5\nread /test.txt 0 65537\n",
    "data 0\ndata 0\nerr 22 EINVAL\n",
    &[ONE_FILE, VERSION_1],
)];

#[test]
fn reads_parts(rt: HostRuntime) {
    check(&rt, rt.alloc(), PARTS);
}

const PAGES: &[Session] = &[
    (
        EMPTY_TREE,
        "list / - 10\n",
        "entries 0 end\n",
        &[EMPTY_TREE],
    ),
    (
        TWO_FILES,
        "list / - 2\nlist / new.txt 10\nlist / - 0\nlist / - 1001\n",
        "entries 2 dir bak file new.txt more\nentries 1 file test.txt end\nerr 22 EINVAL\nerr 22 EINVAL\n",
        &[TWO_FILES],
    ),
];

#[test]
fn lists_pages(rt: HostRuntime) {
    check(&rt, rt.alloc(), PAGES);
}

const NOT_THERE: &[Session] = &[(
    ONE_FILE,
    "kind /test.txt/x\nkind /no/x\nlist /test.txt - 1\nread / 0 1\n",
    "err 20 ENOTDIR\nerr 2 ENOENT\nerr 20 ENOTDIR\nerr 21 EISDIR\n",
    &[ONE_FILE],
)];

#[test]
fn refuses_what_is_not_there(rt: HostRuntime) {
    check(&rt, rt.alloc(), NOT_THERE);
}

/// The front of a line, with this many times a piece after it.
fn line(alloc: Global, front: &str, piece: &str, count: usize) -> Result<String, Fail> {
    let mut line = String::from_str(alloc, front)?;
    for _ in 0..count {
        line.push_str(piece)?;
    }
    line.push_str("\n")?;
    Ok(line)
}

/// A name of this many letters, and a path of this many names: the front, the piece, and how many.
const LIMITS: &[(&str, &str, usize, &str)] = &[
    ("kind /", "a", 255, "err 2 ENOENT\n"),
    ("kind /", "a", 256, "err 36 ENAMETOOLONG\n"),
    ("kind ", "/a", 256, "err 2 ENOENT\n"),
    ("kind ", "/a", 257, "err 36 ENAMETOOLONG\n"),
];

#[test]
fn keeps_the_limits_of_names_and_paths(rt: HostRuntime) -> Result<(), Fail> {
    for (front, piece, count, wanted) in LIMITS {
        let line = line(rt.alloc(), front, piece, *count)?;
        let said = said(
            &rt,
            rt.alloc(),
            samples(rt.alloc())?,
            ONE_FILE,
            line.as_str(),
        );
        assert!(rt; said.as_slice() == wanted.as_bytes());
    }
    Ok(())
}

/// A submodule is an empty directory, which nothing is asked for.
const SUBMODULE: &[Session] = &[(
    ONE_MODULE,
    "kind /sub\nlist /sub - 10\ncreate /sub/a\nlist /sub - 10\n",
    "kind dir\nentries 0 end\nok\nentries 1 file a end\n",
    &[ONE_MODULE],
)];

#[test]
fn shows_a_submodule_as_an_empty_directory(rt: HostRuntime) {
    check(&rt, rt.alloc(), SUBMODULE);
}

const ONE_BYTE: &[Session] = &[(
    ONE_FILE,
    "read /test.txt 0 1\n",
    "data 1 76\n",
    &[ONE_FILE, VERSION_1],
)];

#[test]
fn believes_no_wrong_bytes(rt: HostRuntime) -> Result<(), Fail> {
    let mut objects = samples(rt.alloc())?;
    put(&mut objects, rt.alloc(), VERSION_1.id, b"blob 6\0hello\n")?;
    let said = said(&rt, rt.alloc(), objects, ONE_FILE, "read /test.txt 0 1\n");
    let wanted = "fault fetch 83baae61804e65cc73a7201a7252750c76066a30 BadDigest\n";
    assert!(rt; said.as_slice() == wanted.as_bytes());
    check(&rt, rt.alloc(), ONE_BYTE);
    Ok(())
}

#[test]
fn tells_of_missing_objects(rt: HostRuntime) -> Result<(), Fail> {
    let objects = no_objects(rt.alloc());
    let input = "kind /\nlist / - 1\nkind /\n";
    let said = said(&rt, rt.alloc(), objects, ONE_FILE, input);
    let wanted =
        "kind dir\nfault fetch d8329fc1cc938780ffdd9f94e0d364e0ea74f579 Missing\nkind dir\n";
    assert!(rt; said.as_slice() == wanted.as_bytes());
    Ok(())
}
