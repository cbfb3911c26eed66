//! Sessions that change what the commit shows.
use crate::sessions::{Session, check};
use test_samples::{ONE_FILE, VERSION_1};

const WRITTEN: &[Session] = &[
    (
        ONE_FILE,
        "write /test.txt 5 -\ntruncate /test.txt 1073741825\ntruncate /test.txt 0\nread /test.txt 0 9\n",
        "count 0\nerr 27 EFBIG\nok\ndata 0\n",
        &[ONE_FILE],
    ),
    (
        ONE_FILE,
        "setexec /test.txt 1\nkind /test.txt\nsetexec /test.txt 1\n",
        "ok\nkind exec\nok\n",
        &[ONE_FILE],
    ),
];

#[test]
fn writes_files(rt: HostRuntime) {
    check(&rt, rt.alloc(), WRITTEN);
}

const MOVED: &[Session] = &[
    (
        ONE_FILE,
        "mkdir /d\nrename /test.txt /d/t\nread /d/t 0 7\nrename /d /d/e\nrename /d /\nrename /d/t /d\n",
        "ok\nok\ndata 7 76657273696f6e\nerr 22 EINVAL\nerr 16 EBUSY\nerr 39 ENOTEMPTY\n",
        &[ONE_FILE, VERSION_1],
    ),
    (
        ONE_FILE,
        "mkdir /d\nrename /test.txt /d/t\nrmdir /d\nrename /d /d\nunlink /d\n",
        "ok\nok\nerr 39 ENOTEMPTY\nok\nerr 21 EISDIR\n",
        &[ONE_FILE],
    ),
];

#[test]
fn moves_entries(rt: HostRuntime) {
    check(&rt, rt.alloc(), MOVED);
}

const ADDED: &[Session] = &[
    (
        ONE_FILE,
        "symlink /l 612f62\nreadlink /l\nkind /l/x\nread /l 0 1\nsymlink /m -\n",
        "ok\ndata 3 612f62\nerr 20 ENOTDIR\nerr 22 EINVAL\nerr 2 ENOENT\n",
        &[ONE_FILE],
    ),
    (
        ONE_FILE,
        "symlink /l 612f62\nrename /l /test.txt\nkind /test.txt\n",
        "ok\nok\nkind link\n",
        &[ONE_FILE],
    ),
    (
        ONE_FILE,
        "create /a%2Db\nlist / - 9\nkind /a-b\n",
        "ok\nentries 2 file a%2Db file test.txt end\nerr 71 EPROTO\n",
        &[ONE_FILE],
    ),
];

#[test]
fn adds_entries(rt: HostRuntime) {
    check(&rt, rt.alloc(), ADDED);
}
