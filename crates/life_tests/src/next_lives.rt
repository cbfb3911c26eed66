//! What was changed is there in the next life over the same files, which asks for no more than it needs.
use crate::lives::{Life, Sizes, are_there, closed};
use eden_checkout::Opening;
use eden_overlay::MemoryFiles;
use std::alloc::Global;
use std::process::Abort;
use test_samples::{NEW_FILE, ONE_FILE, TWO_FILES, VERSION_1};

/// A life over no files, the files that it leaves, and a life over those.
#[derive(Clone, Copy)]
struct Row {
    first: Life,
    files: Sizes,
    again: Life,
}

/// If nothing was loaded the state alone is left.
const UNTOUCHED: Row = Row {
    first: Life {
        root: ONE_FILE,
        opening: Opening::Closed,
        history: Some(1_000),
        input: "kind /\n",
        said: "kind dir\n",
        asked: &[],
    },
    files: &[(0, 92)],
    again: Life {
        root: ONE_FILE,
        opening: Opening::Closed,
        history: Some(1_000),
        input: "kind /\nkind /test.txt\n",
        said: "kind dir\nkind file\n",
        asked: &[ONE_FILE],
    },
};

/// If nothing was changed the numbers of what was loaded are left beside it, and no tree object is asked for again.
const UNCHANGED: Row = Row {
    first: Life {
        root: ONE_FILE,
        opening: Opening::Closed,
        history: Some(1_000),
        input: "kind /\nkind /test.txt\n",
        said: "kind dir\nkind file\n",
        asked: &[ONE_FILE],
    },
    files: &[(0, 92), (1, 127)],
    again: Life {
        root: ONE_FILE,
        opening: Opening::Closed,
        history: Some(1_000),
        input: "stat /test.txt\n",
        said: "stat file 10 2\n",
        asked: &[VERSION_1],
    },
};

/// So it is if a file is made what it is already.
const PLAIN_ALREADY: Row = Row {
    first: Life {
        root: TWO_FILES,
        opening: Opening::Closed,
        history: Some(1_000),
        input: "setexec /new.txt 0\nsetexec /bak/test.txt 0\nkind /new.txt\n",
        said: "ok\nok\nkind file\n",
        asked: &[TWO_FILES, ONE_FILE],
    },
    files: &[(0, 92), (1, 199), (2, 127)],
    again: Life {
        root: TWO_FILES,
        opening: Opening::Closed,
        history: Some(1_000),
        input: "kind /bak/test.txt\n",
        said: "kind file\n",
        asked: &[],
    },
};

/// The whole of what is asked for again is in the files.
const WRITTEN: Row = Row {
    first: Life {
        root: ONE_FILE,
        opening: Opening::Closed,
        history: Some(1_000),
        input: "kind /test.txt\nwrite /test.txt 12 21\nread /test.txt 0 100\n",
        said: "kind file\ncount 1\ndata 13 76657273696f6e20310a000021\n",
        asked: &[ONE_FILE, VERSION_1],
    },
    files: &[(0, 92), (1, 87), (2, 77)],
    again: Life {
        root: ONE_FILE,
        opening: Opening::Closed,
        history: Some(1_000),
        input: "read /test.txt 0 100\nwrite /test.txt 0 56\nread /test.txt 0 7\n",
        said: "data 13 76657273696f6e20310a000021\ncount 1\ndata 7 56657273696f6e\n",
        asked: &[],
    },
};

/// What wasn't changed still comes from the commit.
const WRITTEN_IN_PART: Row = Row {
    first: Life {
        root: TWO_FILES,
        opening: Opening::Closed,
        history: Some(1_000),
        input: "write /new.txt 0 4e\n",
        said: "count 1\n",
        asked: &[TWO_FILES, NEW_FILE],
    },
    files: &[(0, 92), (1, 159), (3, 73)],
    again: Life {
        root: TWO_FILES,
        opening: Opening::Closed,
        history: Some(1_000),
        input: "read /new.txt 0 9\nread /bak/test.txt 0 7\n",
        said: "data 9 4e65772066696c650a\ndata 7 76657273696f6e\n",
        asked: &[ONE_FILE, VERSION_1],
    },
};

/// A file of the commit that was moved is one of the commit still.
const MOVED: Row = Row {
    first: Life {
        root: ONE_FILE,
        opening: Opening::Closed,
        history: Some(1_000),
        input: "mkdir /d\nrename /test.txt /d/t\nkind /test.txt\n",
        said: "ok\nok\nerr 2 ENOENT\n",
        asked: &[ONE_FILE],
    },
    files: &[(0, 92), (1, 80), (3, 100)],
    again: Life {
        root: ONE_FILE,
        opening: Opening::Closed,
        history: Some(1_000),
        input: "kind /test.txt\nread /d/t 0 7\n",
        said: "err 2 ENOENT\ndata 7 76657273696f6e\n",
        asked: &[VERSION_1],
    },
};

/// A line that is no request ends the session without a fault, and what came before it stays.
const NO_REQUEST: Row = Row {
    first: Life {
        root: ONE_FILE,
        opening: Opening::Closed,
        history: Some(1_000),
        input: "write /test.txt 12 21\nkind /a-b\nunlink /test.txt\n",
        said: "count 1\nerr 71 EPROTO\n",
        asked: &[ONE_FILE, VERSION_1],
    },
    files: &[(0, 92), (1, 87), (2, 77)],
    again: Life {
        root: ONE_FILE,
        opening: Opening::Closed,
        history: Some(1_000),
        input: "read /test.txt 12 9\n",
        said: "data 1 21\n",
        asked: &[],
    },
};

/// A change that the history has no room for isn't made, and a new life has room again.
const FULL: Row = Row {
    first: Life {
        root: ONE_FILE,
        opening: Opening::Closed,
        history: Some(1),
        input: "mkdir /d\nmkdir /e\nkind /..\n",
        said: "ok\nfault history 1\nerr 22 EINVAL\n",
        asked: &[ONE_FILE],
    },
    files: &[(0, 92), (1, 119), (3, 68)],
    again: Life {
        root: ONE_FILE,
        opening: Opening::Closed,
        history: Some(1),
        input: "list / - 9\n",
        said: "entries 2 dir d file test.txt end\n",
        asked: &[],
    },
};

fn check(rt: &impl Abort, alloc: Global, row: Row) {
    let mut files = closed(rt, alloc, MemoryFiles::new(alloc), &row.first);
    assert!(rt;
        are_there(alloc, &mut files, row.files),
        "{}",
        row.first.input
    );
    closed(rt, alloc, files, &row.again);
}

#[test]
fn changes_are_there_in_the_next_life(rt: HostRuntime) {
    for row in [WRITTEN, WRITTEN_IN_PART, MOVED] {
        check(&rt, rt.alloc(), row);
    }
}

#[test]
fn what_is_not_changed_comes_from_the_commit(rt: HostRuntime) {
    for row in [UNTOUCHED, UNCHANGED, PLAIN_ALREADY] {
        check(&rt, rt.alloc(), row);
    }
}

#[test]
fn only_requests_that_are_taken_change_something(rt: HostRuntime) {
    for row in [NO_REQUEST, FULL] {
        check(&rt, rt.alloc(), row);
    }
}
