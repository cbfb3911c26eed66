//! Own files put into an own root and taken out: what is read, and what is stored.

use crate::calls::What;
use crate::listing::Own;
use crate::names::{NEW, ROOT, TEST};
use crate::stored::Stored;
use crate::worked::{Does, Step, check};
use eden_model::Kind;

const FILE_2: Own = Own {
    kind: Kind::File,
    number: 2,
};

const FILE_3: Own = Own {
    kind: Kind::File,
    number: 3,
};

const FILE_4: Own = Own {
    kind: Kind::File,
    number: 4,
};

/// Files come to the root, one after the other, and one goes.
const FILES: &[Step] = &[
    (ROOT, Does::LoadOwn),
    (ROOT, Does::Give(Some(2))),
    (ROOT, Does::Put(b'c', FILE_2, Some(b"version 1\n"))),
    (TEST, Does::Reads(b"version 1\n")),
    (ROOT, Does::Give(Some(3))),
    (ROOT, Does::Put(b'b', FILE_3, Some(b"new file\n"))),
    (NEW, Does::Reads(b"new file\n")),
    (ROOT, Does::Give(Some(4))),
    (ROOT, Does::Put(b'c', FILE_4, Some(b"version 2\n"))),
    (TEST, Does::Reads(b"version 2\n")),
    (ROOT, Does::At(b'b', What::Take)),
    (ROOT, Does::Stored(Stored::Only(b"test.txt", 4))),
];

#[test]
fn own_files_come_and_go(rt: HostRuntime) {
    check(&rt, rt.alloc(), None, 2, FILES);
}
