use eden_model::{Id, ObjKind};

/// An object as Git has it: its id, its kind, and its framed bytes.
#[derive(Clone, Copy)]
pub struct Sample {
    pub id: Id,
    pub kind: ObjKind,
    pub framed: &'static [u8],
}

/// The blob without bytes.
pub const EMPTY_BLOB: Sample = Sample {
    id: Id {
        bytes: [
            0xe6, 0x9d, 0xe2, 0x9b, 0xb2, 0xd1, 0xd6, 0x43, 0x4b, 0x8b, 0x29, 0xae, 0x77, 0x5a,
            0xd8, 0xc2, 0xe4, 0x8c, 0x53, 0x91,
        ],
    },
    kind: ObjKind::Blob,
    framed: b"blob 0\0",
};

/// The blob of `version 1` and a line feed.
pub const VERSION_1: Sample = Sample {
    id: Id {
        bytes: [
            0x83, 0xba, 0xae, 0x61, 0x80, 0x4e, 0x65, 0xcc, 0x73, 0xa7, 0x20, 0x1a, 0x72, 0x52,
            0x75, 0x0c, 0x76, 0x06, 0x6a, 0x30,
        ],
    },
    kind: ObjKind::Blob,
    framed: b"blob 10\0version 1\n",
};

/// The blob of `version 2` and a line feed.
pub const VERSION_2: Sample = Sample {
    id: Id {
        bytes: [
            0x1f, 0x7a, 0x7a, 0x47, 0x2a, 0xbf, 0x3d, 0xd9, 0x64, 0x3f, 0xd6, 0x15, 0xf6, 0xda,
            0x37, 0x9c, 0x4a, 0xcb, 0x3e, 0x3a,
        ],
    },
    kind: ObjKind::Blob,
    framed: b"blob 10\0version 2\n",
};

/// The blob of `new file` and a line feed.
pub const NEW_FILE: Sample = Sample {
    id: Id {
        bytes: [
            0xfa, 0x49, 0xb0, 0x77, 0x97, 0x23, 0x91, 0xad, 0x58, 0x03, 0x70, 0x50, 0xf2, 0xa7,
            0x5f, 0x74, 0xe3, 0x67, 0x1e, 0x92,
        ],
    },
    kind: ObjKind::Blob,
    framed: b"blob 9\0new file\n",
};

/// The tree without entries.
pub const EMPTY_TREE: Sample = Sample {
    id: Id {
        bytes: [
            0x4b, 0x82, 0x5d, 0xc6, 0x42, 0xcb, 0x6e, 0xb9, 0xa0, 0x60, 0xe5, 0x4b, 0xf8, 0xd6,
            0x92, 0x88, 0xfb, 0xee, 0x49, 0x04,
        ],
    },
    kind: ObjKind::Tree,
    framed: b"tree 0\0",
};

/// The tree with the one file `test.txt`, which is `VERSION_1`.
pub const ONE_FILE: Sample = Sample {
    id: Id {
        bytes: [
            0xd8, 0x32, 0x9f, 0xc1, 0xcc, 0x93, 0x87, 0x80, 0xff, 0xdd, 0x9f, 0x94, 0xe0, 0xd3,
            0x64, 0xe0, 0xea, 0x74, 0xf5, 0x79,
        ],
    },
    kind: ObjKind::Tree,
    framed: b"tree 36\0100644 test.txt\0\x83\xba\xaea\x80Ne\xccs\xa7 \x1arRu\x0cv\x06j0",
};

/// The tree with the directory `bak`, which is `ONE_FILE`, and the files `new.txt` and `test.txt`, which are
/// `NEW_FILE` and `VERSION_2`.
pub const TWO_FILES: Sample = Sample {
    id: Id {
        bytes: [
            0x3c, 0x4e, 0x9c, 0xd7, 0x89, 0xd8, 0x8d, 0x8d, 0x89, 0xc1, 0x07, 0x37, 0x07, 0xc3,
            0x58, 0x5e, 0x41, 0xb0, 0xe6, 0x14,
        ],
    },
    kind: ObjKind::Tree,
    framed: b"tree 101\040000 bak\0\xd82\x9f\xc1\xcc\x93\x87\x80\xff\xdd\x9f\x94\xe0\xd3d\xe0\xeat\xf5y\
        100644 new.txt\0\xfaI\xb0w\x97#\x91\xadX\x03pP\xf2\xa7_t\xe3g\x1e\x92\
        100644 test.txt\0\x1fzzG*\xbf=\xd9d?\xd6\x15\xf6\xda7\x9cJ\xcb>:",
};

/// The blob of `new.txt`, as the target of a link.
pub const TARGET: Sample = Sample {
    id: Id {
        bytes: [
            0xc0, 0x52, 0x8f, 0xd6, 0xcc, 0x98, 0x8c, 0x0a, 0x40, 0xce, 0x0b, 0xe1, 0x1b, 0xc1,
            0x92, 0xfc, 0x8d, 0xc5, 0x34, 0x6e,
        ],
    },
    kind: ObjKind::Blob,
    framed: b"blob 7\0new.txt",
};

/// The tree with the one entry `sub`, another repository's commit.
pub const ONE_MODULE: Sample = Sample {
    id: Id {
        bytes: [
            0xab, 0xb0, 0xd5, 0xd7, 0x13, 0xfd, 0xd6, 0x63, 0xed, 0xbd, 0x98, 0xf2, 0xd7, 0x67,
            0x03, 0xe9, 0x6d, 0xc6, 0xa7, 0x03,
        ],
    },
    kind: ObjKind::Tree,
    framed: b"tree 31\0160000 sub\0\x11\x11\x11\x11\x11\x11\x11\x11\x11\x11\x11\x11\x11\x11\x11\x11\x11\x11\x11\x11",
};

/// The tree with an entry of each kind: the directory `bak`, which is `TWO_FILES`, the executable file `new.txt`, which
/// is `VERSION_1`, another repository's commit `sub`, and the link `test.txt`, which is `TARGET`.
pub const ALL_KINDS: Sample = Sample {
    id: Id {
        bytes: [
            0x45, 0xc0, 0xd5, 0xf6, 0x29, 0x59, 0xe5, 0xe9, 0xa5, 0x8c, 0x92, 0xc6, 0x3c, 0x30,
            0x75, 0x9e, 0x25, 0x91, 0x71, 0x41,
        ],
    },
    kind: ObjKind::Tree,
    framed: b"tree 132\040000 bak\0<N\x9c\xd7\x89\xd8\x8d\x8d\x89\xc1\x077\x07\xc3X^A\xb0\xe6\x14\
        100755 new.txt\0\x83\xba\xaea\x80Ne\xccs\xa7 \x1arRu\x0cv\x06j0160000 sub\0\x11\x11\x11\x11\x11\x11\x11\x11\
        \x11\x11\x11\x11\x11\x11\x11\x11\x11\x11\x11\x11120000 test.txt\0\xc0R\x8f\xd6\xcc\x98\x8c\n\
        @\xce\x0b\xe1\x1b\xc1\x92\xfc\x8d\xc54n",
};
