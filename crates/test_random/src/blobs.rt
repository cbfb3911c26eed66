use eden_model::{Cause, Id, ObjKind};
use test_samples::{EMPTY_BLOB, EMPTY_TREE, NEW_FILE, Sample, TARGET, VERSION_1, VERSION_2};

/// A blob that says that it is longer.
const CUT: Sample = Sample {
    id: Id {
        bytes: [
            0x50, 0x5d, 0x09, 0xc7, 0xcb, 0x62, 0x8d, 0xcc, 0xd7, 0x59, 0x0a, 0x27, 0x19, 0xb1,
            0x0b, 0x21, 0xbd, 0xd6, 0x9c, 0x64,
        ],
    },
    kind: ObjKind::Blob,
    framed: b"blob 7\0abc",
};

/// A blob that the repository lacks.
const LOST: Sample = Sample {
    id: Id { bytes: [0x22; 20] },
    kind: ObjKind::Blob,
    framed: b"",
};

/// What stands in a blob's place: its object, and its content, or why it has none.
pub(crate) struct Blob {
    pub(crate) object: Sample,
    pub(crate) content: Result<&'static [u8], Cause>,
}

/// What the files and links of a random commit are. Three have no content.
static BLOBS: [Blob; 8] = [
    Blob {
        object: EMPTY_BLOB,
        content: Ok(b""),
    },
    Blob {
        object: VERSION_1,
        content: Ok(b"version 1\n"),
    },
    Blob {
        object: VERSION_2,
        content: Ok(b"version 2\n"),
    },
    Blob {
        object: NEW_FILE,
        content: Ok(b"new file\n"),
    },
    Blob {
        object: TARGET,
        content: Ok(b"new.txt"),
    },
    Blob {
        object: EMPTY_TREE,
        content: Err(Cause::WrongKind),
    },
    Blob {
        object: CUT,
        content: Err(Cause::Malformed),
    },
    Blob {
        object: LOST,
        content: Err(Cause::Missing),
    },
];

impl Blob {
    /// Its framed bytes. None if the repository lacks it.
    pub(crate) fn framed(&self) -> Option<&'static [u8]> {
        match self.content {
            Err(Cause::Missing) => None,
            _ => Some(self.object.framed),
        }
    }
}

/// The blob of that index modulo their number.
pub(crate) fn blob_at(index: usize) -> &'static Blob {
    &BLOBS[index % 8]
}

/// The blob of that id. None if no file and no link of a random commit has it.
pub(crate) fn blob_of(id: Id) -> Option<&'static Blob> {
    for blob in &BLOBS {
        if blob.object.id == id {
            return Some(blob);
        }
    }
    None
}
