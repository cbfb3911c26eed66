// The ids that Git gives, and what each test of `check` refuses.
ghost use Rattle.std.specs.Prelude.{◌≡◌};
ghost use Rattle.eden_model.specs.declared.id.ObjKind.TheVariants as kinds;

use eden_object::{
    Cause, Id, Key, Mode, Name, ObjKind, Object, TreeEntry, check, decode_blob, decode_tree,
    encode_blob, encode_tree, id_of, is_encodable, parse_id,
};
use std::alloc::Global;
use std::process::Abort;

const EMPTY_BLOB: [u8; 20] = [
    0xe6, 0x9d, 0xe2, 0x9b, 0xb2, 0xd1, 0xd6, 0x43, 0x4b, 0x8b, 0x29, 0xae, 0x77, 0x5a, 0xd8, 0xc2,
    0xe4, 0x8c, 0x53, 0x91,
];

const EMPTY_TREE: [u8; 20] = [
    0x4b, 0x82, 0x5d, 0xc6, 0x42, 0xcb, 0x6e, 0xb9, 0xa0, 0x60, 0xe5, 0x4b, 0xf8, 0xd6, 0x92, 0x88,
    0xfb, 0xee, 0x49, 0x04,
];

const HELLO: [u8; 20] = [
    0xce, 0x01, 0x36, 0x25, 0x03, 0x0b, 0xa8, 0xdb, 0xa9, 0x06, 0xf7, 0x56, 0x96, 0x7f, 0x9e, 0x9c,
    0xa3, 0x94, 0x46, 0x4a,
];

const VERSION_1: [u8; 20] = [
    0x83, 0xba, 0xae, 0x61, 0x80, 0x4e, 0x65, 0xcc, 0x73, 0xa7, 0x20, 0x1a, 0x72, 0x52, 0x75, 0x0c,
    0x76, 0x06, 0x6a, 0x30,
];

const VERSION_2: [u8; 20] = [
    0x1f, 0x7a, 0x7a, 0x47, 0x2a, 0xbf, 0x3d, 0xd9, 0x64, 0x3f, 0xd6, 0x15, 0xf6, 0xda, 0x37, 0x9c,
    0x4a, 0xcb, 0x3e, 0x3a,
];

const NEW_FILE: [u8; 20] = [
    0xfa, 0x49, 0xb0, 0x77, 0x97, 0x23, 0x91, 0xad, 0x58, 0x03, 0x70, 0x50, 0xf2, 0xa7, 0x5f, 0x74,
    0xe3, 0x67, 0x1e, 0x92,
];

const TREE_A: [u8; 20] = [
    0xd8, 0x32, 0x9f, 0xc1, 0xcc, 0x93, 0x87, 0x80, 0xff, 0xdd, 0x9f, 0x94, 0xe0, 0xd3, 0x64, 0xe0,
    0xea, 0x74, 0xf5, 0x79,
];

const TREE_B: [u8; 20] = [
    0x3c, 0x4e, 0x9c, 0xd7, 0x89, 0xd8, 0x8d, 0x8d, 0x89, 0xc1, 0x07, 0x37, 0x07, 0xc3, 0x58, 0x5e,
    0x41, 0xb0, 0xe6, 0x14,
];

/// An object of Git: its id, its kind and its framed bytes.
struct Known {
    id: [u8; 20],
    kind: ObjKind,
    framed: &'static [u8],
}

static KNOWN: [Known; 8] = [
    Known {
        id: EMPTY_BLOB,
        kind: ObjKind::Blob,
        framed: b"blob 0\0",
    },
    Known {
        id: HELLO,
        kind: ObjKind::Blob,
        framed: b"blob 6\0hello\n",
    },
    Known {
        id: VERSION_1,
        kind: ObjKind::Blob,
        framed: b"blob 10\0version 1\n",
    },
    Known {
        id: VERSION_2,
        kind: ObjKind::Blob,
        framed: b"blob 10\0version 2\n",
    },
    Known {
        id: NEW_FILE,
        kind: ObjKind::Blob,
        framed: b"blob 9\0new file\n",
    },
    Known {
        id: EMPTY_TREE,
        kind: ObjKind::Tree,
        framed: b"tree 0\0",
    },
    Known {
        id: TREE_A,
        kind: ObjKind::Tree,
        framed: b"tree 36\0100644 test.txt\0\x83\xba\xaea\x80Ne\xccs\xa7 \x1arRu\x0cv\x06j0",
    },
    Known {
        id: TREE_B,
        kind: ObjKind::Tree,
        framed: b"tree 101\040000 bak\0\xd82\x9f\xc1\xcc\x93\x87\x80\xff\xdd\x9f\x94\xe0\xd3d\xe0\xeat\xf5y\
            100644 new.txt\0\xfaI\xb0w\x97#\x91\xadX\x03pP\xf2\xa7_t\xe3g\x1e\x92\
            100644 test.txt\0\x1fzzG*\xbf=\xd9d?\xd6\x15\xf6\xda7\x9cJ\xcb>:",
    },
];

fn is_known(known: &Known) -> bool {
    let id = Id { bytes: known.id };
    id_of(known.framed) == id && check(id, known.kind, known.framed) == Ok(())
}

#[test]
fn objects_of_git(rt: HostRuntime) {
    for (at, known) in KNOWN.iter().enumerate() {
        assert!(rt; is_known(known), "at {at}");
    }
}

#[test]
fn ids_as_text(rt: HostRuntime) {
    let text = "ce013625030ba8dba906f756967f9e9ca394464a";
    assert!(rt; parse_id(text) == Some(Id { bytes: HELLO }));
    assert!(rt; parse_id("CE013625030ba8dba906f756967f9e9ca394464a") == None);
}

/// The tree of one file.
const FRAMED_A: &[u8] =
    b"tree 36\0100644 test.txt\0\x83\xba\xaea\x80Ne\xccs\xa7 \x1arRu\x0cv\x06j0";

/// Bytes that are asked for under their own id, as what, and why they aren't.
struct Refused {
    kind: ObjKind,
    framed: &'static [u8],
    cause: Cause,
}

static REFUSED: [Refused; 10] = [
    Refused {
        kind: ObjKind::Blob,
        framed: FRAMED_A,
        cause: Cause::WrongKind,
    },
    Refused {
        kind: ObjKind::Blob,
        framed: b"commit 0\0",
        cause: Cause::WrongKind,
    },
    Refused {
        kind: ObjKind::Blob,
        framed: b"blob 3\0hi",
        cause: Cause::Malformed,
    },
    Refused {
        kind: ObjKind::Blob,
        framed: b"blob 02\0hi",
        cause: Cause::Malformed,
    },
    Refused {
        kind: ObjKind::Blob,
        framed: b"blob 36893488147419103234\0hi",
        cause: Cause::Malformed,
    },
    Refused {
        kind: ObjKind::Blob,
        framed: b"blob \0",
        cause: Cause::Malformed,
    },
    Refused {
        kind: ObjKind::Blob,
        framed: b"note 2\0hi",
        cause: Cause::Malformed,
    },
    // One byte is cut, and the length is right.
    Refused {
        kind: ObjKind::Tree,
        framed: b"tree 35\0100644 test.txt\0\x83\xba\xaea\x80Ne\xccs\xa7 \x1arRu\x0cv\x06j",
        cause: Cause::Malformed,
    },
    // A file and a directory of one name, with another name between them, as Git would order them.
    Refused {
        kind: ObjKind::Tree,
        framed: b"tree 88\0\
            100644 a\0\x01\x01\x01\x01\x01\x01\x01\x01\x01\x01\x01\x01\x01\x01\x01\x01\x01\x01\x01\x01\
            100644 a-b\0\x02\x02\x02\x02\x02\x02\x02\x02\x02\x02\x02\x02\x02\x02\x02\x02\x02\x02\x02\x02\
            40000 a\0\x03\x03\x03\x03\x03\x03\x03\x03\x03\x03\x03\x03\x03\x03\x03\x03\x03\x03\x03\x03",
        cause: Cause::Malformed,
    },
    Refused {
        kind: ObjKind::Tree,
        framed: b"tree 86\0\
            100644 b\0\x01\x01\x01\x01\x01\x01\x01\x01\x01\x01\x01\x01\x01\x01\x01\x01\x01\x01\x01\x01\
            100644 a\0\x02\x02\x02\x02\x02\x02\x02\x02\x02\x02\x02\x02\x02\x02\x02\x02\x02\x02\x02\x02\
            40000 b\0\x03\x03\x03\x03\x03\x03\x03\x03\x03\x03\x03\x03\x03\x03\x03\x03\x03\x03\x03\x03",
        cause: Cause::Malformed,
    },
];

fn is_refused(refused: &Refused) -> bool {
    check(id_of(refused.framed), refused.kind, refused.framed) == Err(refused.cause)
}

#[test]
fn refusals(rt: HostRuntime) {
    for (at, refused) in REFUSED.iter().enumerate() {
        assert!(rt; is_refused(refused), "at {at}");
    }
}

#[test]
fn bytes_of_another_object_are_refused(rt: HostRuntime) {
    let id = Id { bytes: HELLO };
    assert!(rt; check(id, ObjKind::Tree, FRAMED_A) == Err(Cause::BadDigest));
}

// Each spelling of a mode, and names against their order.
const MODES_BODY: &[u8] =
    b"40000 g\0AAAAAAAAAAAAAAAAAAAA040000 f\0BBBBBBBBBBBBBBBBBBBB100644 e\0CCCCCCCCCCCCCCCCCCCC\
        100664 d\0DDDDDDDDDDDDDDDDDDDD100755 c\0EEEEEEEEEEEEEEEEEEEE120000 b\0FFFFFFFFFFFFFFFFFFFF\
        160000 a\0GGGGGGGGGGGGGGGGGGGG";

/// A mode, the one letter of a name, and the letter of which its id is.
const MODES: &[(Mode, u8, u8)] = &[
    (Mode::Dir, b'g', b'A'),
    (Mode::Dir, b'f', b'B'),
    (Mode::File, b'e', b'C'),
    (Mode::File, b'd', b'D'),
    (Mode::Exec, b'c', b'E'),
    (Mode::Link, b'b', b'F'),
    (Mode::Gitlink, b'a', b'G'),
];

fn decoded(rt: &impl Abort, alloc: Global, body: &[u8]) -> Option<Vec<TreeEntry>> {
    decode_tree(alloc, body).expect(rt, "memory")
}

fn have_modes(entries: &[TreeEntry]) -> bool {
    for (at, (mode, name, id)) in MODES.iter().enumerate() {
        if !has(entries.get(at), *mode, &[*name], [*id; 20]) {
            return false;
        }
    }
    entries.len() == 7
}

fn has_modes(rt: &impl Abort, alloc: Global, body: &[u8]) -> bool {
    let entries = decoded(rt, alloc, body).expect(rt, "a tree");
    let have_modes = have_modes(entries.as_slice());
    drop(entries);
    have_modes
}

#[test]
fn every_mode(rt: HostRuntime) {
    assert!(rt; has_modes(&rt, rt.alloc(), MODES_BODY));
}

// Whether there is an entry, and it has that mode, that name and that id.
fn has(entry: Option<&TreeEntry>, mode: Mode, name: &[u8], id: [u8; 20]) -> bool {
    match entry {
        Some(entry) => {
            entry.mode == mode && entry.name.as_slice() == name && entry.id.bytes == id
        }
        None => false,
    }
}

#[test]
fn bodies_of_blobs(rt: HostRuntime) {
    assert!(rt; decode_blob(b"blob 6\0hello\n") == Some(b"hello\n".as_slice()));
    assert!(rt; decode_blob(b"tree 0\0") == None);
}

fn is_tree(rt: &impl Abort, alloc: Global, body: &[u8]) -> bool {
    let entries = decoded(rt, alloc, body);
    let is_tree = entries.is_some();
    drop(entries);
    is_tree
}

#[test]
fn a_cut_body_is_no_tree(rt: HostRuntime) {
    assert!(rt; !is_tree(&rt, rt.alloc(), b"100644 a"));
}

// The object in bytes that are asked for under their own id.
fn object(rt: &impl Abort, alloc: Global, kind: ObjKind, framed: Vec<u8>) -> Object
    ensures { result.kind ≡ kind }
{
    let id = id_of(framed.as_slice());
    Object::checked(alloc, Key { kind, id }, framed).expect(rt, "an object")
}

// Whether these framed bytes are the blob `hello`.
fn is_hello(rt: &impl Abort, alloc: Global, framed: &[u8]) -> bool {
    let copy = framed.to_vec(alloc).expect(rt, "memory");
    let hello = object(rt, alloc, ObjKind::Blob, copy);
    let is_hello = hello.kind() == ObjKind::Blob
        && hello.body() == b"hello\n".as_slice()
        && hello.len() == 6;
    drop(hello);
    is_hello && id_of(framed).bytes == HELLO
}

#[test]
fn contents(rt: HostRuntime) {
    assert!(rt; is_hello(&rt, rt.alloc(), b"blob 6\0hello\n"));
}

fn put(rt: &impl Abort, to: &mut Vec<u8>, bytes: &[u8]) {
    to.extend_from_slice(bytes).expect(rt, "memory");
}

fn put_file(rt: &impl Abort, body: &mut Vec<u8>, name: &str) {
    put(rt, body, b"100644 ");
    put(rt, body, name.as_bytes());
    put(rt, body, &[0]);
    put(rt, body, &[0x2a; 20]);
}

fn header(rt: &impl Abort, alloc: Global, len: usize) -> Vec<u8> {
    let header = format!(in alloc; "tree {len}\0").expect(rt, "memory");
    header.into_bytes()
}

/// The tree of these names, files of one id, in the order in which they are given.
fn tree_of(rt: &impl Abort, alloc: Global, names: &[&str]) -> Vec<u8> {
    let mut body = Vec::new(alloc);
    for name in names {
        put_file(rt, &mut body, name);
    }
    let mut framed = header(rt, alloc, body.len());
    put(rt, &mut framed, body.as_slice());
    drop(body);
    framed
}

fn entry_count(rt: &impl Abort, alloc: Global, tree: Object) -> usize
    requires { tree.kind ≡ kinds.Tree }
{
    let entries = tree.entries(alloc).expect(rt, "memory");
    let count = entries.len();
    drop(entries);
    drop(tree);
    count
}

/// How many entries the framed tree has, if it is one, or why it is none.
fn checked(rt: &impl Abort, alloc: Global, framed: Vec<u8>) -> Result<usize, Cause> {
    let key = Key {
        kind: ObjKind::Tree,
        id: id_of(framed.as_slice()),
    };
    match Object::checked(alloc, key, framed) {
        Ok(tree) => Ok(entry_count(rt, alloc, tree)),
        Err(cause) => Err(cause),
    }
}

/// How many entries the tree has, if it is one. What `Object::checked` answers is what `check` answers.
fn entries_of(rt: &impl Abort, alloc: Global, names: &[&str]) -> Option<usize> {
    let framed = tree_of(rt, alloc, names);
    let answer = check(id_of(framed.as_slice()), ObjKind::Tree, framed.as_slice());
    let count = checked(rt, alloc, framed);
    assert!(rt; answer.err() == count.err());
    count.ok()
}

/// Names in an order, and how many entries their tree has, if it is one.
const ORDERS: &[(&[&str], Option<usize>)] = &[
    (&["a", "a.b", "b"], Some(3)),
    (&["b", "a.b", "a", "c"], Some(4)),
    (&["a", "b", "b"], None),
    (&["b", "a", "c", "b"], None),
];

#[test]
fn trees_in_each_order(rt: HostRuntime) {
    for (names, count) in ORDERS {
        assert!(rt; entries_of(&rt, rt.alloc(), names) == *count);
    }
}

fn entry(rt: &impl Abort, alloc: Global, mode: Mode, name: &str, id: [u8; 20]) -> TreeEntry {
    let name = Vec::from_slice(alloc, name.as_bytes()).expect(rt, "memory");
    TreeEntry {
        mode,
        name: Name::new(name).expect(rt, "a name"),
        id: Id { bytes: id },
    }
}

// The framed tree, which can be written.
fn encoded(rt: &impl Abort, alloc: Global, entries: &[TreeEntry]) -> Vec<u8> {
    let is_tree = is_encodable(alloc, entries).expect(rt, "memory");
    assert!(rt; is_tree);
    encode_tree(alloc, entries).expect(rt, "memory")
}

/// A tree's entry: its mode, its name and its id.
type Row = (Mode, &'static str, [u8; 20]);

fn entries(rt: &impl Abort, alloc: Global, rows: &[Row]) -> Vec<TreeEntry> {
    let mut entries = Vec::new(alloc);
    for (mode, name, id) in rows {
        let entry = entry(rt, alloc, *mode, name, *id);
        entries.push(entry).expect(rt, "memory");
    }
    entries
}

const TWICE: &[Row] = &[(Mode::Dir, "a", TREE_A), (Mode::File, "a", VERSION_1)];

// The framed tree of these entries, which can be written.
fn written(rt: &impl Abort, alloc: Global, rows: &[Row]) -> Vec<u8> {
    let entries = entries(rt, alloc, rows);
    let framed = encoded(rt, alloc, entries.as_slice());
    drop(entries);
    framed
}

fn can_be_written(rt: &impl Abort, alloc: Global, rows: &[Row]) -> bool {
    let entries = entries(rt, alloc, rows);
    let is_tree = is_encodable(alloc, entries.as_slice()).expect(rt, "memory");
    drop(entries);
    is_tree
}

#[test]
fn names_that_come_twice_are_not_written(rt: HostRuntime) {
    assert!(rt; !can_be_written(&rt, rt.alloc(), TWICE));
}

// Whether these framed bytes have that length and that id.
fn is_of(framed: Vec<u8>, len: usize, id: [u8; 20]) -> bool {
    let is_of = framed.len() == len && id_of(framed.as_slice()).bytes == id;
    drop(framed);
    is_of
}

#[test]
fn written_blobs_of_git(rt: HostRuntime) {
    let blob = encode_blob(rt.alloc(), b"version 1\n").expect(&rt, "memory");
    assert!(rt; is_of(blob, 18, VERSION_1));
}

const ENTRIES_A: &[Row] = &[(Mode::File, "test.txt", VERSION_1)];

const ENTRIES_B: &[Row] = &[
    (Mode::File, "test.txt", VERSION_2),
    (Mode::File, "new.txt", NEW_FILE),
    (Mode::Dir, "bak", TREE_A),
];

// The tree of these entries has that length and that id.
fn check_written(rt: &impl Abort, alloc: Global, rows: &[Row], len: usize, id: [u8; 20]) {
    assert!(rt; is_of(written(rt, alloc, rows), len, id), "{len} bytes");
}

#[test]
fn written_trees_of_git(rt: HostRuntime) {
    let alloc = rt.alloc();
    check_written(&rt, alloc, &[], 7, EMPTY_TREE);
    check_written(&rt, alloc, ENTRIES_A, 44, TREE_A);
    check_written(&rt, alloc, ENTRIES_B, 110, TREE_B);
}

// What is written and read again.
fn read_again(rt: &impl Abort, alloc: Global, rows: &[Row]) -> Vec<TreeEntry> {
    let framed = written(rt, alloc, rows);
    let tree = object(rt, alloc, ObjKind::Tree, framed);
    let entries = tree.entries(alloc).expect(rt, "memory");
    drop(tree);
    entries
}

const EACH_MODE: &[Row] = &[
    (Mode::Dir, "a", TREE_A),
    (Mode::Exec, "a.b", VERSION_1),
    (Mode::Link, "c", HELLO),
    (Mode::Gitlink, "b", HELLO),
];

/// The same as Git orders them.
const ORDERED: &[Row] = &[
    (Mode::Exec, "a.b", VERSION_1),
    (Mode::Dir, "a", TREE_A),
    (Mode::Gitlink, "b", HELLO),
    (Mode::Link, "c", HELLO),
];

fn are_ordered(read: &[TreeEntry]) -> bool {
    for (at, (mode, name, id)) in ORDERED.iter().enumerate() {
        if !has(read.get(at), *mode, name.as_bytes(), *id) {
            return false;
        }
    }
    read.len() == 4
}

// `a` and `a.b` as Git orders them, if `a` is a directory. Each mode is written and read.
#[test]
fn written_trees_are_read(rt: HostRuntime) {
    let read = read_again(&rt, rt.alloc(), EACH_MODE);
    let are_ordered = are_ordered(read.as_slice());
    drop(read);
    assert!(rt; are_ordered);
}
