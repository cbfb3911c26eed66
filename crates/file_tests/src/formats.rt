//! The files of an overlay as bytes: what is written, read and refused.
ghost use Rattle.std.specs.Prelude.{◌≡◌, ◌≤◌, ◌&&◌, length, not, true};
ghost use Rattle.eden_overlay_format.specs.Content.{content_most};
ghost use Rattle.eden_overlay_format.specs.Directory.{AreStorable, HasOrigin, is_own};
ghost use Rattle.eden_overlay_format.specs.Numbers.{none_is_own};
ghost use Rattle.eden_model.specs.declared.kind.Kind.TheVariants as kind;

use crate::told::require;
use eden_model::{Id, Kind, Name, Origin};
use eden_overlay_format::{
    DecodeFault, Identifier, Listing, Refusal, Spliced, State, StoredEntry, decode_dir,
    decode_file, decode_state, encode_dir, encode_file, encode_state, encode_unsealed_in,
    header_of,
};
use std::alloc::Global;
use std::process::Abort;

/// How a stored content or state of version 1 begins.
pub const FILE: [u8; 8] = [0x4f, 0x56, 0x46, 0x4c, 0, 0, 0, 1];

/// How one of version 2 begins, which is the version that is written.
pub const NEW_FILE: [u8; 8] = [0x4f, 0x56, 0x46, 0x4c, 0, 0, 0, 2];

const LATER_FILE: [u8; 8] = [0x4f, 0x56, 0x46, 0x4c, 0, 0, 0, 3];

/// How a stored directory of version 1 begins, and one of version 2.
pub const DIRECTORY: [u8; 8] = [0x4f, 0x56, 0x44, 0x52, 0, 0, 0, 1];

pub const NEW_DIRECTORY: [u8; 8] = [0x4f, 0x56, 0x44, 0x52, 0, 0, 0, 2];

/// A stored file of version 1: the first 8 bytes of its header, the 56 that say nothing, and its body.
pub fn stored(rt: &impl Abort, alloc: Global, front: &[u8], unread: u8, body: &[u8]) -> Vec<u8> {
    let mut bytes = front.to_vec(alloc).expect(rt, "memory");
    bytes.extend_from_slice(&[unread; 56]).expect(rt, "memory");
    bytes.extend_from_slice(body).expect(rt, "memory");
    bytes
}

/// One of version 2: the first 8 bytes, the body's length and SHA-1, 28 bytes that say nothing, and the body.
pub fn told(
    rt: &impl Abort,
    alloc: Global,
    front: &[u8],
    digest: &[u8],
    unread: u8,
    body: &[u8],
) -> Vec<u8> {
    let mut bytes = front.to_vec(alloc).expect(rt, "memory");
    let length = (body.len() as u64).to_be_bytes();
    bytes.extend_from_slice(&length).expect(rt, "memory");
    bytes.extend_from_slice(digest).expect(rt, "memory");
    bytes.extend_from_slice(&[unread; 28]).expect(rt, "memory");
    bytes.extend_from_slice(body).expect(rt, "memory");
    bytes
}

/// The first bytes.
pub fn cut<'a>(rt: &impl Abort, bytes: &'a [u8], len: usize) -> &'a [u8] {
    assert!(rt; len <= bytes.len());
    &bytes[..len]
}

/// The SHA-1 of `abc`, as FIPS 180 has it.
const ABC: [u8; 20] = [
    0xa9, 0x99, 0x3e, 0x36, 0x47, 0x06, 0x81, 0x6a, 0xba, 0x3e, 0x25, 0x71, 0x78, 0x50, 0xc2, 0x6c,
    0x9c, 0xd0, 0xd8, 0x9d,
];

/// The SHA-1 of no bytes.
const NOTHING: [u8; 20] = [
    0xda, 0x39, 0xa3, 0xee, 0x5e, 0x6b, 0x4b, 0x0d, 0x32, 0x55, 0xbf, 0xef, 0x95, 0x60, 0x18, 0x90,
    0xaf, 0xd8, 0x07, 0x09,
];

/// Why the first bytes of a stored content are refused.
fn refusal_of(rt: &impl Abort, file: &[u8], len: usize) -> Option<Refusal> {
    decode_file(cut(rt, file, len)).err()
}

#[test]
fn contents(rt: HostRuntime) {
    let abc = told(&rt, rt.alloc(), &NEW_FILE, &ABC, 0, b"abc");
    let written = encode_file(rt.alloc(), b"abc").expect(&rt, "memory");
    require(&rt, written == abc && abc.len() == 67, "written");
    require(
        &rt,
        refusal_of(&rt, &abc, 63) == Some(Refusal::Short),
        "too short",
    );
    require(
        &rt,
        refusal_of(&rt, &abc, 66) == Some(Refusal::BadLength),
        "a byte too few",
    );
}

#[test]
fn empty_contents(rt: HostRuntime) {
    let empty = encode_file(rt.alloc(), b"").expect(&rt, "memory");
    let want = told(&rt, rt.alloc(), &NEW_FILE, &NOTHING, 0, b"");
    require(&rt, empty == want && empty.len() == 64, "written");
}

/// Whether the bytes are room for a header, which is zeros, and those after it.
fn is_unsealed(bytes: &[u8], body: &[u8]) -> bool {
    match bytes.split_first_chunk::<64>() {
        Some((room, behind)) => *room == [0; 64] && behind == body,
        None => false,
    }
}

/// The content of those pieces is encoded as room for a header and these bytes.
fn encode(rt: &impl Abort, alloc: Global, content: Spliced<'_>, bytes: &[u8])
    requires { length content ≤ content_most }
{
    let unsealed = encode_unsealed_in(Vec::new(alloc), content).expect(rt, "memory");
    require(rt, is_unsealed(&unsealed, bytes), "room, and the bytes");
}

#[test]
fn spliced_contents(rt: HostRuntime) {
    let (alloc, old) = (rt.alloc(), b"hello");
    encode(&rt, alloc, Spliced::written(old, 1, b"ipp"), b"hippo");
    encode(
        &rt,
        alloc,
        Spliced::written(old, 7, b"you"),
        b"hello\0\0you",
    );
    encode(&rt, alloc, Spliced::written(old, 9, b""), b"hello");
    encode(&rt, alloc, Spliced::resized(old, 2), b"he");
    encode(&rt, alloc, Spliced::resized(old, 6), b"hello\0");
}

/// The content of those pieces lies in one piece, which is that one, or doesn't.
fn lie(rt: &impl Abort, content: Spliced<'_>, piece: Option<&[u8]>) {
    require(rt, content.as_slice() == piece, "in one piece");
}

#[test]
fn contents_in_one_piece(rt: HostRuntime) {
    let old = b"hello";
    lie(&rt, Spliced::whole(old), Some(old.as_slice()));
    lie(&rt, Spliced::written(b"", 0, old), Some(old.as_slice()));
    lie(&rt, Spliced::written(b"hip", 0, old), Some(old.as_slice()));
    lie(&rt, Spliced::written(b"", 1, old), None);
    lie(&rt, Spliced::written(old, 0, b"y"), None);
    lie(&rt, Spliced::resized(old, 1), Some(&old[..1]));
    lie(&rt, Spliced::resized(old, old.len() + 1), None);
    let abc = told(&rt, rt.alloc(), &NEW_FILE, &ABC, 0, b"abc");
    let header = header_of(Identifier::File, b"abc");
    require(&rt, header.as_slice() == cut(&rt, &abc, 64), "the header");
}

/// The front of a file of version 1, the byte that says nothing, and why the file is refused, if it is.
const FRONTS: &[(&[u8], u8, Option<Refusal>)] = &[
    (&FILE, 0, None),
    (&FILE, 7, None),
    (&DIRECTORY, 0, Some(Refusal::BadIdentifier)),
    (&LATER_FILE, 0, Some(Refusal::BadVersion)),
    (&NEW_FILE, 0, Some(Refusal::BadLength)),
];

/// Of one of version 2 the front, the digest, the byte that says nothing, the body, and why it is refused, if it is.
const TOLD_FRONTS: &[(&[u8], &[u8], u8, &[u8], Option<Refusal>)] = &[
    (&NEW_FILE, &ABC, 0, b"abc", None),
    (&NEW_FILE, &ABC, 7, b"abc", None),
    (&FILE, &NOTHING, 7, b"abc", None),
    (&NEW_FILE, &ABC, 0, b"abd", Some(Refusal::BadDigest)),
    (&NEW_FILE, &NOTHING, 0, b"abc", Some(Refusal::BadDigest)),
    (
        &NEW_DIRECTORY,
        &NOTHING,
        0,
        b"abc",
        Some(Refusal::BadIdentifier),
    ),
    (&LATER_FILE, &ABC, 0, b"abc", Some(Refusal::BadVersion)),
];

/// Why the file is refused; none where it is read as that content.
fn refusal(rt: &impl Abort, file: &[u8], body: &[u8]) -> Option<Refusal> {
    match decode_file(file) {
        Err(refusal) => Some(refusal),
        Ok(content) => {
            assert!(rt; content == body);
            None
        }
    }
}

#[test]
fn fronts(rt: HostRuntime) {
    for (front, unread, why) in FRONTS {
        let file = stored(&rt, rt.alloc(), front, *unread, b"hi");
        require(&rt, refusal(&rt, &file, b"hi") == *why, "of version 1");
    }
    for (front, digest, unread, body, why) in TOLD_FRONTS {
        let file = told(&rt, rt.alloc(), front, digest, *unread, body);
        require(&rt, refusal(&rt, &file, body) == *why, "of version 2");
    }
}

const STATE: State = State {
    root: Id { bytes: [0x11; 20] },
    next: 258,
};

const STATE_BODY: [u8; 28] = [
    0x11, 0x11, 0x11, 0x11, 0x11, 0x11, 0x11, 0x11, 0x11, 0x11, 0x11, 0x11, 0x11, 0x11, 0x11, 0x11,
    0x11, 0x11, 0x11, 0x11, 0, 0, 0, 0, 0, 0, 1, 2,
];

/// The SHA-1 of that body.
const STATE_DIGEST: [u8; 20] = [
    0x91, 0x2c, 0x95, 0xca, 0xec, 0xe1, 0x0e, 0xa6, 0x9c, 0xa1, 0xe1, 0x17, 0x36, 0x02, 0xe9, 0xea,
    0x9a, 0xc7, 0xb2, 0x68,
];

#[test]
fn states(rt: HostRuntime) {
    let bytes = told(&rt, rt.alloc(), &NEW_FILE, &STATE_DIGEST, 0, &STATE_BODY);
    let written = encode_state(rt.alloc(), STATE).expect(&rt, "memory");
    require(&rt, written == bytes && bytes.len() == 92, "written");
    require(&rt, decode_state(&bytes) == Ok(STATE), "read");
    let refused = Err(Refusal::BadLength);
    require(
        &rt,
        decode_state(cut(&rt, &bytes, 91)) == refused,
        "a byte too few",
    );
    let old = stored(&rt, rt.alloc(), &FILE, 0, &STATE_BODY);
    require(
        &rt,
        decode_state(&old) == Ok(STATE),
        "one of version 1 read",
    );
}

/// The body of a state whose next number is the root's.
const USED_UP: [u8; 28] = [
    0x11, 0x11, 0x11, 0x11, 0x11, 0x11, 0x11, 0x11, 0x11, 0x11, 0x11, 0x11, 0x11, 0x11, 0x11, 0x11,
    0x11, 0x11, 0x11, 0x11, 0, 0, 0, 0, 0, 0, 0, 1,
];

#[test]
fn bad_states(rt: HostRuntime) {
    let bytes = stored(&rt, rt.alloc(), &FILE, 0, &STATE_BODY);
    let refused = Err(Refusal::BadBody);
    require(
        &rt,
        decode_state(cut(&rt, &bytes, 91)) == refused,
        "a byte too few",
    );
    let short = Err(Refusal::Short);
    require(
        &rt,
        decode_state(cut(&rt, &bytes, 63)) == short,
        "too short",
    );
    let used_up = stored(&rt, rt.alloc(), &FILE, 0, &USED_UP);
    require(&rt, decode_state(&used_up) == refused, "no number left");
}

/// The body of a directory with one file `a`, number 5, whose content is its own.
const ONE_FILE: [u8; 16] = [0, 0, 0, 1, 0, 1, 0, 0, 0, 0, 0, 0, 0, 5, 1, 0x61];

fn is_one_file(entry: &StoredEntry) -> bool {
    entry.name.as_slice() == b"a".as_slice()
        && entry.kind == Kind::File
        && entry.origin == Origin::Own
        && entry.number == 5
}

#[test]
fn directories(rt: HostRuntime) {
    let bytes = stored(&rt, rt.alloc(), &DIRECTORY, 0, &ONE_FILE);
    let entries = decode_dir(rt.alloc(), &bytes).expect(&rt, "a directory");
    let is_so = entries.len() == 1 && is_one_file(&entries[0]);
    drop(entries);
    require(&rt, is_so, "one file");
}

/// The bodies: with a byte too many, with a name twice, with one entry of two, and with one of the most.
const BAD_BODIES: &[&[u8]] = &[
    &[0, 0, 0, 1, 0, 1, 0, 0, 0, 0, 0, 0, 0, 5, 1, 0x61, 0],
    &[
        0, 0, 0, 2, 0, 1, 0, 0, 0, 0, 0, 0, 0, 5, 1, 0x61, 0, 1, 0, 0, 0, 0, 0, 0, 0, 5, 1, 0x61,
    ],
    &[0, 0, 0, 2, 0, 1, 0, 0, 0, 0, 0, 0, 0, 5, 1, 0x61],
    &[255, 255, 255, 255, 0, 1, 0, 0, 0, 0, 0, 0, 0, 5, 1, 0x61],
];

#[test]
fn bad_directories(rt: HostRuntime) {
    for body in BAD_BODIES {
        let bytes = stored(&rt, rt.alloc(), &DIRECTORY, 0, body);
        let fault = decode_dir(rt.alloc(), &bytes).err();
        let want = Some(DecodeFault::Refused(Refusal::BadBody));
        require(&rt, fault == want, "each body");
    }
}

/// The name of these bytes.
pub fn name(rt: &impl Abort, alloc: Global, bytes: &[u8]) -> Name
    ensures { result ≡ bytes.now }
{
    let bytes = bytes.to_vec(alloc).expect(rt, "memory");
    Name::new(bytes).expect(rt, "a name")
}

/// A directory with the file `test.txt` alone, number 2.
pub fn one_file(rt: &impl Abort, alloc: Global, origin: Origin) -> Vec<StoredEntry>
    requires { HasOrigin kind.File origin }
    ensures storable { AreStorable result.items }
    ensures others { none_is_own result.items ≡ not (is_own origin) && true }
{
    let entry = StoredEntry {
        name: name(rt, alloc, b"test.txt"),
        kind: Kind::File,
        origin,
        number: 2,
    };
    Vec::from_array(alloc, [entry]).expect(rt, "memory")
}

/// The stored file of that directory.
fn written(rt: &impl Abort, alloc: Global, origin: Origin) -> Vec<u8>
    requires { HasOrigin kind.File origin }
{
    let entries = one_file(rt, alloc, origin);
    let file = encode_dir(alloc, &entries).expect(rt, "memory");
    drop(entries);
    file
}

/// The body of that directory, if the file's content is its own.
pub const OWN_BODY: &[u8] = b"\x00\x00\x00\x01\x00\x01\x00\x00\x00\x00\x00\x00\x00\x02\x08test.txt";

/// The SHA-1 of that body.
pub const OWN_DIGEST: [u8; 20] = [
    0xb5, 0x17, 0xdb, 0x85, 0x9c, 0x13, 0xcd, 0x22, 0x66, 0xf6, 0x4f, 0x9a, 0xbe, 0x45, 0x66, 0x2d,
    0x66, 0x76, 0xd4, 0xea,
];

#[test]
fn own_file_is_written(rt: HostRuntime) {
    let file = written(&rt, rt.alloc(), Origin::Own);
    let want = told(&rt, rt.alloc(), &NEW_DIRECTORY, &OWN_DIGEST, 0, OWN_BODY);
    require(&rt, file == want && file.len() == 87, "written");
    let header = header_of(Identifier::Directory, OWN_BODY);
    require(&rt, header.as_slice() == cut(&rt, &file, 64), "its header");
}

#[test]
fn own_file_is_listed(rt: HostRuntime) {
    let entries = one_file(&rt, rt.alloc(), Origin::Own);
    let listing = Listing::of(Vec::new(rt.alloc()), &entries).expect(&rt, "memory");
    drop(entries);
    let unsealed = listing.into_unsealed();
    require(&rt, is_unsealed(&unsealed, OWN_BODY), "room, and the body");
}

const OBJECT_BODY: &[u8] =
    b"\x00\x00\x00\x01\x00\x00\x00\x00\x00\x00\x00\x00\x00\x02\x22\x22\x22\x22\x22\x22\x22\x22\x22\x22\x22\x22\x22\
        \x22\x22\x22\x22\x22\x22\x22\x08test.txt";

/// The SHA-1 of that body.
const OBJECT_DIGEST: [u8; 20] = [
    0x9b, 0x91, 0x02, 0xa3, 0x22, 0x6f, 0x77, 0x84, 0xe7, 0xd1, 0x52, 0x13, 0x9c, 0xe0, 0x82, 0xac,
    0xcc, 0x0a, 0x28, 0x55,
];

#[test]
fn object_file_is_written(rt: HostRuntime) {
    let id = Id { bytes: [0x22; 20] };
    let file = written(&rt, rt.alloc(), Origin::Object(id));
    let want = told(
        &rt,
        rt.alloc(),
        &NEW_DIRECTORY,
        &OBJECT_DIGEST,
        0,
        OBJECT_BODY,
    );
    require(&rt, file == want && file.len() == 107, "written");
}
