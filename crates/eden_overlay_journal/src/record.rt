// A journal's records as bytes: 48 bytes, and behind them those of a file that is stored. Numbers are big-endian.
ghost use Rattle.std.specs.Prelude.{◌≡◌, ◌≤◌, ◌+◌, ◌++◌, ◌↔◌, IfSome, IsTrue, OnOk, drop, length, take};
ghost use Rattle.std.specs.Int.{w64, to_be_bytes};
ghost use Rattle.sha1.specs.Sha1.{sha1};
ghost use Rattle.eden_overlay_journal.specs.Records.{fields, note_bytes, record_of, short_record_of};
ghost use Rattle.eden_overlay_journal.specs.declared.record.Note.TheVariants as note;

use sha1::Sha1;
use std::alloc::AllocError;

/// The length of what stands before a file's bytes: a digest of 20 bytes, and the fields.
pub(crate) const FRONT_LEN: usize = 48;

const DIGEST_LEN: usize = 20;

/// What a record says of a file.
#[derive(Clone, Copy, PartialEq, Eq)]
pub(crate) enum Note {
    /// Its bytes stand behind.
    Stored,
    /// It is a directory's, and its body stands behind.
    Directory,
    /// It is a directory's, and what has changed in its body stands behind.
    Part,
    /// The same, in two places.
    Parts,
    /// It was removed.
    Removed,
    /// It was changed elsewhere.
    Elsewhere,
}

impl Note {
    fn bytes(self) -> [u8; 4]
        ensures { result ≡ note_bytes self }
    {
        match self {
            Note::Stored => *b"OVJS",
            Note::Directory => *b"OVJD",
            Note::Part => *b"OVJP",
            Note::Parts => *b"OVJM",
            Note::Removed => *b"OVJR",
            Note::Elsewhere => *b"OVJE",
        }
    }
}

/// What the fields of a record say.
#[derive(Clone, Copy)]
pub(crate) struct Fields {
    pub(crate) note: Note,
    pub(crate) number: u64,
    /// When it was noted, in nanoseconds since 1970; 0 where that isn't told.
    pub(crate) when: u64,
    pub(crate) len: u64,
}

#[tactic(auto, unfolding(crate::specs::Records::fields))]
fn fields_of(note: Note, number: u64, when: u64, len: u64) -> [u8; 28]
    ensures { result ≡ fields note number when len }
{
    let mut fields = [0; 28];
    fields[..4].copy_from_slice(&note.bytes());
    fields[4..12].copy_from_slice(&number.to_be_bytes());
    fields[12..20].copy_from_slice(&when.to_be_bytes());
    fields[20..].copy_from_slice(&len.to_be_bytes());
    fields
}

// The record of a note that has no bytes of a file, and no time.
pub(crate) fn short_record(note: Note, number: u64) -> [u8; FRONT_LEN]
    ensures { result ≡ short_record_of note number }
{
    let fields = fields_of(note, number, 0, 0);
    let mut short = [0; FRONT_LEN];
    short[..DIGEST_LEN].copy_from_slice(&Sha1::digest(&fields));
    short[DIGEST_LEN..].copy_from_slice(&fields);
    short
}

// Writes a record with the bytes of both, one behind the other, into that room, whose bytes go.
pub(crate) fn write_record(
    room: &mut Vec<u8>,
    note: Note,
    number: u64,
    when: u64,
    front: &[u8],
    behind: &[u8],
) -> Result<(), AllocError>
    ensures { OnOk result (room.new.items ≡ record_of note number when (front.now ++ behind.now)) }
{
    let len = front.len().saturating_add(behind.len());
    let fields = fields_of(note, number, when, len as u64);
    room.clear();
    room.reserve_exact(FRONT_LEN.saturating_add(len))?;
    room.extend_from_slice(&digest_of(&fields, front, behind))?;
    room.extend_from_slice(&fields)?;
    room.extend_from_slice(front)?;
    room.extend_from_slice(behind)?;
    Ok(())
}

// The digest of the fields and what stands behind them.
fn digest_of(fields: &[u8], front: &[u8], behind: &[u8]) -> [u8; DIGEST_LEN]
    ensures { result ≡ sha1 (fields.now ++ front.now ++ behind.now) }
{
    let mut hasher = Sha1::new();
    hasher.update(fields);
    hasher.update(front);
    hasher.update(behind);
    hasher.finalize()
}

// What those bytes say a record is, if they say it.
fn note_in(bytes: &[u8]) -> Option<Note>
    ensures { IfSome result (λ said. bytes.now ≡ note_bytes said) }
{
    match bytes {
        b"OVJS" => Some(Note::Stored),
        b"OVJD" => Some(Note::Directory),
        b"OVJP" => Some(Note::Part),
        b"OVJM" => Some(Note::Parts),
        b"OVJR" => Some(Note::Removed),
        b"OVJE" => Some(Note::Elsewhere),
        _ => None,
    }
}

// What the fields in a record's first bytes say, if they are some.
pub(crate) fn fields_in(front: &[u8; FRONT_LEN]) -> Option<Fields>
    ensures { IfSome result (λ said. drop 20 front.now ≡ fields said.note said.number said.when said.len) }
{
    let note = note_in(&front[20..24])?;
    Some(Fields {
        note,
        number: number_at(front, 24),
        when: number_at(front, 32),
        len: number_at(front, 40),
    })
}

// Whether the record's digest is that of what follows.
pub(crate) fn is_whole(bytes: &[u8]) -> bool
    requires { 20 ≤ length bytes.now }
    ensures { IsTrue result ↔ take 20 bytes.now ≡ sha1 (drop 20 bytes.now) }
{
    let (digest, told) = bytes.split_at(DIGEST_LEN);
    digest == Sha1::digest(told).as_slice()
}

// The number that stands there.
pub(crate) fn number_at(bytes: &[u8], at: usize) -> u64
    requires { at + 8 ≤ length bytes.now }
    ensures { to_be_bytes w64 result ≡ take 8 (drop at bytes.now) }
{
    let mut digits = [0; 8];
    digits.copy_from_slice(&bytes[at..at + 8]);
    u64::from_be_bytes(digits)
}
