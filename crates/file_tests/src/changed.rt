//! A directory in a journal: what changes in it is noted alone, and makes its body again.
use crate::folders::{damage, folder_of, remove};
use crate::formats::{NEW_DIRECTORY, told};
use crate::journals::{opened, records_of, take_in, write_journal};
use crate::kinds::{Answer, Call, reads};
use crate::steps::{Step, of_length};
use crate::told::require;
use eden_model::Outside;
use eden_overlay::{Files, FilesFault};
use eden_overlay_format::Identifier;
use std::alloc::{AllocError, Global};
use std::path::PathBuf;
use std::process::Abort;

// The record that file 5 is a directory's, whose body is a count of 1 and `ab`.
const NOTED: &[u8] = b"\
    \x09\xee\x5b\x38\xb7\xe5\x01\x3b\x68\x4d\x08\xfe\x47\x05\xb9\x11\xf7\x5b\xf6\x8f\
    \x4f\x56\x4a\x44\
    \x00\x00\x00\x00\x00\x00\x00\x05\x00\x00\x00\x00\x00\x00\x00\x00\x00\x00\x00\x00\x00\x00\x00\x06\
    \x00\x00\x00\x01\x61\x62";

// The same, and that it changed: after the record at 0, a count of 2, and `x` between a byte in front and one after.
const CHANGED: &[u8] = b"\
    \x09\xee\x5b\x38\xb7\xe5\x01\x3b\x68\x4d\x08\xfe\x47\x05\xb9\x11\xf7\x5b\xf6\x8f\
    \x4f\x56\x4a\x44\
    \x00\x00\x00\x00\x00\x00\x00\x05\x00\x00\x00\x00\x00\x00\x00\x00\x00\x00\x00\x00\x00\x00\x00\x06\
    \x00\x00\x00\x01\x61\x62\
    \xfe\xf9\x50\xd0\x2f\x4a\x05\x0e\x4a\xe6\x80\x87\xd3\x17\x0a\x84\xd5\xb6\xdf\xf8\
    \x4f\x56\x4a\x50\
    \x00\x00\x00\x00\x00\x00\x00\x05\x00\x00\x00\x00\x00\x00\x00\x00\x00\x00\x00\x00\x00\x00\x00\x1d\
    \x00\x00\x00\x00\x00\x00\x00\x00\x00\x00\x00\x00\x00\x00\x00\x01\x00\x00\x00\x00\x00\x00\x00\x01\
    \x00\x00\x00\x02\
    \x78";

// The same, but after a record at 54, where it begins itself.
const MISPLACED: &[u8] = b"\
    \x09\xee\x5b\x38\xb7\xe5\x01\x3b\x68\x4d\x08\xfe\x47\x05\xb9\x11\xf7\x5b\xf6\x8f\
    \x4f\x56\x4a\x44\
    \x00\x00\x00\x00\x00\x00\x00\x05\x00\x00\x00\x00\x00\x00\x00\x00\x00\x00\x00\x00\x00\x00\x00\x06\
    \x00\x00\x00\x01\x61\x62\
    \x61\x81\x53\xb2\x71\xa9\x0b\xe2\x20\xbd\xd8\x5c\x7b\x5d\x0f\xf6\x37\xe3\x83\xc0\
    \x4f\x56\x4a\x50\
    \x00\x00\x00\x00\x00\x00\x00\x05\x00\x00\x00\x00\x00\x00\x00\x00\x00\x00\x00\x00\x00\x00\x00\x1d\
    \x00\x00\x00\x00\x00\x00\x00\x36\x00\x00\x00\x00\x00\x00\x00\x01\x00\x00\x00\x00\x00\x00\x00\x01\
    \x00\x00\x00\x02\
    \x78";

// The same, but of two bytes two stay in front and one after.
const TOO_LONG: &[u8] = b"\
    \x09\xee\x5b\x38\xb7\xe5\x01\x3b\x68\x4d\x08\xfe\x47\x05\xb9\x11\xf7\x5b\xf6\x8f\
    \x4f\x56\x4a\x44\
    \x00\x00\x00\x00\x00\x00\x00\x05\x00\x00\x00\x00\x00\x00\x00\x00\x00\x00\x00\x00\x00\x00\x00\x06\
    \x00\x00\x00\x01\x61\x62\
    \x0d\x53\x69\x9d\x4e\x1e\x36\x9f\x40\x28\x06\x88\x63\xec\xde\xb5\x05\x33\xa2\x2c\
    \x4f\x56\x4a\x50\
    \x00\x00\x00\x00\x00\x00\x00\x05\x00\x00\x00\x00\x00\x00\x00\x00\x00\x00\x00\x00\x00\x00\x00\x1d\
    \x00\x00\x00\x00\x00\x00\x00\x00\x00\x00\x00\x00\x00\x00\x00\x02\x00\x00\x00\x00\x00\x00\x00\x01\
    \x00\x00\x00\x02\
    \x78";

// The same, but of one byte that goes in front, and one that comes after the other.
const MOVED: &[u8] = b"\
    \x09\xee\x5b\x38\xb7\xe5\x01\x3b\x68\x4d\x08\xfe\x47\x05\xb9\x11\xf7\x5b\xf6\x8f\
    \x4f\x56\x4a\x44\
    \x00\x00\x00\x00\x00\x00\x00\x05\x00\x00\x00\x00\x00\x00\x00\x00\x00\x00\x00\x00\x00\x00\x00\x06\
    \x00\x00\x00\x01\x61\x62\
    \x87\xa3\xc8\xc4\x21\x1e\xb0\xad\x38\xa1\x97\x66\xf1\x53\x23\x03\xb2\x2e\xc0\xc2\
    \x4f\x56\x4a\x4d\
    \x00\x00\x00\x00\x00\x00\x00\x05\x00\x00\x00\x00\x00\x00\x00\x00\x00\x00\x00\x00\x00\x00\x00\x41\
    \x00\x00\x00\x00\x00\x00\x00\x1c\
    \x00\x00\x00\x00\x00\x00\x00\x00\x00\x00\x00\x00\x00\x00\x00\x00\x00\x00\x00\x00\x00\x00\x00\x01\
    \x00\x00\x00\x01\
    \x00\x00\x00\x00\x00\x00\x00\x00\x00\x00\x00\x00\x00\x00\x00\x01\x00\x00\x00\x00\x00\x00\x00\x00\
    \x00\x00\x00\x01\
    \x63";

// The same, but of what goes there are more bytes than there are.
const CUT_OFF: &[u8] = b"\
    \x09\xee\x5b\x38\xb7\xe5\x01\x3b\x68\x4d\x08\xfe\x47\x05\xb9\x11\xf7\x5b\xf6\x8f\
    \x4f\x56\x4a\x44\
    \x00\x00\x00\x00\x00\x00\x00\x05\x00\x00\x00\x00\x00\x00\x00\x00\x00\x00\x00\x00\x00\x00\x00\x06\
    \x00\x00\x00\x01\x61\x62\
    \x4e\x9e\xb2\x30\x7a\x58\xdf\x84\x60\x6f\x72\x60\xa3\xcf\x2d\x45\x03\xff\x68\x86\
    \x4f\x56\x4a\x4d\
    \x00\x00\x00\x00\x00\x00\x00\x05\x00\x00\x00\x00\x00\x00\x00\x00\x00\x00\x00\x00\x00\x00\x00\x41\
    \x00\x00\x00\x00\x00\x00\x00\x3a\
    \x00\x00\x00\x00\x00\x00\x00\x00\x00\x00\x00\x00\x00\x00\x00\x00\x00\x00\x00\x00\x00\x00\x00\x01\
    \x00\x00\x00\x01\
    \x00\x00\x00\x00\x00\x00\x00\x00\x00\x00\x00\x00\x00\x00\x00\x01\x00\x00\x00\x00\x00\x00\x00\x00\
    \x00\x00\x00\x01\
    \x63";

// The change alone.
const ALONE: &[u8] = b"\
    \xfe\xf9\x50\xd0\x2f\x4a\x05\x0e\x4a\xe6\x80\x87\xd3\x17\x0a\x84\xd5\xb6\xdf\xf8\
    \x4f\x56\x4a\x50\
    \x00\x00\x00\x00\x00\x00\x00\x05\x00\x00\x00\x00\x00\x00\x00\x00\x00\x00\x00\x00\x00\x00\x00\x1d\
    \x00\x00\x00\x00\x00\x00\x00\x00\x00\x00\x00\x00\x00\x00\x00\x01\x00\x00\x00\x00\x00\x00\x00\x01\
    \x00\x00\x00\x02\
    \x78";

// The file with the body before.
const BEFORE: &[u8] = b"\
    \x4f\x56\x44\x52\
    \x00\x00\x00\x02\
    \x00\x00\x00\x00\x00\x00\x00\x06\
    \x1a\xee\xf6\x02\x97\x75\xe3\x3c\x33\x38\x41\xaa\xc3\xc3\x6a\x44\x77\x04\x24\x03\
    \x00\x00\x00\x00\x00\x00\x00\x00\x00\x00\x00\x00\x00\x00\x00\x00\x00\x00\x00\x00\x00\x00\x00\x00\x00\x00\x00\x00\
    \x00\x00\x00\x01\x61\x62";

// The file with the body that the change makes of it.
const AFTER: &[u8] = b"\
    \x4f\x56\x44\x52\
    \x00\x00\x00\x02\
    \x00\x00\x00\x00\x00\x00\x00\x07\
    \x59\xe6\x82\x6d\x49\x90\x97\x3d\xb6\x85\xb5\xbc\x38\x4d\xa9\x56\xae\x77\x71\x60\
    \x00\x00\x00\x00\x00\x00\x00\x00\x00\x00\x00\x00\x00\x00\x00\x00\x00\x00\x00\x00\x00\x00\x00\x00\x00\x00\x00\x00\
    \x00\x00\x00\x02\x61\x78\x62";

// The file with the body that the move makes of it.
const AFTER_MOVE: &[u8] = b"\
    \x4f\x56\x44\x52\
    \x00\x00\x00\x02\
    \x00\x00\x00\x00\x00\x00\x00\x06\
    \xbc\x91\xa0\x49\xd0\xe8\x55\xf2\xc4\xc4\xb3\xe0\xc9\xc3\x07\xac\x54\x8d\x37\xf9\
    \x00\x00\x00\x00\x00\x00\x00\x00\x00\x00\x00\x00\x00\x00\x00\x00\x00\x00\x00\x00\x00\x00\x00\x00\x00\x00\x00\x00\
    \x00\x00\x00\x01\x62\x63";

// Journals, and what file 5 has by them.
const JOURNALS: &[(&[u8], &[Step])] = &[
    (NOTED, HAS_BEFORE),
    (CHANGED, HAS_AFTER),
    (MISPLACED, HAS_BEFORE),
    (TOO_LONG, HAS_BEFORE),
    (MOVED, HAS_AFTER_MOVE),
    (CUT_OFF, HAS_BEFORE),
    (ALONE, HAS_NOTHING),
];

const HAS_BEFORE: &[Step] = &[Step::Gives(Call::Read(5), Answer::Bytes(Some(BEFORE)))];

const HAS_AFTER: &[Step] = &[Step::Gives(Call::Read(5), Answer::Bytes(Some(AFTER)))];

const HAS_AFTER_MOVE: &[Step] = &[Step::Gives(Call::Read(5), Answer::Bytes(Some(AFTER_MOVE)))];

const HAS_NOTHING: &[Step] = &[Step::Gives(Call::Read(5), Answer::Bytes(None))];

#[test]
fn a_change_makes_the_body_again(rt: HostRuntime) {
    for (journal, steps) in JOURNALS {
        take_in(&rt, &rt, "journal-parts", journal, steps);
    }
}

// The SHA-1 of 2,000 bytes 7, of which those at 0, 4, 999 and 1,999 are 8.
const DIGEST: [u8; 20] = [
    0xe9, 0x1a, 0x88, 0xe5, 0x2f, 0x87, 0xce, 0x8a, 0x45, 0x80, 0x3d, 0x71, 0x17, 0x18, 0x92, 0xbf,
    0xd7, 0x60, 0x3c, 0xf5,
];

// What stands after the digest and the time of the last record: the place of the one before, the bytes that stay in
// front and after, the count, and the byte that changed.
const LAST: &[u8] = b"\x00\x00\x00\x00\x00\x00\x00\x1d\
    \x00\x00\x00\x00\x00\x00\x08\x99\x00\x00\x00\x00\x00\x00\x07\xcb\x00\x00\x00\x00\x00\x00\x00\x00\
    \x08\x07\x07\x07\x08";

// Whether file 9 becomes a directory's with that body.
fn stores<F: Files<Outside>>(files: &mut F, alloc: Global, body: &[u8]) -> bool {
    files.replace_body(alloc, 9, Identifier::Directory, body) == Ok(())
}

// Whether the body is stored, and again each time that one of four bytes has become 8.
fn changes_often<F: Files<Outside>>(files: &mut F, alloc: Global, body: &mut [u8]) -> bool {
    if !stores(files, alloc, body) {
        return false;
    }
    for at in &[0, 4, 999, 1999] {
        if let Some(byte) = body.get_mut(*at) {
            *byte = 8;
        }
        if !stores(files, alloc, body) {
            return false;
        }
    }
    true
}

// File 9 has these bytes, and has them once the directory is opened again.
fn find_nine<F: Files<Outside>>(
    rt: &impl Abort,
    system: &HostRuntime,
    folder: &PathBuf,
    files: F,
    want: &[u8],
) {
    let mut files = files;
    require(rt, reads(&mut files, system.alloc(), 9, want), "file 9");
    drop(files);
    let files = opened(system, folder).expect(rt, "files");
    require(rt, has_nine(files, system.alloc(), want), "file 9 again");
}

fn has_nine<F: Files<Outside>>(files: F, alloc: Global, want: &[u8]) -> bool {
    let mut files = files;
    reads(&mut files, alloc, 9, want)
}

// The directory's journal has records of that many bytes, and those at their end.
fn end_in(rt: &impl Abort, system: &HostRuntime, folder: &PathBuf, len: usize, end: &[u8]) {
    let records = records_of(rt, system, folder, len);
    require(rt, records.ends_with(end), "the last record");
}

#[test]
fn what_changes_in_a_directory_is_noted_alone(rt: HostRuntime) {
    let folder = folder_of(&rt, "journal-changed", &[]).expect(&rt, "a folder");
    let mut files = opened(&rt, &folder).expect(&rt, "files");
    let mut body = of_length(rt.alloc(), 2000).expect(&rt, "memory");
    require(
        &rt,
        changes_often(&mut files, rt.alloc(), &mut body),
        "bodies stored",
    );
    // The whole body, a count, and three times a byte.
    end_in(&rt, &rt, &folder, 2048 + 76 + 3 * 77, LAST);
    let want = told(&rt, rt.alloc(), &NEW_DIRECTORY, &DIGEST, 0, &body);
    find_nine(&rt, &rt, &folder, files, &want);
    remove(&rt, folder).expect(&rt, "a folder");
}

// The SHA-1 of a count of 250 and 250 rows, each its number in 8 bytes, of which row 5 stands after row 200.
const MOVED_DIGEST: [u8; 20] = [
    0x30, 0xa9, 0x76, 0xe4, 0xdb, 0x12, 0xdb, 0xb5, 0xff, 0x92, 0x40, 0xa9, 0xaa, 0x00, 0x7f, 0xaf,
    0x5e, 0x9c, 0x4f, 0x2c,
];

// That count and these rows, in their order or so.
fn rows(alloc: Global, is_moved: bool) -> Result<Vec<u8>, AllocError> {
    let mut body = Vec::from_slice(alloc, &[0, 0, 0, 250])?;
    for row in 0..250u64 {
        if !is_moved || row != 5 {
            body.extend_from_slice(&row.to_be_bytes())?;
        }
        if is_moved && row == 200 {
            body.extend_from_slice(&5u64.to_be_bytes())?;
        }
    }
    Ok(body)
}

#[test]
fn a_move_is_noted_in_two_places(rt: HostRuntime) {
    let folder = folder_of(&rt, "journal-moved", &[]).expect(&rt, "a folder");
    let mut files = opened(&rt, &folder).expect(&rt, "files");
    let before = rows(rt.alloc(), false).expect(&rt, "memory");
    require(
        &rt,
        stores(&mut files, rt.alloc(), &before),
        "a body stored",
    );
    let after = rows(rt.alloc(), true).expect(&rt, "memory");
    require(
        &rt,
        stores(&mut files, rt.alloc(), &after),
        "a body stored again",
    );
    // The whole body; then a length and twice what stays, and the row that came.
    end_in(
        &rt,
        &rt,
        &folder,
        48 + after.len() + 48 + 8 + 2 * 28 + 8,
        b"",
    );
    let want = told(&rt, rt.alloc(), &NEW_DIRECTORY, &MOVED_DIGEST, 0, &after);
    find_nine(&rt, &rt, &folder, files, &want);
    remove(&rt, folder).expect(&rt, "a folder");
}

// Changes the last of the journal's records, which have that many bytes.
fn damage_record(rt: &impl Abort, system: &HostRuntime, folder: &PathBuf, len: usize) {
    let records = records_of(rt, system, folder, len);
    write_journal(system, folder, &records).expect(rt, "a journal");
    damage(system, folder, "journal").expect(rt, "a journal");
}

// A read of file 9 tells that the disk has changed the record of its body.
fn tell_damage<F: Files<Outside>>(
    rt: &impl Abort,
    system: &HostRuntime,
    folder: &PathBuf,
    files: F,
) {
    let mut files = files;
    require(
        rt,
        stores(&mut files, system.alloc(), b"\0\0\0\x01ab"),
        "a body stored",
    );
    damage_record(rt, system, folder, 48 + 6);
    let fault = files.read(system.alloc(), 9).err();
    require(
        rt,
        fault == Some(FilesFault::Device),
        "told as the device's",
    );
}

#[test]
fn a_damaged_record_shows_no_other_directory(rt: HostRuntime) {
    let folder = folder_of(&rt, "journal-damaged", &[]).expect(&rt, "a folder");
    tell_damage(&rt, &rt, &folder, opened(&rt, &folder).expect(&rt, "files"));
    remove(&rt, folder).expect(&rt, "a folder");
}
