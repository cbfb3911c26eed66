//! Where a repository's objects are.
use crate::loose::{put, remove_folder};
use crate::packs::{gives, put_blob};
use crate::written::BLOB;
use eden_git::{GitFault, GitSource};
use std::fs::Files;
use std::path::PathBuf;
use std::process::Abort;
use test_samples::empty_folder;

/// A file of a repository, with what is in it.
struct Put {
    place: &'static str,
    text: &'static [u8],
}

/// A name, files, and whether the repository `here` is opened over the objects of `there`.
type Case = (&'static str, &'static [Put], Result<&'static str, GitFault>);

const CASES: &[Case] = &[
    ("bare", &[], Ok("here/objects")),
    ("a working directory", &[], Ok("here/.git/objects")),
    (
        "a file .git",
        &[Put {
            place: "here/.git",
            text: b"gitdir: ../there\n",
        }],
        Ok("there/objects"),
    ),
    (
        "a working directory beside another",
        &[
            Put {
                place: "here/.git",
                text: b"gitdir: ../there/worktrees/here\n",
            },
            Put {
                place: "there/worktrees/here/commondir",
                text: b"../..\n",
            },
        ],
        Ok("there/objects"),
    ),
    (
        "SHA-1 by its name",
        &[Put {
            place: "here/config",
            text: b"[core]\n\trepositoryformatversion = 1\n[extensions]\n\tobjectFormat = sha1\n",
        }],
        Ok("here/objects"),
    ),
    (
        "SHA-256",
        &[Put {
            place: "here/config",
            text: b"[core]\n\trepositoryformatversion = 1\n[extensions]\n\tobjectformat = sha256\n",
        }],
        Err(GitFault::Format),
    ),
    (
        "SHA-256 on one line",
        &[Put {
            place: "here/config",
            text: b"[Extensions] ObjectFormat = \"sha256\" # new",
        }],
        Err(GitFault::Format),
    ),
    (
        "a newer version",
        &[Put {
            place: "here/config",
            text: b"[core]\n\trepositoryformatversion = 2\n",
        }],
        Err(GitFault::Format),
    ),
    (
        "a file that leads nowhere",
        &[Put {
            place: "here/.git",
            text: b"gitdir: ../nowhere\n",
        }],
        Err(GitFault::Missing),
    ),
    ("nothing", &[], Err(GitFault::Missing)),
];

// Where an object is put: where it is to be found, or, if none is, below `here`.
fn place_of(expected: &Result<&'static str, GitFault>) -> &'static str {
    match expected {
        Ok(place) => place,
        Err(GitFault::Missing) => "here/other",
        Err(_) => "here/objects",
    }
}

fn is_fault(expected: &Result<&str, GitFault>, fault: GitFault) -> bool {
    match expected {
        Ok(_) => false,
        Err(want) => *want == fault,
    }
}

fn opens(
    rt: &(impl AllocGlobal + Abort + Files),
    here: PathBuf,
    expected: &Result<&str, GitFault>,
) -> bool {
    match GitSource::open(rt.alloc(), rt, here) {
        Ok(mut source) => {
            let is_it = expected.is_ok() && gives(&mut source, rt.alloc(), BLOB.id);
            drop(source);
            is_it
        }
        Err(fault) => is_fault(expected, fault),
    }
}

// Whether the repository `here` is opened as expected, over these files.
fn is_found(
    rt: &(impl AllocGlobal + Abort + Files),
    folder: &PathBuf,
    files: &[Put],
    expected: &Result<&'static str, GitFault>,
) -> bool {
    for file in files {
        put(rt, folder, file.place, file.text);
    }
    put_blob(rt, folder, place_of(expected));
    let here = folder.join(rt.alloc(), "here").expect(rt, "memory");
    opens(rt, here, expected)
}

#[test]
fn repositories_are_found(rt: HostRuntime) {
    for (name, files, expected) in CASES {
        let folder = empty_folder(&rt, "repository").expect(&rt, "a folder");
        assert!(rt; is_found(&rt, &folder, files, expected), "{name}");
        remove_folder(&rt, &folder);
    }
}
