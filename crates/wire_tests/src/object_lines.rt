//! Lines that ask for a server of objects, taken and refused.
use crate::command_lines::{At, FOLDER, Refused, check, is_at};
use mountd_options::{Command, ObjectsOptions, Served, options};
use std::alloc::Global;
use std::process::Abort;

/// What the words ask `objects` for.
fn given_out(rt: &impl Abort, alloc: Global, words: &[&str]) -> ObjectsOptions {
    match options(alloc, words) {
        Ok(Command::Objects(given)) => given,
        _ => rt.abort(),
    }
}

/// Whether given-out objects are in the directory, as a repository or not.
fn is_in(objects: &Served, is_repository: bool) -> bool {
    match objects {
        Served::Folder(folder) => !is_repository && folder.as_str() == FOLDER,
        Served::Repository(folder) => is_repository && folder.as_str() == FOLDER,
    }
}

/// The words of `objects` with a repository.
const OF_A_REPOSITORY: &[&str] = &["mountd", "objects", "--port", "1", "--git", FOLDER];

fn is_given_out(given: &ObjectsOptions, is_repository: bool, at: At) -> bool {
    is_in(&given.objects, is_repository) && is_at(&given.address, at)
}

/// The words ask `objects` for that.
fn check_given_out(rt: &impl Abort, alloc: Global, words: &[&str], is_repository: bool, at: At) {
    let given = given_out(rt, alloc, words);
    let is_it = is_given_out(&given, is_repository, at);
    drop(given);
    assert!(rt; is_it);
}

#[test]
fn takes_a_repository_to_give_out(rt: HostRuntime) {
    check_given_out(&rt, rt.alloc(), OF_A_REPOSITORY, true, At::Port(1));
}

/// Lines of `objects` that don't say whose, and the texts that refuse them.
const NOT_ONE_TO_GIVE_OUT: &[Refused] = &[
    (
        &["mountd", "objects", "--port", "1"],
        "mountd: objects takes one of --dir and --git",
    ),
    (
        &[
            "mountd", "objects", "--port", "1", "--dir", FOLDER, "--git", FOLDER,
        ],
        "mountd: objects takes one of --dir and --git",
    ),
    (
        &["mountd", "objects", "--port", "0", "--sessions", "0"],
        "mountd: objects takes one of --dir and --git",
    ),
    (
        &["mountd", "objects", "--git", FOLDER],
        "mountd: objects takes one of --port and --socket",
    ),
    (
        &["mountd", "objects", "--git", FOLDER, "--port", "65536"],
        "mountd: --port takes a number from 0 to 65535",
    ),
];

#[test]
fn refuses_what_says_not_whose_to_give_out(rt: HostRuntime) {
    check(&rt, rt.alloc(), NOT_ONE_TO_GIVE_OUT);
}

/// The words of `objects` at a socket.
const AT_A_SOCKET: &[&str] = &["mountd", "objects", "--dir", FOLDER, "--socket", "socket"];

/// .. and at a port.
const AT_A_PORT: &[&str] = &["mountd", "objects", "--dir", FOLDER, "--port", "0"];

#[test]
fn takes_a_folder_to_give_out(rt: HostRuntime) {
    check_given_out(&rt, rt.alloc(), AT_A_PORT, false, At::Port(0));
}

#[test]
fn takes_a_socket_to_listen_at(rt: HostRuntime) {
    let at = At::Socket("socket");
    check_given_out(&rt, rt.alloc(), AT_A_SOCKET, false, at);
}
