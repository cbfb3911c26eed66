//! What no clause says: that a good line is taken, and the texts of refusals.
use eden_mount::Config;
use eden_sockets::Address;
use mountd_options::{
    ChangesOptions, Command, HistoryOption, MountOptions, Objects, OptionsError, RepairOptions,
    ServeOptions, options,
};
use std::alloc::Global;
use std::process::Abort;

// The tree with the one file test.txt, and the directory of objects.
const ROOT: &str = "d8329fc1cc938780ffdd9f94e0d364e0ea74f579";

const ROOT_BYTES: [u8; 20] = [
    0xd8, 0x32, 0x9f, 0xc1, 0xcc, 0x93, 0x87, 0x80, 0xff, 0xdd, 0x9f, 0x94, 0xe0, 0xd3, 0x64, 0xe0,
    0xea, 0x74, 0xf5, 0x79,
];

pub(crate) const FOLDER: &str = "objects";

const GOOD: &[&str] = &["mountd", "stdio", "--root", ROOT, "--objects", FOLDER];

const FULL: &[&str] = &[
    "mountd",
    "stdio",
    "--overlay=changes",
    "--cache-bytes=1099511627776",
    "--cache-entries",
    "65536",
    "--root",
    ROOT,
    "--history",
    "1",
    "--rescan",
    "--objects",
    FOLDER,
];

/// A line that asks for no history.
const UNKEPT: &[&str] = &[
    "mountd",
    "stdio",
    "--history",
    "none",
    "--root",
    ROOT,
    "--objects",
    FOLDER,
];

/// A line of `serve` without options that may be left out.
const SERVED: &[&str] = &[
    "mountd",
    "serve",
    "--root",
    ROOT,
    "--objects",
    FOLDER,
    "--port",
    "0",
];

const SERVED_FULL: &[&str] = &[
    "mountd",
    "serve",
    "--fetchers=16",
    "--sessions",
    "64",
    "--port=65535",
    "--history",
    "1",
    "--remote",
    "1",
    "--root",
    ROOT,
];

const REPAIRING: &[&str] = &["mountd", "repair", "--overlay=changes", "--root", ROOT];

/// A line of `changes` over a closed overlay.
const LOOKING: &[&str] = &[
    "mountd",
    "changes",
    "--overlay=changes",
    "--root",
    ROOT,
    "--objects",
    FOLDER,
];

/// A line of `changes` over the overlay of a mount that runs.
const LOOKING_MEANWHILE: &[&str] = &[
    "mountd",
    "changes",
    "--running",
    "--overlay=changes",
    "--root",
    ROOT,
    "--objects",
    FOLDER,
];

/// What the words ask `stdio` for.
fn asked(rt: &impl Abort, alloc: Global, words: &[&str]) -> MountOptions {
    match options(alloc, words) {
        Ok(Command::Stdio(given)) => given,
        _ => rt.abort(),
    }
}

/// What the words ask `repair` for.
fn repaired(rt: &impl Abort, alloc: Global, words: &[&str]) -> RepairOptions {
    match options(alloc, words) {
        Ok(Command::Repair(given)) => given,
        _ => rt.abort(),
    }
}

/// What the words ask `changes` for.
fn looked(rt: &impl Abort, alloc: Global, words: &[&str]) -> ChangesOptions {
    match options(alloc, words) {
        Ok(Command::Changes(given)) => given,
        _ => rt.abort(),
    }
}

/// What the words ask `serve` for.
fn served(rt: &impl Abort, alloc: Global, words: &[&str]) -> ServeOptions {
    match options(alloc, words) {
        Ok(Command::Serve(given)) => given,
        _ => rt.abort(),
    }
}

/// Where a server is.
#[derive(Clone, Copy)]
pub(crate) enum At {
    Port(u16),
    Socket(&'static str),
}

pub(crate) fn is_at(address: &Address, want: At) -> bool {
    match (address, want) {
        (Address::Port(port), At::Port(want)) => *port == want,
        (Address::Socket(path), At::Socket(want)) => path.as_str() == want,
        _ => false,
    }
}

/// Where objects come from: the directory, as one of objects or as a repository, or a server.
#[derive(Clone, Copy)]
enum Origin {
    Folder,
    Repository,
    Server(At),
    RepositoryAndServer(At),
}

fn is_origin(objects: &Objects, want: Origin) -> bool {
    match (objects, want) {
        (Objects::Folder(folder), Origin::Folder) => folder.as_str() == FOLDER,
        (Objects::Repository(folder), Origin::Repository) => folder.as_str() == FOLDER,
        (Objects::Server(address), Origin::Server(at)) => is_at(address, at),
        (Objects::RepositoryAndServer(folder, address), Origin::RepositoryAndServer(at)) => {
            folder.as_str() == FOLDER && is_at(address, at)
        }
        _ => false,
    }
}

/// What a line asks a mount of the root for, with the numbers of entries of the history and of cached objects, and the
/// cache's bytes.
#[derive(Clone, Copy)]
struct Wanted {
    origin: Origin,
    overlay: Option<&'static str>,
    rescan: bool,
    history: HistoryOption,
    limits: (u32, usize, u64),
}

fn has_limits(limits: &Config, want: (u32, usize, u64)) -> bool {
    let (history, objects, bytes) = want;
    limits.history() == history
        && limits.cache_entries() == objects
        && limits.cache_bytes() == bytes
}

fn is_text(given: &Option<String>, want: Option<&str>) -> bool {
    match (given, want) {
        (Some(text), Some(want)) => text.as_str() == want,
        (None, None) => true,
        _ => false,
    }
}

fn is_wanted(given: &MountOptions, want: &Wanted) -> bool {
    given.root.bytes == ROOT_BYTES
        && is_origin(&given.objects, want.origin)
        && is_text(&given.overlay, want.overlay)
        && given.rescan == want.rescan
        && given.history == want.history
        && has_limits(&given.limits, want.limits)
}

/// The words ask `stdio` for that.
fn check_asked(rt: &impl Abort, alloc: Global, words: &[&str], want: Wanted) {
    let given = asked(rt, alloc, words);
    let is_it = is_wanted(&given, &want);
    drop(given);
    assert!(rt; is_it);
}

const LIMITS: (u32, usize, u64) = (1_000_000, 1024, 1 << 28);

/// What a line asks for that says no more than where objects come from.
fn plain(origin: Origin) -> Wanted {
    Wanted {
        origin,
        overlay: None,
        rescan: false,
        history: HistoryOption::Kept,
        limits: LIMITS,
    }
}

#[test]
fn takes_a_good_line(rt: HostRuntime) {
    check_asked(&rt, rt.alloc(), GOOD, plain(Origin::Folder));
}

const FULL_WANTED: Wanted = Wanted {
    origin: Origin::Folder,
    overlay: Some("changes"),
    rescan: true,
    history: HistoryOption::Kept,
    limits: (1, 65_536, 1 << 40),
};

#[test]
fn takes_a_line_with_all_options(rt: HostRuntime) {
    check_asked(&rt, rt.alloc(), FULL, FULL_WANTED);
}

const UNKEPT_WANTED: Wanted = Wanted {
    origin: Origin::Folder,
    overlay: None,
    rescan: false,
    history: HistoryOption::Counted,
    limits: LIMITS,
};

#[test]
fn takes_a_line_without_a_history(rt: HostRuntime) {
    check_asked(&rt, rt.alloc(), UNKEPT, UNKEPT_WANTED);
}

/// A server's port, and this many fetchers, passes and entries of the history.
type Numbers = (u16, u32, u32, u32);

fn has_numbers(given: &ServeOptions, want: Numbers) -> bool {
    let (port, fetchers, passes, history) = want;
    let limits = &given.mount.limits;
    is_at(&given.address, At::Port(port))
        && given.fetchers == fetchers
        && limits.passes() == passes
        && limits.history() == history
}

fn is_served(given: &ServeOptions, origin: Origin, numbers: Numbers) -> bool {
    given.mount.root.bytes == ROOT_BYTES
        && is_origin(&given.mount.objects, origin)
        && has_numbers(given, numbers)
}

/// The words ask `serve` for that.
fn check_served(rt: &impl Abort, alloc: Global, words: &[&str], origin: Origin, numbers: Numbers) {
    let given = served(rt, alloc, words);
    let is_it = is_served(&given, origin, numbers);
    drop(given);
    assert!(rt; is_it);
}

#[test]
fn takes_a_line_that_serves(rt: HostRuntime) {
    let numbers = (0, 2, 1, 1_000_000);
    check_served(&rt, rt.alloc(), SERVED, Origin::Folder, numbers);
}

#[test]
fn takes_a_full_line_that_serves(rt: HostRuntime) {
    let origin = Origin::Server(At::Port(1));
    let numbers = (65_535, 16, 64, 1);
    check_served(&rt, rt.alloc(), SERVED_FULL, origin, numbers);
}

#[test]
fn takes_a_line_that_repairs(rt: HostRuntime) {
    let given = repaired(&rt, rt.alloc(), REPAIRING);
    assert!(rt; given.root.bytes == ROOT_BYTES);
    assert!(rt; given.overlay.as_str() == "changes");
}

fn is_looked_at(given: &ChangesOptions, is_running: bool) -> bool {
    given.overlay.root.bytes == ROOT_BYTES
        && is_origin(&given.overlay.objects, Origin::Folder)
        && given.overlay.folder.as_str() == "changes"
        && given.is_running == is_running
}

/// The words ask `changes` for that overlay, over which a mount runs or none does.
fn check_looked(rt: &impl Abort, alloc: Global, words: &[&str], is_running: bool) {
    let given = looked(rt, alloc, words);
    let is_it = is_looked_at(&given, is_running);
    drop(given);
    assert!(rt; is_it);
}

#[test]
fn takes_a_line_that_tells_changes(rt: HostRuntime) {
    check_looked(&rt, rt.alloc(), LOOKING, false);
}

#[test]
fn takes_a_line_that_tells_the_changes_of_a_mount(rt: HostRuntime) {
    check_looked(&rt, rt.alloc(), LOOKING_MEANWHILE, true);
}

fn text_of(rt: &impl Abort, alloc: Global, error: OptionsError) -> String {
    format!(in alloc; "{error}").expect(rt, "memory")
}

/// The text that refuses the words, or nothing.
fn refusal(rt: &impl Abort, alloc: Global, words: &[&str]) -> String {
    match options(alloc, words) {
        Ok(command) => {
            drop(command);
            String::new(alloc)
        }
        Err(error) => text_of(rt, alloc, error),
    }
}

/// Whether the text that refuses the words begins so.
fn is_refused(rt: &impl Abort, alloc: Global, words: &[&str], front: &str) -> bool {
    refusal(rt, alloc, words).as_str().starts_with(front)
}

/// Words that are no line, and how the text begins that refuses them.
pub(crate) type Refused = (&'static [&'static str], &'static str);

pub(crate) fn check(rt: &impl Abort, alloc: Global, rows: &[Refused]) {
    for (at, (words, front)) in rows.iter().enumerate() {
        assert!(rt; is_refused(rt, alloc, words, front), "at {at}");
    }
}

const NO_LINES: &[Refused] = &[
    (
        &["mountd"],
        "error: 'mountd' requires a subcommand but one was not provided",
    ),
    (
        &["mountd", "stdio", "--root", ROOT],
        "mountd: stdio takes one of --objects and --remote",
    ),
    (
        &[
            "mountd",
            "stdio",
            "--root",
            ROOT,
            "--objects",
            FOLDER,
            "--rescan=yes",
        ],
        "error: unexpected value 'yes' for '--rescan' found; no more were expected",
    ),
    (
        &[
            "mountd",
            "stdio",
            "--root",
            ROOT,
            "--remote",
            "1",
            "--objects",
            FOLDER,
        ],
        "mountd: stdio takes one of --objects and --remote",
    ),
    (
        &["mountd", "stdio", "--objects", FOLDER],
        "error: the following required arguments were not provided:\n  --root <ID>",
    ),
    (
        &["mountd", "serve", "--root", ROOT, "--port", "0"],
        "mountd: serve takes one of --objects and --remote",
    ),
    (
        &["mountd", "serve", "--root", ROOT, "--objects", FOLDER],
        "mountd: serve takes one of --port and --socket",
    ),
    (
        &["mountd", "serve", "--port", "65536", "--root", "0"],
        "mountd: --root takes 40 lower-case hexadecimal digits",
    ),
    (
        &["mountd", "serve", "--port", "65536", "--root", ROOT],
        "mountd: serve takes one of --objects and --remote",
    ),
    (
        &["mountd", "repair", "--overlay", "changes"],
        "error: the following required arguments were not provided:\n  --root <ID>",
    ),
    (
        &["mountd", "repair", "--root", ROOT],
        "error: the following required arguments were not provided:\n  --overlay <DIR>",
    ),
    (
        &["mountd", "repair", "--root", "0", "--overlay", "changes"],
        "mountd: --root takes 40 lower-case hexadecimal digits",
    ),
    (
        &[
            "mountd",
            "changes",
            "--root",
            ROOT,
            "--overlay",
            "changes",
            "--running=no",
        ],
        "error: unexpected value 'no' for '--running' found; no more were expected",
    ),
    (
        &[
            "mountd",
            "changes",
            "--running",
            "--root",
            ROOT,
            "--overlay",
            "changes",
        ],
        "mountd: changes takes one of --objects and --remote",
    ),
    (
        &["mountd", "snapshot", "--running"],
        "error: unexpected argument '--running' found",
    ),
    (
        &["mountd", "mount"],
        "error: unrecognized subcommand 'mount'",
    ),
    (
        &[
            "mountd",
            "stdio",
            "--root",
            ROOT,
            "--root",
            ROOT,
            "--objects",
            FOLDER,
        ],
        "error: the argument '--root <ID>' cannot be used multiple times",
    ),
];

#[test]
fn refuses_what_is_no_line(rt: HostRuntime) {
    check(&rt, rt.alloc(), NO_LINES);
}

const TOP_HELP: &str = "Answers requests on the files of a Git commit\n\nUsage: mountd <COMMAND>\n";

const STDIO_HELP: &str =
    "Serves one session over standard input and output\n\nUsage: mountd stdio [OPTIONS] --root <ID>\n";

const SERVE_HELP: &str =
    "Serves a session to each connection\n\nUsage: mountd serve [OPTIONS] --root <ID>\n";

const REPAIR_HELP: &str =
    "Takes out of an overlay what can't be read\n\nUsage: mountd repair --root <ID> --overlay <DIR>\n";

const HELP: &[Refused] = &[
    (&["mountd", "--help"], TOP_HELP),
    (&["mountd", "help"], TOP_HELP),
    (&["mountd", "stdio", "--help"], STDIO_HELP),
    (&["mountd", "help", "stdio"], STDIO_HELP),
    (&["mountd", "serve", "--help"], SERVE_HELP),
    (&["mountd", "repair", "--help"], REPAIR_HELP),
];

#[test]
fn answers_help_as_a_refusal(rt: HostRuntime) {
    check(&rt, rt.alloc(), HELP);
}

const NO_ROOTS: &[&str] = &[
    "d8329fc1cc938780ffdd9f94e0d364e0ea74f57",
    "d8329fc1cc938780ffdd9f94e0d364e0ea74f5790",
    "D8329fc1cc938780ffdd9f94e0d364e0ea74f579",
    "g8329fc1cc938780ffdd9f94e0d364e0ea74f579",
    "",
];

/// The whole text that refuses a root.
const NO_ROOT: &str = "mountd: --root takes 40 lower-case hexadecimal digits";

/// A line of `stdio` up to the root.
const UP_TO_THE_ROOT: &[&str] = &["mountd", "stdio", "--objects", FOLDER, "--root"];

/// Whether a line that ends in that word is refused by that text.
fn is_refused_for(
    rt: &impl Abort,
    alloc: Global,
    line: &[&'static str],
    word: &'static str,
    text: &str,
) -> bool {
    let mut line = Vec::from_slice(alloc, line).expect(rt, "memory");
    line.push(word).expect(rt, "memory");
    refusal(rt, alloc, line.as_slice()).as_str() == text
}

/// Tries each of the words as the last of a line.
fn check_last(
    rt: &impl Abort,
    alloc: Global,
    line: &[&'static str],
    words: &[&'static str],
    text: &str,
) {
    for word in words {
        assert!(rt; is_refused_for(rt, alloc, line, word, text), "{word}");
    }
}

#[test]
fn refuses_what_is_no_root(rt: HostRuntime) {
    check_last(&rt, rt.alloc(), UP_TO_THE_ROOT, NO_ROOTS, NO_ROOT);
}

/// What follows a good line of `stdio`, and how the text begins that refuses it.
const NO_NUMBERS: &[Refused] = &[
    (
        &["--history", "0"],
        "mountd: --history takes a number from 1 to 4294967295",
    ),
    (
        &["--history", "4294967296"],
        "mountd: --history takes a number from 1 to 4294967295",
    ),
    (
        &["--history", "01"],
        "mountd: --history takes a number from 1 to 4294967295",
    ),
    (
        &["--history=+1"],
        "mountd: --history takes a number from 1 to 4294967295",
    ),
    (
        &["--history="],
        "mountd: --history takes a number from 1 to 4294967295, or none",
    ),
    (
        &["--history", "None"],
        "mountd: --history takes a number from 1 to 4294967295, or none",
    ),
    (
        &["--cache-entries", "none"],
        "mountd: --cache-entries takes a number from 1 to 65536",
    ),
    (
        &["--cache-entries", "65537"],
        "mountd: --cache-entries takes a number from 1 to 65536",
    ),
    (
        &["--cache-bytes", "1099511627777"],
        "mountd: --cache-bytes takes a number from 1 to 1099511627776",
    ),
    (
        &["--cache-bytes", "18446744073709551617"],
        "mountd: --cache-bytes takes a number from 1 to 1099511627776",
    ),
    (
        &["--history", "1", "--history", "1"],
        "error: the argument '--history <N>' cannot be used multiple times",
    ),
    (
        &["--history", "-1"],
        "error: unexpected argument '-1' found",
    ),
];

/// 108 bytes.
const LONG_PATH: &str =
    "/23456789/123456789/123456789/123456789/123456789/123456789/123456789/123456789/123456789/123456789/12345678";

/// Servers that are none.
const NO_SERVERS: &[&str] = &["0", "65536", "01", "x", "", LONG_PATH];

const NO_SERVER: &str =
    "mountd: --remote takes a number from 1 to 65535, or a path with a slash, of at most 107 bytes";

/// A line of `stdio` up to the server.
const UP_TO_THE_SERVER: &[&str] = &["mountd", "stdio", "--root", ROOT, "--remote"];

#[test]
fn refuses_what_is_no_server(rt: HostRuntime) {
    check_last(&rt, rt.alloc(), UP_TO_THE_SERVER, NO_SERVERS, NO_SERVER);
}

/// .. and a good line of `serve`.
const NO_SERVED_NUMBERS: &[Refused] = &[
    (
        &["--sessions", "0"],
        "mountd: --sessions takes a number from 1 to 64",
    ),
    (
        &["--sessions", "65"],
        "mountd: --sessions takes a number from 1 to 64",
    ),
    (
        &["--fetchers", "0"],
        "mountd: --fetchers takes a number from 1 to 16",
    ),
    (
        &["--fetchers", "17"],
        "mountd: --fetchers takes a number from 1 to 16",
    ),
    (
        &["--fetchers=+2"],
        "mountd: --fetchers takes a number from 1 to 16",
    ),
    (
        &["--port", "1"],
        "error: the argument '--port <P>' cannot be used multiple times",
    ),
];

const NO_PLACES: &[Refused] = &[
    (
        &["--port", "1", "--socket", "socket"],
        "mountd: serve takes one of --port and --socket",
    ),
    (
        &["--socket", ""],
        "mountd: --socket takes a path of 1 to 107 bytes",
    ),
    (
        &["--socket", LONG_PATH],
        "mountd: --socket takes a path of 1 to 107 bytes",
    ),
    (
        &["--port", "65536"],
        "mountd: --port takes a number from 0 to 65535",
    ),
    (
        &["--port", "00"],
        "mountd: --port takes a number from 0 to 65535",
    ),
];

/// Whether words after a line are refused by a text that begins so.
fn is_refused_behind(
    rt: &impl Abort,
    alloc: Global,
    line: &[&'static str],
    words: &[&'static str],
    front: &str,
) -> bool {
    let mut line = Vec::from_slice(alloc, line).expect(rt, "memory");
    line.extend_from_slice(words).expect(rt, "memory");
    is_refused(rt, alloc, line.as_slice(), front)
}

/// Tries each of the rows after a line.
fn check_behind(rt: &impl Abort, alloc: Global, line: &[&'static str], rows: &[Refused]) {
    for (at, (words, front)) in rows.iter().enumerate() {
        assert!(rt; is_refused_behind(rt, alloc, line, words, front), "at {at}");
    }
}

#[test]
fn refuses_what_is_no_number(rt: HostRuntime) {
    check_behind(&rt, rt.alloc(), GOOD, NO_NUMBERS);
}

#[test]
fn refuses_what_is_no_number_of_a_server(rt: HostRuntime) {
    check_behind(&rt, rt.alloc(), SERVED, NO_SERVED_NUMBERS);
    // All of the line but the last two words, which are the port.
    check_behind(&rt, rt.alloc(), &SERVED[..6], NO_PLACES);
}

/// A line of `stdio` whose objects are a repository's.
const FROM_A_REPOSITORY: &[&str] = &["mountd", "stdio", "--root", ROOT, "--git", FOLDER];

/// .. and of `serve`, with a server for what the repository lacks.
const FROM_A_REPOSITORY_AND_A_SERVER: &[&str] = &[
    "mountd",
    "serve",
    "--remote=./1",
    "--root",
    ROOT,
    "--port",
    "0",
    "--git",
    FOLDER,
];

#[test]
fn takes_a_repository(rt: HostRuntime) {
    let want = plain(Origin::Repository);
    check_asked(&rt, rt.alloc(), FROM_A_REPOSITORY, want);
}

#[test]
fn takes_a_server_beside_a_repository(rt: HostRuntime) {
    let words = FROM_A_REPOSITORY_AND_A_SERVER;
    let origin = Origin::RepositoryAndServer(At::Socket("./1"));
    check_served(&rt, rt.alloc(), words, origin, (0, 2, 1, 1_000_000));
}

/// What follows a line of `stdio` with a repository, and how the text begins that refuses it.
const NO_PLACES_BESIDE_A_REPOSITORY: &[Refused] = &[
    (
        &["--objects", FOLDER],
        "mountd: stdio takes one of --objects and --git",
    ),
    (
        &["--objects", FOLDER, "--remote", "1"],
        "mountd: stdio takes one of --objects and --git",
    ),
    (
        &["--objects", FOLDER, "--history", "0"],
        "mountd: stdio takes one of --objects and --git",
    ),
    (&["--remote", "0"], NO_SERVER),
    (
        &["--git", FOLDER],
        "error: the argument '--git <DIR>' cannot be used multiple times",
    ),
    (
        &["--dir", FOLDER],
        "error: unexpected argument '--dir' found",
    ),
];

/// .. a line of `serve`.
const NO_PLACES_OF_A_SERVER: &[Refused] = &[(
    &["--git", FOLDER],
    "mountd: serve takes one of --objects and --git",
)];

#[test]
fn refuses_what_lies_beside_a_repository(rt: HostRuntime) {
    check_behind(
        &rt,
        rt.alloc(),
        FROM_A_REPOSITORY,
        NO_PLACES_BESIDE_A_REPOSITORY,
    );
    check_behind(&rt, rt.alloc(), SERVED, NO_PLACES_OF_A_SERVER);
}

/// A line that asks a server at a socket.
const FROM_A_SOCKET: &[&str] = &["mountd", "stdio", "--root", ROOT, "--remote", "./1"];

#[test]
fn takes_a_socket_to_ask(rt: HostRuntime) {
    let want = plain(Origin::Server(At::Socket("./1")));
    check_asked(&rt, rt.alloc(), FROM_A_SOCKET, want);
}
