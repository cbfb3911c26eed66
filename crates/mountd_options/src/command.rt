//! What the program is asked for.
ghost use Rattle.std.specs.Prelude.{◌≡◌, ◌≤◌, ◌⊎◌, ◌↔◌, IsTrue, IfErr, IfOk, OnOk, Ok, Some, codes, map, option_map};
ghost use Rattle.std.specs.Prelude.{string_bytes};
ghost use Rattle.clap.specs.declared.error.kind.ErrorKind.TheVariants.{OutOfMemory};
ghost use Rattle.clap.specs.Words.{first_value, found_of, kind_of, rows_of, subcommand_of, subcommand_rows_of};
ghost use Rattle.mountd_options.specs.Addresses.{IsAddress, IsNoAddress, address_name};
ghost use Rattle.mountd_options.specs.CommandLine.{AreServed, AsksFor, AsksVersion, IsFolder, IsGiven, IsImport};
ghost use Rattle.mountd_options.specs.CommandLine.{IsMount};
ghost use Rattle.mountd_options.specs.CommandLine.{IsServed, IsTaken, IsTidy, KeepsNone, NamesMount, NamesServed};
ghost use Rattle.mountd_options.specs.CommandLine.{RefusesWords, RefusesNumber, RefusesObjects, RefusesServed};
ghost use Rattle.mountd_options.specs.CommandLine.{RefusesServer, RefusesValues, SaysLimits, SaysObjects, SaysPasses};
ghost use Rattle.mountd_options.specs.CommandLine.{SaysPlace, SaysServed, command_name, fuse_options, import_options};
ghost use Rattle.mountd_options.specs.CommandLine.{mount_options, mountd_line, serve_options};
ghost use Rattle.mountd_options.specs.CommandLine.{server_name, tidy_options};
ghost use Rattle.mountd_options.specs.Grammar.{HasRequired};
ghost use Rattle.mountd_options.specs.Numbers.{IsNoNumber, IsNoValue, NamesNumber, SaysNumber};
ghost use Rattle.mountd_options.specs.Numbers.{least_of, most_of, number_name};
ghost use Rattle.mountd_options.specs.declared.numbers.NumberOption.TheVariants.{Sessions};
ghost use Rattle.mountd_options.specs.declared.command.MountCommand.TheVariants as by;
ghost use Rattle.mountd_options.specs.declared.command.OptionsError.TheVariants as error;
ghost use Rattle.mountd_options.specs.declared.command.ServerCommand.TheVariants as server;

use crate::addresses::AddressOption;
use crate::grammar::command_line;
use crate::numbers::NumberOption;
use crate::overlays::{
    ChangesOptions, DematerialiseOptions, SnapshotOptions, changes_options, dematerialise_options,
    snapshot_options,
};
use crate::repair::{RepairOptions, repair_options};
use clap::ArgMatches;
use clap::error::ErrorKind;
use eden_model::Id;
use eden_mount::Config;
use eden_object::parse_id;
use eden_sockets::Address;
use std::alloc::{AllocError, Global};
use std::convert::AsStr;
use std::fmt::{self, Display, Formatter, Write};
use thiserror::Error;

/// How many objects may be asked for and not yet there: as many as the most fetchers.
const FLIGHTS: u32 = 16;

/// How many entries the history holds, if it isn't said.
const HISTORY: u64 = 1_000_000;

/// How many objects the cache holds, if it isn't said.
const CACHE_ENTRIES: u64 = 1_024;

/// How many bytes the cache's objects have together, if it isn't said.
const CACHE_BYTES: u64 = 1 << 28;

/// How many connections a server of objects takes, if it isn't said.
const OBJECTS_SESSIONS: u64 = 2;

/// How many connections a mount is served to, if it isn't said.
const MOUNT_SESSIONS: u64 = 1;

/// How many fetchers a served mount has, if it isn't said.
const FETCHERS: u64 = 2;

/// How many threads serve a folder, if it isn't said.
const THREADS: u64 = 1;

/// How many lengths of contents are kept.
const CACHE_SIZES: usize = 65_536;

/// Where the objects of a mount come from.
#[derive(Drop)]
pub enum Objects {
    /// The directory that they lie in.
    Folder(String),
    /// A server of this machine.
    Server(Address),
    /// A Git repository: the directory that has it, or its `.git`.
    Repository(String),
    /// A Git repository, and for what it lacks a server of this machine.
    RepositoryAndServer(String, Address),
}

/// Whose objects are served to other mounts.
#[derive(Drop)]
pub enum Served {
    /// Those of the directory that they lie in.
    Folder(String),
    /// A Git repository's: the directory that has it, or its `.git`.
    Repository(String),
}

/// A command over a commit's tree, with changes.
#[derive(Clone, Copy, Debug, PartialEq, Eq)]
pub enum MountCommand {
    /// It opens a mount for one caller, over standard input and output.
    Stdio,
    /// It opens a mount for a caller for each connection.
    Serve,
    /// It makes objects of what a closed overlay shows.
    Snapshot,
    /// The kernel, over its FUSE protocol.
    Fuse,
    /// It prints what an overlay changed.
    Changes,
    /// It lets a closed overlay stand on another tree.
    Dematerialise,
}

impl MountCommand {
    /// Its name.
    pub fn name(self) -> &'static str
        ensures { result.now ≡ command_name self }
    {
        match self {
            MountCommand::Stdio => "stdio",
            MountCommand::Serve => "serve",
            MountCommand::Snapshot => "snapshot",
            MountCommand::Fuse => "fuse",
            MountCommand::Changes => "changes",
            MountCommand::Dematerialise => "dematerialise",
        }
    }
}

impl Display for MountCommand {
    fn fmt<W: Write>(&self, f: &mut Formatter<W>) -> fmt::Result {
        f.write_str(self.name())
    }
}

/// A command that listens.
#[derive(Clone, Copy, Debug, PartialEq, Eq)]
pub enum ServerCommand {
    /// It serves a mount.
    Serve,
    /// It serves objects.
    Objects,
}

impl ServerCommand {
    /// Its name.
    pub fn name(self) -> &'static str
        ensures { result.now ≡ server_name self }
    {
        match self {
            ServerCommand::Serve => "serve",
            ServerCommand::Objects => "objects",
        }
    }
}

impl Display for ServerCommand {
    fn fmt<W: Write>(&self, f: &mut Formatter<W>) -> fmt::Result {
        f.write_str(self.name())
    }
}

/// What becomes of what a mount was asked and told.
#[derive(Clone, Copy, Debug, PartialEq, Eq)]
pub enum HistoryOption {
    /// Each request is kept with its reply, up to the limit of the history.
    Kept,
    /// They are counted, and none is kept.
    Counted,
}

/// What mount `mountd stdio` or `mountd serve` is asked to open.
#[derive(Drop)]
pub struct MountOptions {
    /// The root directory's tree.
    pub root: Id,
    /// Where the objects come from.
    pub objects: Objects,
    /// The directory that keeps the changes, if they are not to stay in memory alone.
    pub overlay: Option<String>,
    /// Whether a directory that wasn't closed is opened by what its files say.
    pub rescan: bool,
    /// Whether the history is kept, up to its limit, or only counted.
    pub history: HistoryOption,
    /// The limits of the mount, which has a pass for each caller: one of `stdio`, one a connection of `serve`, and of
    /// `fuse` one a thread and another.
    pub limits: Config,
}

/// What `mountd serve` is asked to serve, and where.
#[derive(Drop)]
pub struct ServeOptions {
    /// The mount, which has as many passes as connections are served.
    pub mount: MountOptions,
    /// Where it is to listen.
    pub address: Address,
    /// How many objects are asked for at once.
    pub fetchers: u32,
}

/// What `mountd fuse` is asked to show, by how many threads, and with which time.
#[derive(Drop)]
pub struct FuseOptions {
    /// The mount, which has a pass for each thread, and another.
    pub mount: MountOptions,
    /// How many threads answer the kernel.
    pub threads: u32,
    /// When all was changed that never was, in seconds since 1970. 0 stands for the time at which the program starts.
    pub since: u64,
}

/// Whose objects `mountd objects` is asked to serve, and where.
#[derive(Drop)]
pub struct ObjectsOptions {
    /// Where the objects lie.
    pub objects: Served,
    /// Where it is to listen.
    pub address: Address,
    /// How many connections are served.
    pub sessions: u32,
}

/// What `mountd import` is asked to import.
#[derive(Drop)]
pub struct ImportOptions {
    /// The directory whose files become objects.
    pub from: String,
    /// The directory that the objects come to lie in.
    pub objects: String,
}

/// What `mountd tidy` is asked to tidy.
#[derive(Drop)]
pub struct TidyOptions {
    /// The directory of a closed overlay.
    pub overlay: String,
}

/// What the program is asked for.
#[derive(Drop)]
pub enum Command {
    Stdio(MountOptions),
    Serve(ServeOptions),
    Fuse(FuseOptions),
    Objects(ObjectsOptions),
    Import(ImportOptions),
    Tidy(TidyOptions),
    Repair(RepairOptions),
    Snapshot(SnapshotOptions),
    Changes(ChangesOptions),
    Dematerialise(DematerialiseOptions),
    /// Which program this is.
    Version,
}

/// Why a command line is refused.
#[derive(Debug, Drop, Error)]
pub enum OptionsError {
    /// The words are no command line, or ask for help; the text is `clap`'s and ends its own last line.
    #[error("{0}")]
    Refused(clap::Error),
    /// The value of `--root` is no id.
    #[error("mountd: --root takes 40 lower-case hexadecimal digits")]
    Root,
    /// The value of `--tree` is no id.
    #[error("mountd: --tree takes 40 lower-case hexadecimal digits")]
    Tree,
    /// This command is given no repository, and neither or both of what else objects may come from.
    #[error("mountd: {0} takes one of --objects and --remote")]
    Source(MountCommand),
    /// This command is given a repository, and a directory of objects beside it.
    #[error("mountd: {0} takes one of --objects and --git")]
    Repository(MountCommand),
    /// `objects` is given neither or both of what it may serve.
    #[error("mountd: objects takes one of --dir and --git")]
    Served,
    /// This command is given neither or both of what it may listen at.
    #[error("mountd: {0} takes one of --port and --socket")]
    Place(ServerCommand),
    /// The value of this option is no address that it takes.
    #[error("mountd: {0}")]
    Address(AddressOption),
    /// The value of this option is no number that it takes.
    #[error("mountd: {0}")]
    Number(NumberOption),
    #[error("mountd: out of memory")]
    Memory,
}

impl From<AllocError> for OptionsError {
    ghost from_gives = { λ _ e. e ≡ error.Memory };

    fn from(_error: AllocError) -> OptionsError {
        OptionsError::Memory
    }
}

impl From<NumberOption> for OptionsError {
    ghost from_gives = { λ option e. e ≡ error.Number option };

    fn from(option: NumberOption) -> OptionsError {
        OptionsError::Number(option)
    }
}

/// Reads the command line, of which the first word is the program's name.
///
/// `Memory` may come at any words but those that ask for the version.
pub fn options<S: AsStr>(alloc: Global, words: &[S]) -> Result<Command, OptionsError>
    ensures version { AsksVersion (map S.text words.now) → result ≡ Ok Command.Version }
    ensures taken { OnOk result (IsTaken (map S.text words.now) ⊎ AsksVersion (map S.text words.now)) }
    ensures ok { IfOk result (AsksFor (map S.text words.now)) }
    ensures err { IfErr result (RefusesWords (map S.text words.now)) }
{
    if asks_version(words) {
        return Ok(Command::Version);
    }
    let matches = matches_of(alloc, words)?;
    if let Some(given) = matches.subcommand_matches("stdio") {
        return Ok(Command::Stdio(mount_options(alloc, given, MountCommand::Stdio)?));
    }
    if let Some(given) = matches.subcommand_matches("serve") {
        return Ok(Command::Serve(serve_options(alloc, given)?));
    }
    if let Some(given) = matches.subcommand_matches("objects") {
        return Ok(Command::Objects(objects_options(alloc, given)?));
    }
    if let Some(given) = matches.subcommand_matches("tidy") {
        return Ok(Command::Tidy(tidy_options(alloc, given)?));
    }
    if let Some(given) = matches.subcommand_matches("repair") {
        return Ok(Command::Repair(repair_options(alloc, given)?));
    }
    if let Some(given) = matches.subcommand_matches("snapshot") {
        return Ok(Command::Snapshot(snapshot_options(alloc, given)?));
    }
    if let Some(given) = matches.subcommand_matches("fuse") {
        return Ok(Command::Fuse(fuse_options(alloc, given)?));
    }
    if let Some(given) = matches.subcommand_matches("changes") {
        return Ok(Command::Changes(changes_options(alloc, given)?));
    }
    if let Some(given) = matches.subcommand_matches("dematerialise") {
        return Ok(Command::Dematerialise(dematerialise_options(alloc, given)?));
    }
    // `clap` has seen that one of the subcommands is there.
    let given = matches.subcommand_matches("import").unwrap();
    Ok(Command::Import(import_options(alloc, given)?))
}

/// Whether the words ask which program this is.
fn asks_version<S: AsStr>(words: &[S]) -> bool
    ensures { IsTrue result ↔ AsksVersion (map S.text words.now) }
{
    match words {
        [_, word] => word.as_str() == "--version",
        _ => false,
    }
}

/// The mount that the command is to open.
///
/// Of several errors the root's is reported, then that of where the objects come from, then a number's.
fn mount_options(
    alloc: Global,
    given: &ArgMatches,
    command: MountCommand,
) -> Result<MountOptions, OptionsError>
    requires { HasRequired mount_options (rows_of (found_of given.now)) }
    ensures ok { IfOk result (IsMount command (first_value (found_of given.now))) }
    ensures opened { OnOk result (NamesMount (first_value (found_of given.now))) }
    ensures err { IfErr result (RefusesValues command (first_value (found_of given.now))) }
{
    let root = given.get_str("root").unwrap();
    let root = parse_id(root).ok_or(OptionsError::Root)?;
    let objects = objects_of(alloc, given, command)?;
    let overlay = overlay(alloc, given)?;
    let rescan = is_given(given, "rescan");
    let history = history_of(given, command);
    let limits = limits(given, command)?;
    Ok(MountOptions {
        root,
        objects,
        overlay,
        rescan,
        history,
        limits,
    })
}

/// Where the objects come from.
pub(crate) fn objects_of(
    alloc: Global,
    given: &ArgMatches,
    command: MountCommand,
) -> Result<Objects, OptionsError>
    ensures ok { IfOk result (SaysObjects (first_value (found_of given.now))) }
    ensures err { IfErr result (RefusesObjects command (first_value (found_of given.now))) }
{
    match given.get_str("git") {
        Some(repository) => repository_of(alloc, given, command, repository),
        None => plain_objects_of(alloc, given, command),
    }
}

/// Where they come from if that begins with this repository.
fn repository_of(
    alloc: Global,
    given: &ArgMatches,
    command: MountCommand,
    repository: &str,
) -> Result<Objects, OptionsError>
    requires { first_value (found_of given.now) (codes "git") ≡ Some repository.now }
    ensures ok { IfOk result (SaysObjects (first_value (found_of given.now))) }
    ensures err { IfErr result (RefusesObjects command (first_value (found_of given.now))) }
{
    let server = given.get_str("remote");
    match given.get_str("objects") {
        Some(_) => Err(OptionsError::Repository(command)),
        None => {
            let repository = String::from_str(alloc, repository)?;
            match server {
                Some(text) => {
                    let server = read_address(alloc, text, AddressOption::Remote)?;
                    Ok(Objects::RepositoryAndServer(repository, server))
                }
                None => Ok(Objects::Repository(repository)),
            }
        }
    }
}

/// Where they come from if that is no repository.
fn plain_objects_of(
    alloc: Global,
    given: &ArgMatches,
    command: MountCommand,
) -> Result<Objects, OptionsError>
    requires { first_value (found_of given.now) (codes "git") ≡ None }
    ensures ok { IfOk result (SaysObjects (first_value (found_of given.now))) }
    ensures err { IfErr result (RefusesObjects command (first_value (found_of given.now))) }
{
    let server = given.get_str("remote");
    match given.get_str("objects") {
        Some(folder) => match server {
            Some(_) => Err(OptionsError::Source(command)),
            None => Ok(Objects::Folder(String::from_str(alloc, folder)?)),
        },
        None => match server {
            Some(text) => Ok(Objects::Server(read_address(alloc, text, AddressOption::Remote)?)),
            None => Err(OptionsError::Source(command)),
        },
    }
}

/// Where the command is to listen.
fn place_of(
    alloc: Global,
    given: &ArgMatches,
    command: ServerCommand,
) -> Result<Address, OptionsError>
    ensures ok { IfOk result (SaysPlace (first_value (found_of given.now))) }
    ensures err { IfErr result (RefusesServer command (first_value (found_of given.now))) }
{
    let socket = given.get_str("socket");
    match given.get_str("port") {
        Some(port) => match socket {
            Some(_) => Err(OptionsError::Place(command)),
            None => Ok(Address::Port(read(port, NumberOption::Port)? as u16)),
        },
        None => match socket {
            Some(text) => read_address(alloc, text, AddressOption::Socket),
            None => Err(OptionsError::Place(command)),
        },
    }
}

/// The address that the text says for the option, or the option if it says none that it takes.
fn read_address(alloc: Global, text: &str, option: AddressOption) -> Result<Address, OptionsError>
    ensures ok { IfOk result (IsAddress option text.now) }
    ensures err { IfErr result (λ e. (e ≡ error.Memory) ⊎ ((e ≡ error.Address option) × IsNoAddress option text.now)) }
{
    match option.read(alloc, text)? {
        Some(address) => Ok(address),
        None => Err(OptionsError::Address(option)),
    }
}

fn serve_options(alloc: Global, given: &ArgMatches) -> Result<ServeOptions, OptionsError>
    requires { HasRequired serve_options (rows_of (found_of given.now)) }
    ensures ok { IfOk result (IsServed (first_value (found_of given.now))) }
    ensures err { IfErr result (RefusesValues by.Serve (first_value (found_of given.now))) }
{
    let mount = mount_options(alloc, given, MountCommand::Serve)?;
    let address = place_of(alloc, given, ServerCommand::Serve)?;
    let fetchers = number(given, NumberOption::Fetchers, FETCHERS)? as u32;
    Ok(ServeOptions {
        mount,
        address,
        fetchers,
    })
}

fn fuse_options(alloc: Global, given: &ArgMatches) -> Result<FuseOptions, OptionsError>
    requires { HasRequired fuse_options (rows_of (found_of given.now)) }
    ensures ok { IfOk result (IsFolder (first_value (found_of given.now))) }
    ensures err { IfErr result (RefusesValues by.Fuse (first_value (found_of given.now))) }
{
    let mount = mount_options(alloc, given, MountCommand::Fuse)?;
    let threads = number(given, NumberOption::Threads, THREADS)? as u32;
    let since = number(given, NumberOption::Since, 0)?;
    Ok(FuseOptions {
        mount,
        threads,
        since,
    })
}

fn objects_options(alloc: Global, given: &ArgMatches) -> Result<ObjectsOptions, OptionsError>
    ensures ok { IfOk result (AreServed (first_value (found_of given.now))) }
    ensures err { IfErr result (RefusesServed (first_value (found_of given.now))) }
{
    let objects = served_of(alloc, given)?;
    let address = place_of(alloc, given, ServerCommand::Objects)?;
    let sessions = number(given, NumberOption::Sessions, OBJECTS_SESSIONS)? as u32;
    Ok(ObjectsOptions {
        objects,
        address,
        sessions,
    })
}

/// Whose objects are to be served.
fn served_of(alloc: Global, given: &ArgMatches) -> Result<Served, OptionsError>
    ensures ok { IfOk result (SaysServed (first_value (found_of given.now))) }
    ensures named { OnOk result (NamesServed (first_value (found_of given.now))) }
    ensures err { IfErr result (RefusesServed (first_value (found_of given.now))) }
{
    let repository = given.get_str("git");
    match given.get_str("dir") {
        Some(folder) => match repository {
            Some(_) => Err(OptionsError::Served),
            None => Ok(Served::Folder(String::from_str(alloc, folder)?)),
        },
        None => match repository {
            Some(folder) => Ok(Served::Repository(String::from_str(alloc, folder)?)),
            None => Err(OptionsError::Served),
        },
    }
}

fn import_options(alloc: Global, given: &ArgMatches) -> Result<ImportOptions, AllocError>
    requires { HasRequired import_options (rows_of (found_of given.now)) }
    ensures { IfOk result (IsImport (first_value (found_of given.now))) }
{
    let from = given.get_str("from").unwrap();
    let objects = given.get_str("objects").unwrap();
    let from = String::from_str(alloc, from)?;
    let objects = String::from_str(alloc, objects)?;
    Ok(ImportOptions { from, objects })
}

fn tidy_options(alloc: Global, given: &ArgMatches) -> Result<TidyOptions, AllocError>
    requires { HasRequired tidy_options (rows_of (found_of given.now)) }
    ensures { IfOk result (IsTidy (first_value (found_of given.now))) }
{
    let overlay = given.get_str("overlay").unwrap();
    let overlay = String::from_str(alloc, overlay)?;
    Ok(TidyOptions { overlay })
}

/// The value of `--overlay`, if it is given.
fn overlay(alloc: Global, given: &ArgMatches) -> Result<Option<String>, AllocError>
    ensures { IfOk result (λ overlay.
        first_value (found_of given.now) (codes "overlay") ≡ option_map string_bytes overlay) }
{
    match given.get_str("overlay") {
        Some(folder) => Ok(Some(String::from_str(alloc, folder)?)),
        None => Ok(None),
    }
}

/// Whether the flag of this name is given.
pub(crate) fn is_given(given: &ArgMatches, name: &str) -> bool
    ensures { IsTrue result ↔ IsGiven (first_value (found_of given.now)) name.now }
{
    given.get_str(name) == Some("true")
}

/// What is to become of the history.
fn history_of(given: &ArgMatches, command: MountCommand) -> HistoryOption
    ensures { (result ≡ HistoryOption.Counted) ↔ KeepsNone command (first_value (found_of given.now)) }
{
    match given.get_str("history") {
        None => match command {
            MountCommand::Fuse => HistoryOption::Counted,
            MountCommand::Stdio
            | MountCommand::Serve
            | MountCommand::Snapshot
            | MountCommand::Changes
            | MountCommand::Dematerialise => HistoryOption::Kept,
        },
        Some(text) => {
            if text == "none" {
                HistoryOption::Counted
            } else {
                HistoryOption::Kept
            }
        }
    }
}

/// The limits of the mount that the command opens.
fn limits(given: &ArgMatches, command: MountCommand) -> Result<Config, NumberOption>
    ensures ok { IfOk result (SaysLimits command (first_value (found_of given.now))) }
    ensures err { IfErr result (RefusesNumber (first_value (found_of given.now))) }
{
    let passes = passes(given, command)?;
    let history = number(given, NumberOption::History, HISTORY)? as u32;
    let cache_entries = number(given, NumberOption::CacheEntries, CACHE_ENTRIES)? as usize;
    let cache_bytes = number(given, NumberOption::CacheBytes, CACHE_BYTES)?;
    // What an option takes, a mount takes.
    Ok(Config::new(
        passes,
        FLIGHTS,
        history,
        cache_entries,
        cache_bytes,
        CACHE_SIZES,
    )
    .unwrap())
}

/// How many callers there are of the mount that the command opens.
fn passes(given: &ArgMatches, command: MountCommand) -> Result<u32, NumberOption>
    ensures ok { IfOk result (SaysPasses command (first_value (found_of given.now))) }
    ensures range { IfOk result (λ n. (1 ≤ n) × (n ≤ most_of Sessions)) }
    ensures err { IfErr result (RefusesNumber (first_value (found_of given.now))) }
{
    match command {
        MountCommand::Stdio
        | MountCommand::Snapshot
        | MountCommand::Changes
        | MountCommand::Dematerialise => Ok(1),
        MountCommand::Fuse => {
            let threads = number(given, NumberOption::Threads, THREADS)? as u32;
            Ok(threads + 1)
        }
        MountCommand::Serve => Ok(number(given, NumberOption::Sessions, MOUNT_SESSIONS)? as u32),
    }
}

/// The number that an option has: the one that is given, or its default if none is.
///
/// The error names the option, if it doesn't take its value.
fn number(given: &ArgMatches, option: NumberOption, default: u64) -> Result<u64, NumberOption>
    requires { (least_of option ≤ default) × (default ≤ most_of option) }
    ensures ok { IfOk result (SaysNumber option default (first_value (found_of given.now) (number_name option))) }
    ensures range { IfOk result (λ n. (least_of option ≤ n) × (n ≤ most_of option)) }
    ensures err { IfErr result (RefusesNumber (first_value (found_of given.now))) }
{
    match given.get_str(option.name()) {
        Some(text) => read_or(text, option, default),
        None => Ok(default),
    }
}

/// The number of an option with this value: the one that it spells, or the default where it stands for none.
fn read_or(text: &str, option: NumberOption, default: u64) -> Result<u64, NumberOption>
    requires { (least_of option ≤ default) × (default ≤ most_of option) }
    ensures ok { IfOk result (SaysNumber option default (Some text.now)) }
    ensures range { IfOk result (λ n. (least_of option ≤ n) × (n ≤ most_of option)) }
    ensures err { IfErr result (λ refused. (refused ≡ option) × IsNoValue option text.now) }
{
    if option.is_none(text) {
        return Ok(default);
    }
    read(text, option)
}

/// The number that the text spells for the option, or the option if it is none that it takes.
fn read(text: &str, option: NumberOption) -> Result<u64, NumberOption>
    ensures ok { IfOk result (NamesNumber option text.now) }
    ensures range { IfOk result (λ n. (least_of option ≤ n) × (n ≤ most_of option)) }
    ensures err { IfErr result (λ refused. (refused ≡ option) × IsNoNumber option text.now) }
{
    match option.read(text) {
        Some(number) => Ok(number),
        None => Err(option),
    }
}

/// What `clap` finds in the words.
fn matches_of<'a, S: AsStr>(alloc: Global, words: &'a [S]) -> Result<ArgMatches<'a>, OptionsError>
    ensures taken { OnOk result (IsTaken (map S.text words.entry.now)) }
    ensures subcommand { IfOk result (λ matches.
        subcommand_rows_of matches ≡ subcommand_of mountd_line (map S.text words.entry.now)) }
    ensures err { IfErr result (RefusesWords (map S.text words.entry.now)) }
{
    match command_line(alloc)?.try_get_matches_from(words) {
        Ok(matches) => Ok(matches),
        Err(error) => Err(refusal(error)),
    }
}

fn refusal(reason: clap::Error) -> OptionsError
    ensures memory { kind_of reason ≡ OutOfMemory → result ≡ error.Memory }
    ensures one { (result ≡ error.Refused reason) ⊎ ((result ≡ error.Memory) × (kind_of reason ≡ OutOfMemory)) }
{
    if reason.kind() == ErrorKind::OutOfMemory {
        OptionsError::Memory
    } else {
        OptionsError::Refused(reason)
    }
}
