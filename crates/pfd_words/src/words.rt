//! The task that a command line asks for.
ghost use Rattle.std.specs.Prelude.{◌≡◌, ◌≤◌, IfErr, IfOk, List, MatchOption, ℕ, Some, codes, map, string_bytes, true, unwrap_or};
ghost use Rattle.clap.specs.Words.{found_of, kind_of, one_of, first_of, rows_of, subcommand_of, subcommand_rows_of, takes};
ghost use Rattle.pfd_words.specs.{Subcommands.program_words, Words.{IsPlainRun, plain_run, HasHistory, IsAsked, IsHistory, IsMode, IsNoMode, IsRefused, IsRefusedMode, MaySayNumber, SaysLimits, SaysMode, SaysNumber, AsksLoad}};

use crate::conf::{
    ConfTask, ServerTask, coverage_in, matches_in, meaning_in, outcomes_in, server_matches_in,
};
use crate::options::{is_said, text_if_any, text_in, texts_in};
use crate::parameter::command_of;
use crate::subcommands::{SERVE, program_words};
use clap::error::ErrorKind;
use clap::{ArgMatches, Error};
use std::alloc::{AllocError, Global};

/// How many bytes a session's memory disk has by default. Definitions cite it.
pub const MEMORY_SIZE: usize = 1_048_576;

/// How many changes a history may have by default. Definitions cite it.
pub const HISTORY_LIMIT: usize = 65_536;

/// The most changes that a history may have. Definitions cite it.
pub const MOST_HISTORY: usize = 1_048_576;

/// After how many changes a server renews its history by default. Definitions cite it.
pub const RENEWAL: usize = 65_536;

/// The most changes after which it may. As many as a history has room for beyond them can't come while it is renewed. Definitions cite it.
pub const MOST_RENEWAL: usize = 524_288;

/// After how many bytes of changes a server renews its history by default. Definitions cite it.
pub const RENEWAL_BYTES: usize = 268_435_456;

// The most bytes after which it may.
const MOST_RENEWAL_BYTES: usize = 4_294_967_295;

/// How many workers a server has by default. Definitions cite it.
pub const WORKERS: usize = 4;

/// The most workers that a server may have. Definitions cite it.
pub const MOST_WORKERS: usize = 64;

// The greatest number of connections that `--sessions` can say, and of seconds that `--idle` can.
const MOST_SESSIONS: usize = 4_294_967_295;

const MOST_SECONDS: usize = 4_294_967_295;

// The mode of a socket's file to which only its owner may connect. Definitions cite it.
const OWNER_MODE: u32 = 0o600;

// The greatest mode of a socket's file. Definitions cite it.
const MOST_MODE: u32 = 0o777;

// The greatest number that `--retry` can say.
const MOST_RETRIES: usize = 4_294_967_295;

/// After how many changes, or how many bytes of them, a history is renewed.
#[derive(Clone, Copy, Debug, PartialEq, Eq)]
pub struct Limits {
    /// 1 to 524,288.
    pub changes: u64,
    /// 1 to 4,294,967,295.
    pub bytes: u64,
}

/// What `serve` asks for: a server, with its addresses, its disk and its limits.
#[derive(Drop)]
pub struct Service<'a> {
    /// The addresses to listen on, one or more, as they were typed: they may not be any.
    pub addresses: Vec<&'a str>,
    /// Further addresses, at which only peers' streams are taken. If there are any, the others take none.
    pub peers: Vec<&'a str>,
    /// Further addresses, at which sessions may ask and change nothing.
    pub askers: Vec<&'a str>,
    /// The mode of the files of Unix sockets among `addresses`, 0 to 0777.
    pub mode: u32,
    /// The same among `peers`.
    pub peers_mode: u32,
    /// The same among `askers`.
    pub ask_mode: u32,
    /// The path of the file that is the disk.
    pub path: &'a str,
    /// How many bytes the file must have, any number up to 4,294,967,295.
    pub size: usize,
    /// How many connections are served at once, 1 to 64.
    pub workers: usize,
    /// How many changes the history may have, 1 to 1,048,576.
    pub history: usize,
    /// After what the history is renewed; never, if there is none, and then the server takes no change beyond `history`.
    pub renewal: Option<Limits>,
    /// After how many connections the server ends; 0 means never.
    pub sessions: u32,
    /// After how many seconds in which nothing came a connection is closed; 0 means never.
    pub idle: u32,
    /// Whether a line is written for each change.
    pub is_logged: bool,
}

/// What `load` asks for: a pf.conf, and a server that it is loaded into.
#[derive(Drop)]
pub struct LoadTask<'a> {
    /// The path of the file; `-` is standard input.
    pub path: &'a str,
    /// Whether what isn't there is left out of it with a note.
    pub is_lenient: bool,
    /// Interfaces with their addresses, as they were typed: a text may give none.
    pub interfaces: Vec<&'a str>,
    /// The path from which on its rulesets are, if one is named. It is as it was typed: it may not be one.
    pub anchor: Option<&'a str>,
    /// The server's address, as it was typed.
    pub to: &'a str,
    /// How often it is begun anew if somebody else began meanwhile.
    pub retries: u32,
    /// Whether it is only shown what would change.
    pub is_dry: bool,
}

/// What a command line asks for. A `history` is 1 to 1,048,576 changes; a `size` is in bytes, any number up to 4,294,967,295.
#[derive(Drop)]
pub enum Task<'a> {
    /// A session on a disk in memory of `size` bytes, whose history may have `history` changes.
    Run {
        size: usize,
        history: usize,
    },
    /// A session on the disk in a file, which must have `size` bytes if a size is given.
    RunOn {
        path: &'a str,
        size: Option<usize>,
        history: usize,
    },
    /// Makes the file `size` bytes long and formats it.
    Format {
        path: &'a str,
        size: usize,
    },
    /// Shows what the file's disk holds.
    Show {
        path: &'a str,
    },
    /// Serves connections over the disk in a file.
    Serve(Service<'a>),
    /// Sends standard input to the server at the address, and writes its replies.
    Connect {
        address: &'a str,
    },
    /// Answers something of a pf.conf.
    Conf(ConfTask<'a>),
    /// Which rules of a server match a packet.
    Explain(ServerTask<'a>),
    /// Loads a pf.conf into a server, in one commit.
    Load(LoadTask<'a>),
    /// Writes the status of the server at the address.
    Status {
        address: &'a str,
    },
}

/// Reads a command line, which begins with the program's own name. The error has the text for the user: help, the version, what is wrong
/// with the words, or that memory ran out. The word `run` alone is refused only when out of memory; words that clap takes are refused at a
/// mode, too, that isn't octal digits or is above 0777, and at `explain --from` with an option that only a file has a use for.
pub fn read_words<'a>(alloc: Global, words: &'a [String]) -> Result<Task<'a>, Error>
    ensures asked { IfOk result (λ task. IsAsked (subcommand_of program_words (map string_bytes words.entry.now)) task) }
    ensures history { IfOk result HasHistory }
    ensures run { IsPlainRun (map string_bytes words.entry.now) → IfErr result (λ e. kind_of e ≡ ErrorKind.OutOfMemory) }
    ensures alone { IsPlainRun (map string_bytes words.entry.now) → IfOk result (λ task. task ≡ plain_run) }
    ensures refused { takes program_words (map string_bytes words.entry.now) ≡ true →
        IfErr result (λ e. IsRefused (subcommand_of program_words (map string_bytes words.entry.now)) (kind_of e)) }
{
    match program_words(alloc)?.try_get_matches_from(words) {
        Ok(matches) => task_of(alloc, &matches),
        Err(error) => Err(error),
    }
}

// The task of the subcommand that clap found. There always is one, with its required options. Only lists of words take memory.
fn task_of<'a>(alloc: Global, matches: &ArgMatches<'a>) -> Result<Task<'a>, Error>
    ensures asked { IfOk result (λ task. IsAsked (subcommand_rows_of matches.now) task) }
    ensures history { IfOk result HasHistory }
    ensures refused { IfErr result (λ e. IsRefused (subcommand_rows_of matches.now) (kind_of e)) }
{
    match matches.subcommand() {
        Some(("format", found)) => Ok(Task::Format {
            path: text_in(found, "disk"),
            size: number_in(found, "size", 0),
        }),
        Some(("show", found)) => Ok(Task::Show {
            path: text_in(found, "disk"),
        }),
        Some(("serve", found)) => server_in(alloc, found),
        Some(("connect", found)) => Ok(Task::Connect {
            address: text_in(found, "address"),
        }),
        Some(("status", found)) => Ok(Task::Status {
            address: address_in(found, "address"),
        }),
        Some((name, found)) => conf_in(alloc, name, found),
        None => Ok(Task::Run {
            size: MEMORY_SIZE,
            history: HISTORY_LIMIT,
        }),
    }
}

// The task of a subcommand that asks something of a pf.conf, or of another one: that is `run`.
fn conf_in<'a>(alloc: Global, name: &str, found: &ArgMatches<'a>) -> Result<Task<'a>, Error>
    ensures asked { IfOk result (λ task. IsAsked (Some (name.now, rows_of (found_of found.now))) task) }
    ensures history { IfOk result HasHistory }
    ensures refused { IfErr result (λ e. IsRefused (Some (name.now, rows_of (found_of found.now))) (kind_of e)) }
{
    match name {
        "check" => Ok(Task::Conf(meaning_in(alloc, found)?)),
        "test" => Ok(Task::Conf(outcomes_in(alloc, found)?)),
        "cover" => Ok(Task::Conf(coverage_in(alloc, found)?)),
        "explain" => explained_in(alloc, found),
        "load" => Ok(Task::Load(load_in(alloc, found)?)),
        _ => Ok(session_in(found)),
    }
}

// A session on the file that `--disk` names, or in memory without one.
fn session_in<'a>(found: &ArgMatches<'a>) -> Task<'a>
    ensures asked { (name : List ℕ) → IsAsked (Some (name, rows_of (found_of found.now))) result }
    ensures history { HasHistory result }
{
    let history = number_in(found, "history", HISTORY_LIMIT).clamp(1, MOST_HISTORY);
    match text_if_any(found, "disk") {
        Some(path) => Task::RunOn {
            path,
            size: number_if_any(found, "size"),
            history,
        },
        None => Task::Run {
            size: number_in(found, "size", MEMORY_SIZE),
            history,
        },
    }
}

// The task of `serve`.
fn server_in<'a>(alloc: Global, found: &ArgMatches<'a>) -> Result<Task<'a>, Error>
    ensures asked { IfOk result (λ task. IsAsked (Some (codes "serve", rows_of (found_of found.now))) task) }
    ensures history { IfOk result HasHistory }
    ensures refused { IfErr result (λ e. IsRefused (Some (codes "serve", rows_of (found_of found.now))) (kind_of e)) }
{
    let addresses = texts_in(alloc, found, "listen")?;
    let peers = texts_in(alloc, found, "peers")?;
    let askers = texts_in(alloc, found, "ask")?;
    let mode = mode_in(alloc, found, "mode")?;
    let ask_mode = mode_in(alloc, found, "ask-mode")?;
    let peers_mode = mode_in(alloc, found, "peers-mode")?;
    let (history, renewal) = limits_in(found);
    let sessions = number_in(found, "sessions", 0).min(MOST_SESSIONS);
    let idle = number_in(found, "idle", 0).min(MOST_SECONDS);
    Ok(Task::Serve(Service {
        addresses,
        peers,
        askers,
        mode,
        peers_mode,
        ask_mode,
        path: text_in(found, "disk"),
        size: number_in(found, "size", 0),
        workers: number_in(found, "workers", WORKERS).clamp(1, MOST_WORKERS),
        history,
        renewal,
        sessions: sessions as u32,
        idle: idle as u32,
        is_logged: is_said(found, "log"),
    }))
}

// How many changes the history may have, and when it is renewed: never, if it is said how many there may be.
fn limits_in(found: &ArgMatches<'_>) -> (usize, Option<Limits>)
    ensures says { SaysLimits (Some (codes "serve", rows_of (found_of found.now))) result.0 result.1 }
    ensures history { IsHistory result.0 }
{
    if let Some(history) = number_if_any(found, "history") {
        return (history.clamp(1, MOST_HISTORY), None);
    }
    let changes = number_in(found, "renew", RENEWAL).clamp(1, MOST_RENEWAL);
    let bytes = number_in(found, "renew-bytes", RENEWAL_BYTES).clamp(1, MOST_RENEWAL_BYTES);
    let limits = Limits {
        changes: changes as u64,
        bytes: bytes as u64,
    };
    (MOST_HISTORY, Some(limits))
}

// The task of `explain`: of a server if one is named, else of a file.
fn explained_in<'a>(alloc: Global, found: &ArgMatches<'a>) -> Result<Task<'a>, Error>
    ensures asked { IfOk result (λ task. IsAsked (Some (codes "explain", rows_of (found_of found.now))) task) }
    ensures history { IfOk result HasHistory }
    ensures refused { IfErr result (λ e. IsRefused (Some (codes "explain", rows_of (found_of found.now))) (kind_of e)) }
{
    match text_if_any(found, "from") {
        Some(from) => Ok(Task::Explain(server_matches_in(alloc, found, from)?)),
        None => Ok(Task::Conf(matches_in(alloc, found)?)),
    }
}

// The task of `load`.
fn load_in<'a>(alloc: Global, found: &ArgMatches<'a>) -> Result<LoadTask<'a>, AllocError>
    ensures { IfOk result (AsksLoad (Some (codes "load", rows_of (found_of found.now)))) }
{
    let retries = number_in(found, "retry", 0).min(MOST_RETRIES);
    let interfaces = texts_in(alloc, found, "interface")?;
    Ok(LoadTask {
        path: text_in(found, "file"),
        is_lenient: is_said(found, "lenient"),
        interfaces,
        anchor: text_if_any(found, "anchor"),
        to: address_in(found, "to"),
        retries: retries as u32,
        is_dry: is_said(found, "dry-run"),
    })
}

// The address that a word says, or the one at which the unit and the script for rc(8) have a server.
fn address_in<'a>(found: &ArgMatches<'a>, word: &str) -> &'a str
    ensures { result.now ≡ unwrap_or (first_of word.now (rows_of (found_of found.now))) (codes "/var/run/pfd/pfd.sock") }
{
    found.get_str(word).unwrap_or("/var/run/pfd/pfd.sock")
}

// The mode that an option of `serve` says, or without it the one by which only the owner may connect.
fn mode_in(alloc: Global, found: &ArgMatches<'_>, option: &str) -> Result<u32, Error>
    ensures mode { IfOk result (λ mode. SaysMode option.now (Some (codes "serve", rows_of (found_of found.now))) mode) }
    ensures refused { IfErr result (λ e. IsRefusedMode option.now (Some (codes "serve", rows_of (found_of found.now))) (kind_of e)) }
{
    let Some(text) = found.get_str(option) else {
        return Ok(OWNER_MODE);
    };
    match mode_of(text) {
        Some(mode) => Ok(mode),
        None => Err(wrong_mode(alloc, option, text)?),
    }
}

// The mode that a text says, if it says one.
fn mode_of(text: &str) -> Option<u32>
    ensures { MatchOption result (IsNoMode text.now) (λ mode. IsMode text.now mode) }
{
    // a number may begin with a plus
    if text.starts_with('+') {
        return None;
    }
    match u32::from_str_radix(text, 8) {
        Ok(mode) if mode <= MOST_MODE => Some(mode),
        _ => None,
    }
}

// The error for an option's text that is no mode.
fn wrong_mode(alloc: Global, option: &str, text: &str) -> Result<Error, AllocError>
    ensures { IfOk result (λ e. kind_of e ≡ ErrorKind.ValueValidation) }
{
    let message = format!(in alloc;
        "invalid value '{text}' for '--{option} <MODE>': a mode is 0 to 0777, in octal digits"
    )?;
    let mut command = command_of(alloc, &SERVE)?.bin_name("pfd serve")?;
    command.error(ErrorKind::ValueValidation, message.as_str())
}

// An option's number, or none if the option isn't there.
fn number_if_any(found: &ArgMatches<'_>, option: &str) -> Option<usize>
    ensures { MaySayNumber 0 18446744073709551615 (one_of option.now (rows_of (found_of found.now))) result }
{
    found.get_one::<usize>(option)
}

// An option's number, or `default` if the option isn't there.
fn number_in(found: &ArgMatches<'_>, option: &str, default: usize) -> usize
    ensures { SaysNumber 0 18446744073709551615 default (one_of option.now (rows_of (found_of found.now))) result }
{
    number_if_any(found, option).unwrap_or(default)
}
