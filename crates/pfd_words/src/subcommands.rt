//! The subcommands with their options and words, in the order of help.
ghost use Rattle.std.specs.Prelude.{◌≡◌, IfOk};
ghost use Rattle.clap.specs.Words.{app_of};
ghost use Rattle.pfd_words.specs.{Parameters.HasAdded, Subcommands.program_words};

use crate::parameter::{Parameter, Subcommand, Takes, command_of};
use clap::Command;
use std::alloc::{AllocError, Global};

/// The program's version, which `pfd --version` writes after its name.
const VERSION: &str = "0.1.0";

const DISK: Parameter = Parameter {
    name: "disk",
    is_option: true,
    is_required: false,
    takes: Takes::Text("FILE"),
    help: "The file that is its disk; without one it lies in memory",
};

const NEEDED_DISK: Parameter = Parameter {
    is_required: true,
    help: "The file that is the disk",
    ..DISK
};

const SIZE: Parameter = Parameter {
    name: "size",
    is_option: true,
    is_required: false,
    takes: Takes::Number("N", 0, 4_294_967_295),
    help: "How many bytes the disk has [default in memory: 1048576]",
};

const FORMAT_SIZE: Parameter = Parameter {
    is_required: true,
    help: "How many bytes it has: an even number from 256 to 1073741824",
    ..SIZE
};

const SERVE_SIZE: Parameter = Parameter {
    is_required: true,
    help: "How many bytes the file has",
    ..SIZE
};

const HISTORY: Parameter = Parameter {
    name: "history",
    is_option: true,
    is_required: false,
    takes: Takes::Number("N", 1, 1_048_576),
    help: "How many changes the session may have [default: 65536]",
};

const SERVE_HISTORY: Parameter = Parameter {
    help: "How many changes the process may make [default: it renews its history]",
    ..HISTORY
};

const LISTEN: Parameter = Parameter {
    name: "listen",
    is_option: true,
    is_required: true,
    takes: Takes::Texts("ADDR"),
    help: "The address and port to listen on, as 127.0.0.1:7070 or [::1]:7070, or the path of a Unix socket; may be said again",
};

const WORKERS: Parameter = Parameter {
    name: "workers",
    is_option: true,
    is_required: false,
    takes: Takes::Number("N", 1, 64),
    help: "How many connections are served at once [default: 4]",
};

const SESSIONS: Parameter = Parameter {
    name: "sessions",
    is_option: true,
    is_required: false,
    takes: Takes::Number("N", 0, 4_294_967_295),
    help: "Ends once so many connections have ended; 0 never [default: 0]",
};

const RENEW: Parameter = Parameter {
    name: "renew",
    is_option: true,
    is_required: false,
    takes: Takes::Number("N", 1, 524_288),
    help: "Renews the history after so many changes, if --history isn't said [default: 65536]",
};

const RENEW_BYTES: Parameter = Parameter {
    name: "renew-bytes",
    is_option: true,
    is_required: false,
    takes: Takes::Number("N", 1, 4_294_967_295),
    help: "The same after so many bytes of changes [default: 268435456]",
};

const IDLE: Parameter = Parameter {
    name: "idle",
    is_option: true,
    is_required: false,
    takes: Takes::Number("SECONDS", 0, 4_294_967_295),
    help: "Closes a connection on which nothing came for so long; 0 never [default: 0]",
};

const MODE: Parameter = Parameter {
    name: "mode",
    is_option: true,
    is_required: false,
    takes: Takes::Text("MODE"),
    help: "The mode of the files of --listen's Unix sockets, in octal [default: 0600]",
};

const ASK: Parameter = Parameter {
    name: "ask",
    is_option: true,
    is_required: false,
    takes: Takes::Texts("ADDR"),
    help: "A further address, at which clients may ask and change nothing; may be said again",
};

const ASK_MODE: Parameter = Parameter {
    name: "ask-mode",
    help: "The same of --ask's",
    ..MODE
};

const PEERS: Parameter = Parameter {
    name: "peers",
    is_option: true,
    is_required: false,
    takes: Takes::Texts("ADDR"),
    help: "A further address, for peers' streams alone, which no other then takes; may be said again",
};

const PEERS_MODE: Parameter = Parameter {
    name: "peers-mode",
    help: "The same of --peers'",
    ..MODE
};

const LOG: Parameter = Parameter {
    name: "log",
    is_option: true,
    is_required: false,
    takes: Takes::Nothing,
    help: "Writes a line on standard error for each change, and for each opening",
};

const CONNECT_ADDRESS: Parameter = Parameter {
    name: "address",
    is_option: false,
    is_required: true,
    takes: Takes::Text("ADDR"),
    help: "The server's address, as serve prints it",
};

const STATUS_ADDRESS: Parameter = Parameter {
    name: "address",
    is_option: false,
    is_required: false,
    takes: Takes::Text("ADDR"),
    help: "The server's address and port, or the path of its socket [default: /var/run/pfd/pfd.sock]",
};

const TO: Parameter = Parameter {
    name: "to",
    is_option: true,
    is_required: false,
    takes: Takes::Text("ADDR"),
    help: "The server's address and port, or the path of its socket [default: /var/run/pfd/pfd.sock]",
};

const RETRY: Parameter = Parameter {
    name: "retry",
    is_option: true,
    is_required: false,
    takes: Takes::Number("N", 0, 4_294_967_295),
    help: "Begins anew so many times if somebody else began meanwhile [default: 0]",
};

const LOAD_ANCHOR: Parameter = Parameter {
    name: "anchor",
    is_option: true,
    is_required: false,
    takes: Takes::Text("PATH"),
    help: "Loads it as the rules of the anchor at this path",
};

const CHECK_ANCHOR: Parameter = Parameter {
    help: "Reads it as the rules of the anchor at this path",
    ..LOAD_ANCHOR
};

const DRY_RUN: Parameter = Parameter {
    name: "dry-run",
    is_option: true,
    is_required: false,
    takes: Takes::Nothing,
    help: "Shows what would change, and changes nothing",
};

const CONF_FILE: Parameter = Parameter {
    name: "file",
    is_option: false,
    is_required: true,
    takes: Takes::Text("FILE"),
    help: "The pf.conf; - is standard input",
};

const LENIENT: Parameter = Parameter {
    name: "lenient",
    is_option: true,
    is_required: false,
    takes: Takes::Nothing,
    help: "Leaves out what isn't there and changes no verdict, with a note",
};

const INTERFACE: Parameter = Parameter {
    name: "interface",
    is_option: true,
    is_required: false,
    takes: Takes::Texts("NAME=ADDRESS/LENGTH,.."),
    help: "An interface's addresses, where the file names it as a host; may be said again",
};

const CASES: Parameter = Parameter {
    name: "cases",
    is_option: false,
    is_required: true,
    takes: Takes::Texts("CASES"),
    help: "Files of cases, each a line PACKET -> VERDICT",
};

const TAP: Parameter = Parameter {
    name: "tap",
    is_option: true,
    is_required: false,
    takes: Takes::Nothing,
    help: "Writes the outcomes in TAP",
};

const JUNIT: Parameter = Parameter {
    name: "junit",
    is_option: true,
    is_required: false,
    takes: Takes::Text("FILE"),
    help: "Writes the outcomes to this file too, in JUnit's XML",
};

const PACKET: Parameter = Parameter {
    name: "packet",
    is_option: false,
    is_required: true,
    takes: Takes::Texts("PACKET"),
    help: "As in em0 tcp 198.51.100.9 40000 192.0.2.1 80",
};

const FROM: Parameter = Parameter {
    name: "from",
    is_option: true,
    is_required: false,
    takes: Takes::Text("ADDR"),
    help: "Explains by what the server at this address has, without FILE",
};

const RUN: Subcommand = Subcommand {
    name: "run",
    about: "Answers the lines of standard input on standard output",
    parameters: &[DISK, SIZE, HISTORY],
};

const FORMAT: Subcommand = Subcommand {
    name: "format",
    about: "Makes a file a disk that holds nothing",
    parameters: &[NEEDED_DISK, FORMAT_SIZE],
};

const SHOW: Subcommand = Subcommand {
    name: "show",
    about: "Shows what a disk holds",
    parameters: &[NEEDED_DISK],
};

pub(crate) const SERVE: Subcommand = Subcommand {
    name: "serve",
    about: "Answers the lines of connections over the disk on a file",
    parameters: &[
        LISTEN,
        NEEDED_DISK,
        SERVE_SIZE,
        WORKERS,
        SERVE_HISTORY,
        SESSIONS,
        RENEW,
        RENEW_BYTES,
        IDLE,
        MODE,
        ASK,
        ASK_MODE,
        PEERS,
        PEERS_MODE,
        LOG,
    ],
};

const CONNECT: Subcommand = Subcommand {
    name: "connect",
    about: "Sends standard input to a server, and its replies to standard output",
    parameters: &[CONNECT_ADDRESS],
};

const CHECK: Subcommand = Subcommand {
    name: "check",
    about: "Shows what a pf.conf means, or what is wrong with it",
    parameters: &[CONF_FILE, LENIENT, INTERFACE, CHECK_ANCHOR],
};

const TEST: Subcommand = Subcommand {
    name: "test",
    about: "Judges the packets of cases by a pf.conf, and shows each verdict that differs",
    parameters: &[CONF_FILE, LENIENT, INTERFACE, CASES, TAP, JUNIT],
};

const COVER: Subcommand = Subcommand {
    name: "cover",
    about: "Shows the rules of a pf.conf that decide no case",
    parameters: &[CONF_FILE, LENIENT, INTERFACE, CASES],
};

pub(crate) const EXPLAIN: Subcommand = Subcommand {
    name: "explain",
    about: "Shows the rules of a pf.conf that match a packet, and the verdict",
    parameters: &[CONF_FILE, LENIENT, INTERFACE, PACKET, FROM],
};

const LOAD: Subcommand = Subcommand {
    name: "load",
    about: "Loads a pf.conf into a server: all of it in one commit, or nothing",
    parameters: &[
        CONF_FILE,
        LENIENT,
        INTERFACE,
        TO,
        LOAD_ANCHOR,
        DRY_RUN,
        RETRY,
    ],
};

const STATUS: Subcommand = Subcommand {
    name: "status",
    about: "Shows how far a server is, and how much it keeps",
    parameters: &[STATUS_ADDRESS],
};

const SUBCOMMANDS: [Subcommand; 11] = [
    RUN, FORMAT, SHOW, SERVE, CONNECT, CHECK, TEST, COVER, EXPLAIN, LOAD, STATUS,
];

// A command with these subcommands behind those that it has.
fn with_subcommands<'a>(
    alloc: Global,
    mut command: Command<'a>,
    subcommands: &[Subcommand],
) -> Result<Command<'a>, AllocError>
    ensures { IfOk result (λ c. HasAdded (app_of command.entry) subcommands.now (app_of c)) }
{
    for subcommand in subcommands {
        command = command.subcommand(command_of(alloc, subcommand)?)?;
    }
    Ok(command)
}

/// The program's command line: one of the subcommands must be there.
pub(crate) fn program_words<'a>(alloc: Global) -> Result<Command<'a>, AllocError>
    ensures { IfOk result (λ c. app_of c ≡ program_words) }
{
    let program = Command::new(alloc, "pfd")
        .about("A control plane for rulesets of pf")
        .version(VERSION)
        .subcommand_required(true);
    with_subcommands(alloc, program, &SUBCOMMANDS)
}
