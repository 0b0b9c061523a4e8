//! A load.
ghost use Rattle.std.specs.{Prelude.{◌≡◌, ◌<◌, ◌≤◌, ◌++◌, true, length, map, IfOk}, Result.is_err};
ghost use Rattle.pf_addr.specs.Writing.{Writes, WritesFront};
ghost use Rattle.pf_conf.specs.Commit.Lines.{begin_line, load_lines, commit_line, rollback_line};
ghost use Rattle.pf_conf.specs.Commit.Naming.{ruleset_names};
ghost use Rattle.pf_commit.specs.Loading.{name_of, Attempts, Loads};

use crate::fault::Fault;
use crate::replies::{first_line, heed, read_reply, send};
use pf_conf::Conf;
use pf_conf::commit::{Begun, begin_text, commit_text, load_text, rollback_text, ruleset_names};
use pf_form::form::words;
use pf_ticket::RulesetName;
use pf_tokens::Items;
use std::alloc::{AllocError, Global};
use std::io::{BufRead, Write};

/// How many lines are sent before their replies are read. An `ok` has three bytes with its newline, so that the replies wait in a socket's
/// buffer, and neither end waits for the other.
const UNANSWERED: usize = 512;

/// How many bytes the first lines have, as many as are sent at once.
fn length_of_some(lines: &[u8]) -> usize
    requires { 0 < length lines.now }
    ensures some { 0 < result }
    ensures within { result ≤ length lines.now }
{
    let mut count: usize = 0;
    for (at, byte) in lines.iter().enumerate() {
        if *byte == b'\n' {
            count = count.saturating_add(1);
            if count == UNANSWERED {
                return at + 1;
            }
        }
    }
    lines.len()
}

/// Sends lines that offer something. Each has to be answered `ok`; after the first that isn't no more are sent than their replies were
/// waited for.
fn offer<B: BufRead, W: Write>(
    alloc: Global,
    server: &mut W,
    replies: &mut B,
    lines: &[u8],
) -> Result<(), Fault>
    ensures { Writes result (W.contents server.old) (W.contents server.new) lines.now }
{
    let mut left = lines;
    while !left.is_empty() {
        let (some, rest) = left.split_at(length_of_some(left));
        send(server, some)?;
        heed(alloc, replies, some)?;
        left = rest;
    }
    Ok(())
}

/// Each of these rulesets, with its ticket.
#[tactic(auto, using(pf_conf::proofs::CommitSteps::take_item, crate::proofs::Attempts::name_pushed))]
fn with_tickets(
    alloc: Global,
    names: &[RulesetName],
    tickets: &[&[u8]],
) -> Result<Vec<Begun>, AllocError>
    requires { length names.now ≡ length tickets.now }
    ensures { IfOk result (λ v. map name_of v.items ≡ names.now) }
{
    let mut begun = Vec::new(alloc);
    for (at, name) in names.iter().enumerate() {
        let name = name.copied();
        let ticket = Items::copied(alloc, tickets[at])?;
        begun.push(Begun { name, ticket })?;
    }
    Ok(begun)
}

/// What the reply to a begin gives: a ticket for each ruleset.
fn begun_by(
    alloc: Global,
    names: &[RulesetName],
    line: &[u8],
    reply: &[u8],
) -> Result<Vec<Begun>, Fault>
    ensures { IfOk result (λ v. map name_of v.items ≡ names.now) }
{
    let words = words(alloc, reply)?;
    match words.as_slice().split_first() {
        Some((first, tickets)) if *first == b"ok".as_slice() && tickets.len() == names.len() => {
            Ok(with_tickets(alloc, names, tickets)?)
        }
        _ => Err(Fault::refused(alloc, first_line(line).0, reply)),
    }
}

/// Begins these rulesets.
fn begin<B: BufRead, W: Write>(
    alloc: Global,
    server: &mut W,
    replies: &mut B,
    names: &[RulesetName],
) -> Result<Vec<Begun>, Fault>
    ensures written { Writes result (W.contents server.old) (W.contents server.new) (begin_line names.now) }
    ensures named { IfOk result (λ v. map name_of v.items ≡ names.now) }
{
    let line = begin_text(alloc, names)?;
    send(server, &line)?;
    let reply = read_reply(alloc, replies)?;
    begun_by(alloc, names, &line, &reply)
}

/// Commits all that was begun, and returns what the server answers to that.
fn commit<B: BufRead, W: Write>(
    alloc: Global,
    server: &mut W,
    replies: &mut B,
    begun: &[Begun],
) -> Result<Vec<u8>, Fault>
    ensures { Writes result (W.contents server.old) (W.contents server.new) (commit_line begun.now) }
{
    let line = commit_text(alloc, begun)?;
    send(server, &line)?;
    let reply = read_reply(alloc, replies)?;
    if reply.starts_with(b"applied ") || reply.starts_with(b"stored ") {
        return Ok(reply);
    }
    Err(Fault::refused(alloc, first_line(&line).0, &reply))
}

/// Offers all that a file means, and commits it if all of that was taken.
fn offer_and_commit<B: BufRead, W: Write>(
    alloc: Global,
    server: &mut W,
    replies: &mut B,
    conf: &Conf,
    begun: &[Begun],
) -> Result<Vec<u8>, Fault>
    ensures { Writes result (W.contents server.old) (W.contents server.new) (load_lines begun.now conf.now ++ commit_line begun.now) }
{
    let lines = load_text(alloc, begun, conf)?;
    offer(alloc, server, replies, &lines)?;
    commit(alloc, server, replies, begun)
}

/// Drops what was begun, and what was offered for it.
fn roll_back<B: BufRead, W: Write>(
    alloc: Global,
    server: &mut W,
    replies: &mut B,
    begun: &[Begun],
) -> Result<(), Fault>
    ensures { Writes result (W.contents server.old) (W.contents server.new) (rollback_line begun.now) }
{
    let line = rollback_text(alloc, begun)?;
    send(server, &line)?;
    let _reply = read_reply(alloc, replies)?;
    Ok(())
}

/// The same, whatever comes of it: a server that is gone has dropped all of it.
fn give_up<B: BufRead, W: Write>(alloc: Global, server: &mut W, replies: &mut B, begun: &[Begun])
    ensures { WritesFront (W.contents server.old) (W.contents server.new) (rollback_line begun.now) }
{
    let _ = roll_back(alloc, server, replies, begun);
}

/// A load that isn't tried again.
fn attempt<B: BufRead, W: Write>(
    alloc: Global,
    server: &mut W,
    replies: &mut B,
    conf: &Conf,
    names: &[RulesetName],
) -> Result<Vec<u8>, Fault>
    requires { names.now ≡ ruleset_names conf.now }
    ensures { Attempts conf.now result (W.contents server.old) (W.contents server.new) }
{
    let begun = begin(alloc, server, replies, names)?;
    let done = offer_and_commit(alloc, server, replies, conf, &begun);
    if done.is_err() {
        give_up(alloc, server, replies, &begun);
    }
    done
}

/// Whether it stopped since somebody else began on the same ruleset, or committed it, meanwhile.
fn is_busy(done: &Result<Vec<u8>, Fault>) -> bool
    ensures { result ≡ true → is_err done.now ≡ true }
{
    match done {
        Ok(_) => false,
        Err(fault) => fault.is_busy(),
    }
}

/// Loads all that a file means into a server, in one commit, or nothing of it; and returns the server's reply, `applied N` or `stored N`.
/// Other rulesets and tables stay. It is begun anew at most so many times, if somebody else began or committed one of the rulesets
/// meanwhile. Of each that stops a front is sent, and behind it a front of its rollback.
///
/// `Fault::Refused`: the line was refused, and all that was begun was dropped. `Fault::Ended`: the server ended before it had answered the
/// commit, which may have been made if it was sent. `Fault::Memory`: out of memory, also here before anything was sent.
pub fn load<B: BufRead, W: Write>(
    alloc: Global,
    server: &mut W,
    replies: &mut B,
    conf: &Conf,
    retries: u32,
) -> Result<Vec<u8>, Fault>
    ensures { Loads conf.now retries result (W.contents server.old) (W.contents server.new) }
{
    let names = ruleset_names(alloc, conf)?;
    'tries: for _ in 0..retries {
        let done = attempt(alloc, server, replies, conf, &names);
        if !is_busy(&done) {
            return done;
        }
    }
    attempt(alloc, server, replies, conf, &names)
}
