//! Reading the words of a line.
ghost use Rattle.pf_form.specs.Form.Readers.{ReadsWhole, ReadsAll};
ghost use Rattle.pf_line.specs.Grammar.{begun, added, defined, extended, committed, rolled_back, entries_added, entries_deleted, entries_set, killed, judged, tested, tracked, state_killed, expired, shown, overview, question, alone, history_or_question, state_or_question, edit_or_question, command};

use crate::lists::{read_rows, read_some_rows};
use crate::words::{
    path_word, read_entry, read_name, read_offered, read_state, read_table, read_until, tick_word,
    ticket_word,
};
use pf_core::{Command, HistoryCommand, Question, StateCommand, TableEdit, Transaction};
use pf_form::form::{Unread, WordFault, Words, each, end, expect, takes};
use pf_rule::value::address_word;
use pf_rule::{Mistake, Packet, Rule};
use pf_ticket::{RulesetNames, RulesetTickets};
use std::alloc::Global;

#[tactic(auto, unfolding(crate::specs::Grammar::begun))]
fn begin(alloc: Global, words: &[&[u8]]) -> Result<Result<Command, Mistake>, Unread>
    ensures { ReadsAll (λ x. x) begun result words.now }
{
    let names = each(alloc, words, read_name)?;
    let step = Transaction::Begin(RulesetNames::new(names));
    Ok(Ok(Command::Transact(step)))
}

#[tactic(auto, unfolding(crate::specs::Grammar::added))]
fn add<'a>(words: Words<'a>) -> Result<Result<Command, Mistake>, WordFault>
    ensures { ReadsWhole (λ x. x) added result words.now }
{
    let mut rest = words;
    let path = path_word(&mut rest)?;
    let ticket = ticket_word(&mut rest)?;
    let read = Rule::read(&mut rest)?;
    end(rest)?;
    match read {
        Ok(rule) => {
            let step = Transaction::Add { path, ticket, rule };
            Ok(Ok(Command::Transact(step)))
        }
        Err(mistake) => Ok(Err(mistake)),
    }
}

#[tactic(auto, unfolding(crate::specs::Grammar::defined))]
fn define<'a>(alloc: Global, words: Words<'a>) -> Result<Result<Command, Mistake>, Unread>
    ensures { ReadsAll (λ x. x) defined result words.now }
{
    let mut rest = words;
    let (path, ticket, name) = read_offered(&mut rest)?;
    let entries = read_rows(alloc, rest)?;
    let step = Transaction::Define {
        path,
        ticket,
        name,
        entries,
    };
    Ok(Ok(Command::Transact(step)))
}

#[tactic(auto, unfolding(crate::specs::Grammar::extended))]
fn extend<'a>(alloc: Global, words: Words<'a>) -> Result<Result<Command, Mistake>, Unread>
    ensures { ReadsAll (λ x. x) extended result words.now }
{
    let mut rest = words;
    let (path, ticket, name) = read_offered(&mut rest)?;
    let entries = read_some_rows(alloc, rest)?;
    let step = Transaction::Extend {
        path,
        ticket,
        name,
        entries,
    };
    Ok(Ok(Command::Transact(step)))
}

#[tactic(auto, unfolding(crate::specs::Grammar::committed))]
fn commit(alloc: Global, words: &[&[u8]]) -> Result<Result<Command, Mistake>, Unread>
    ensures { ReadsAll (λ x. x) committed result words.now }
{
    let entries = each(alloc, words, read_entry)?;
    let step = Transaction::Commit(RulesetTickets::new(entries));
    Ok(Ok(Command::Transact(step)))
}

#[tactic(auto, unfolding(crate::specs::Grammar::rolled_back))]
fn rollback(alloc: Global, words: &[&[u8]]) -> Result<Result<Command, Mistake>, Unread>
    ensures { ReadsAll (λ x. x) rolled_back result words.now }
{
    let entries = each(alloc, words, read_entry)?;
    let step = Transaction::Rollback(RulesetTickets::new(entries));
    Ok(Ok(Command::Transact(step)))
}

#[tactic(auto, unfolding(crate::specs::Grammar::entries_added))]
fn add_entries<'a>(alloc: Global, words: Words<'a>) -> Result<Result<Command, Mistake>, Unread>
    ensures { ReadsAll (λ x. x) entries_added result words.now }
{
    let mut rest = words;
    let (path, name) = read_table(&mut rest)?;
    let entries = read_some_rows(alloc, rest)?;
    let edit = TableEdit::Add {
        path,
        name,
        entries,
    };
    Ok(Ok(Command::Edit(edit)))
}

#[tactic(auto, unfolding(crate::specs::Grammar::entries_deleted))]
fn delete_entries<'a>(alloc: Global, words: Words<'a>) -> Result<Result<Command, Mistake>, Unread>
    ensures { ReadsAll (λ x. x) entries_deleted result words.now }
{
    let mut rest = words;
    let (path, name) = read_table(&mut rest)?;
    let entries = read_some_rows(alloc, rest)?;
    let edit = TableEdit::Delete {
        path,
        name,
        entries,
    };
    Ok(Ok(Command::Edit(edit)))
}

#[tactic(auto, unfolding(crate::specs::Grammar::entries_set))]
fn set_entries<'a>(alloc: Global, words: Words<'a>) -> Result<Result<Command, Mistake>, Unread>
    ensures { ReadsAll (λ x. x) entries_set result words.now }
{
    let mut rest = words;
    let (path, name) = read_table(&mut rest)?;
    let entries = read_rows(alloc, rest)?;
    let edit = TableEdit::Set {
        path,
        name,
        entries,
    };
    Ok(Ok(Command::Edit(edit)))
}

#[tactic(auto, unfolding(crate::specs::Grammar::killed))]
fn kill<'a>(words: Words<'a>) -> Result<Result<Command, Mistake>, WordFault>
    ensures { ReadsWhole (λ x. x) killed result words.now }
{
    let mut rest = words;
    let (path, name) = read_table(&mut rest)?;
    end(rest)?;
    Ok(Ok(Command::Edit(TableEdit::Kill { path, name })))
}

#[tactic(auto, unfolding(crate::specs::Grammar::tracked))]
fn track<'a>(words: Words<'a>) -> Result<Result<Command, Mistake>, WordFault>
    ensures { ReadsWhole (λ x. x) tracked result words.now }
{
    let mut rest = words;
    let name = read_state(&mut rest)?;
    let read = Packet::read(&mut rest)?;
    let until = read_until(&mut rest)?;
    end(rest)?;
    match read {
        Ok(packet) => {
            let command = StateCommand::Track {
                name,
                packet,
                until,
            };
            Ok(Ok(Command::States(command)))
        }
        Err(mistake) => Ok(Err(mistake)),
    }
}

#[tactic(auto, unfolding(crate::specs::Grammar::state_killed))]
fn kill_state<'a>(words: Words<'a>) -> Result<Result<Command, Mistake>, WordFault>
    ensures { ReadsWhole (λ x. x) state_killed result words.now }
{
    let mut rest = words;
    let name = read_state(&mut rest)?;
    end(rest)?;
    Ok(Ok(Command::States(StateCommand::Kill(name))))
}

#[tactic(auto, unfolding(crate::specs::Grammar::expired))]
fn expire<'a>(words: Words<'a>) -> Result<Result<Command, Mistake>, WordFault>
    ensures { ReadsWhole (λ x. x) expired result words.now }
{
    let mut rest = words;
    let tick = tick_word(&mut rest)?;
    end(rest)?;
    Ok(Ok(Command::States(StateCommand::Expire(tick))))
}

#[tactic(auto, unfolding(crate::specs::Grammar::judged))]
fn judge<'a>(words: Words<'a>) -> Result<Result<Command, Mistake>, WordFault>
    ensures { ReadsWhole (λ x. x) judged result words.now }
{
    let mut rest = words;
    let read = Packet::read(&mut rest)?;
    end(rest)?;
    match read {
        Ok(packet) => Ok(Ok(Command::Ask(Question::Judge(packet)))),
        Err(mistake) => Ok(Err(mistake)),
    }
}

#[tactic(auto, unfolding(crate::specs::Grammar::tested))]
fn test<'a>(words: Words<'a>) -> Result<Result<Command, Mistake>, WordFault>
    ensures { ReadsWhole (λ x. x) tested result words.now }
{
    let mut rest = words;
    let (path, name) = read_table(&mut rest)?;
    let address = address_word(&mut rest)?;
    end(rest)?;
    let question = Question::Test {
        path,
        name,
        address,
    };
    Ok(Ok(Command::Ask(question)))
}

/// What of what is kept is shown.
#[tactic(auto, unfolding(crate::specs::Grammar::shown))]
pub(crate) fn show<'a>(words: Words<'a>) -> Result<Result<Command, Mistake>, WordFault>
    ensures { ReadsWhole (λ x. x) shown result words.now }
{
    let mut rest = words;
    if takes(&mut rest, b"rules") {
        let path = path_word(&mut rest)?;
        end(rest)?;
        return Ok(Ok(Command::Ask(Question::ShowRules(path))));
    }
    if takes(&mut rest, b"tables") {
        let path = path_word(&mut rest)?;
        end(rest)?;
        return Ok(Ok(Command::Ask(Question::ShowTables(path))));
    }
    expect(&mut rest, b"states")?;
    end(rest)?;
    Ok(Ok(Command::Ask(Question::ShowStates)))
}

/// A question about all of something.
#[tactic(auto, unfolding(crate::specs::Grammar::overview))]
fn ask_overview<'a>(words: Words<'a>) -> Result<Result<Command, Mistake>, WordFault>
    ensures { ReadsWhole (λ x. x) overview result words.now }
{
    let mut rest = words;
    if takes(&mut rest, b"sum") {
        end(rest)?;
        return Ok(Ok(Command::Ask(Question::Sum)));
    }
    expect(&mut rest, b"export")?;
    end(rest)?;
    Ok(Ok(Command::Ask(Question::Export)))
}

/// A question.
#[tactic(auto, unfolding(crate::specs::Grammar::question))]
fn ask<'a>(words: Words<'a>) -> Result<Result<Command, Mistake>, WordFault>
    ensures { ReadsWhole (λ x. x) question result words.now }
{
    let mut rest = words;
    if takes(&mut rest, b"judge") {
        return judge(rest);
    }
    if takes(&mut rest, b"test") {
        return test(rest);
    }
    ask_overview(rest)
}

/// A command of the history, with nothing after its word.
fn ask_history(
    words: &[&[u8]],
    command: HistoryCommand,
) -> Result<Result<Command, Mistake>, WordFault>
    ensures { ReadsWhole (λ x. x) (alone command) result words.now }
{
    end(words)?;
    Ok(Ok(Command::History(command)))
}

/// A command of the history, or a question.
#[tactic(auto, unfolding(crate::specs::Grammar::history_or_question))]
fn ask_history_or_ask<'a>(words: Words<'a>) -> Result<Result<Command, Mistake>, WordFault>
    ensures { ReadsWhole (λ x. x) history_or_question result words.now }
{
    let mut rest = words;
    if takes(&mut rest, b"log") {
        return ask_history(rest, HistoryCommand::Log);
    }
    if takes(&mut rest, b"publish") {
        return ask_history(rest, HistoryCommand::Publish);
    }
    ask(rest)
}

/// A change of states that its words spell whole, a command of the history, or a question.
#[tactic(auto, unfolding(crate::specs::Grammar::state_or_question))]
fn change_state_or_ask<'a>(words: Words<'a>) -> Result<Result<Command, Mistake>, WordFault>
    ensures { ReadsWhole (λ x. x) state_or_question result words.now }
{
    let mut rest = words;
    if takes(&mut rest, b"track") {
        return track(rest);
    }
    if takes(&mut rest, b"kill") {
        return kill_state(rest);
    }
    if takes(&mut rest, b"expire") {
        return expire(rest);
    }
    ask_history_or_ask(rest)
}

/// A change of one table, a change of states, a command of the history, or a question.
#[tactic(auto, unfolding(crate::specs::Grammar::edit_or_question))]
fn edit_or_ask<'a>(alloc: Global, words: Words<'a>) -> Result<Result<Command, Mistake>, Unread>
    ensures { ReadsAll (λ x. x) edit_or_question result words.now }
{
    let mut rest = words;
    if takes(&mut rest, b"tadd") {
        return add_entries(alloc, rest);
    }
    if takes(&mut rest, b"tdel") {
        return delete_entries(alloc, rest);
    }
    if takes(&mut rest, b"tset") {
        return set_entries(alloc, rest);
    }
    if takes(&mut rest, b"tkill") {
        return Ok(kill(rest)?);
    }
    Ok(change_state_or_ask(rest)?)
}

/// The command that the words of a line spell whole, or the mistake in its rule or its packet.
#[tactic(auto, unfolding(crate::specs::Grammar::command))]
pub(crate) fn command<'a>(
    alloc: Global,
    words: Words<'a>,
) -> Result<Result<Command, Mistake>, Unread>
    ensures { ReadsAll (λ x. x) command result words.now }
{
    let mut rest = words;
    if takes(&mut rest, b"begin") {
        return begin(alloc, rest);
    }
    if takes(&mut rest, b"add") {
        return Ok(add(rest)?);
    }
    if takes(&mut rest, b"define") {
        return define(alloc, rest);
    }
    if takes(&mut rest, b"extend") {
        return extend(alloc, rest);
    }
    if takes(&mut rest, b"commit") {
        return commit(alloc, rest);
    }
    if takes(&mut rest, b"rollback") {
        return rollback(alloc, rest);
    }
    edit_or_ask(alloc, rest)
}
