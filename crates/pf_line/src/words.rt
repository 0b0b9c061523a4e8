//! Reading the words that stand for values, each from the front of the words left.
ghost use Rattle.pf_form.specs.Form.Readers.{Moves, ReadsWhole};
ghost use Rattle.pf_line.specs.Grammar.{kind, path, ticket_text, table_name, row, name, entry, table, offered_table, id, tick, until, creator, state};

use crate::entries::entry_of;
use crate::state::{read_creator, read_id};
use crate::ticket::read_ticket;
use pf_addr::path::TableName;
use pf_anchor::Path;
use pf_form::form::{WordFault, Words, end, expect, takes};
use pf_rule::take_word;
use pf_state::StateName;
use pf_ticket::{RulesetKind, RulesetName, RulesetTicket, Ticket};

fn read_kind<'a>(words: &mut Words<'a>) -> Result<RulesetKind, WordFault>
    ensures { Moves kind result words.old.now words.new.now }
{
    if takes(words, b"filter") {
        return Ok(RulesetKind::Filter);
    }
    expect(words, b"table")?;
    Ok(RulesetKind::Table)
}

pub(crate) fn path_word<'a>(words: &mut Words<'a>) -> Result<Path, WordFault>
    ensures { Moves path result words.old.now words.new.now }
{
    take_word!(words, word => Path::from_ascii(word))
}

/// A path, if it is the only word.
pub(crate) fn only_path<'a>(words: Words<'a>) -> Result<Path, WordFault>
    ensures { ReadsWhole (λ x. x) path result words.now }
{
    let mut rest = words;
    let path = path_word(&mut rest)?;
    end(rest)?;
    Ok(path)
}

pub(crate) fn ticket_word<'a>(words: &mut Words<'a>) -> Result<Ticket, WordFault>
    ensures { Moves ticket_text result words.old.now words.new.now }
{
    take_word!(words, word => read_ticket(word))
}

pub(crate) fn name_word<'a>(words: &mut Words<'a>) -> Result<TableName, WordFault>
    ensures { Moves table_name result words.old.now words.new.now }
{
    take_word!(words, word => TableName::from_ascii(word))
}

/// An entry of a table.
pub(crate) fn row_word<'a>(words: &mut Words<'a>) -> Result<pf_table::Entry, WordFault>
    ensures { Moves row result words.old.now words.new.now }
{
    take_word!(words, word => entry_of(word))
}

fn id_word<'a>(words: &mut Words<'a>) -> Result<u64, WordFault>
    ensures { Moves id result words.old.now words.new.now }
{
    take_word!(words, word => read_id(word))
}

fn creator_word<'a>(words: &mut Words<'a>) -> Result<u32, WordFault>
    ensures { Moves creator result words.old.now words.new.now }
{
    take_word!(words, word => read_creator(word))
}

/// A ruleset.
pub(crate) fn read_name<'a>(words: &mut Words<'a>) -> Result<RulesetName, WordFault>
    ensures { Moves name result words.old.now words.new.now }
{
    let kind = read_kind(words)?;
    let path = path_word(words)?;
    Ok(RulesetName { kind, path })
}

/// A ruleset with a ticket for it.
pub(crate) fn read_entry<'a>(words: &mut Words<'a>) -> Result<RulesetTicket, WordFault>
    ensures { Moves entry result words.old.now words.new.now }
{
    let name = read_name(words)?;
    let ticket = ticket_word(words)?;
    Ok(RulesetTicket { name, ticket })
}

/// A table, by its path and its name.
pub(crate) fn read_table<'a>(words: &mut Words<'a>) -> Result<(Path, TableName), WordFault>
    ensures { Moves table result words.old.now words.new.now }
{
    let path = path_word(words)?;
    let name = name_word(words)?;
    Ok((path, name))
}

/// An offered table: its path, the ticket, and its name.
pub(crate) fn read_offered<'a>(
    words: &mut Words<'a>,
) -> Result<(Path, Ticket, TableName), WordFault>
    ensures { Moves offered_table result words.old.now words.new.now }
{
    let path = path_word(words)?;
    let ticket = ticket_word(words)?;
    let name = name_word(words)?;
    Ok((path, ticket, name))
}

/// A tick.
pub(crate) fn tick_word<'a>(words: &mut Words<'a>) -> Result<u64, WordFault>
    ensures { Moves tick result words.old.now words.new.now }
{
    take_word!(words, word => read_id(word))
}

/// The tick behind `until`, or none.
#[tactic(auto, unfolding(crate::specs::Grammar::until))]
pub(crate) fn read_until<'a>(words: &mut Words<'a>) -> Result<Option<u64>, WordFault>
    ensures { Moves until result words.old.now words.new.now }
{
    if takes(words, b"until") {
        let tick = tick_word(words)?;
        return Ok(Some(tick));
    }
    Ok(None)
}

/// A state, by its name.
pub(crate) fn read_state<'a>(words: &mut Words<'a>) -> Result<StateName, WordFault>
    ensures { Moves state result words.old.now words.new.now }
{
    let id = id_word(words)?;
    let creator = creator_word(words)?;
    Ok(StateName { id, creator })
}
