//! How rules begin: what a block rule does, a direction, `log` and `quick`.
ghost use Rattle.std.specs.Prelude.{◌≡◌, ◌++◌, Ok, IfOk, OnOk};
ghost use Rattle.pf_form.specs.Form.Words.{texts};
ghost use Rattle.pf_parse.specs.Reading.{Takes};
ghost use Rattle.pf_parse.specs.Openings.{returns, skip_drop, block_policy, direction, direction_words, quick_words, log, log_and_quick};

use crate::fault::Stop;
use crate::parser::{Parser, words_of};
use pf_lists::Words;
use pf_tokens::{Items, Token};
use std::alloc::{AllocError, Global};

/// Which way a packet goes.
#[derive(Clone, Copy)]
pub(crate) enum Direction {
    In,
    Out,
}

/// Whether a block rule with this word behind its first is to answer, with what stands in parentheses behind that.
fn returns(word: &Token) -> bool
    ensures { result ≡ returns word.now }
{
    word.is_word(b"return-rst") || word.is_word(b"return-icmp") || word.is_word(b"return-icmp6")
}

impl Parser<'_> {
    /// What stands behind `block`: `drop`, or what is left out.
    #[tactic(auto, unfolding(crate::specs::Openings::block_policy))]
    pub(crate) fn block_policy(&mut self) -> Result<(), Stop>
        ensures { Takes result self.new (block_policy self.old) }
    {
        if self.next_is_word(b"return") {
            return self.leave_out_next();
        }
        if returns(self.next()) {
            self.leave_out_next()?;
            return self.skip_parentheses();
        }
        self.skip_drop();
        Ok(())
    }

    /// Takes `drop`, if it comes next.
    #[tactic(auto, unfolding(crate::specs::Openings::skip_drop))]
    fn skip_drop(&mut self)
        ensures { skip_drop self.old ≡ Ok (tt, self.new) }
    {
        let _ = self.takes_word(b"drop");
    }

    /// A direction, if one comes next.
    #[tactic(auto, unfolding(crate::specs::Openings::direction))]
    pub(crate) fn direction(&mut self) -> Option<Direction>
        ensures { direction self.old ≡ Ok (result, self.new) }
    {
        if self.takes_word(b"in") {
            return Some(Direction::In);
        }
        if self.takes_word(b"out") {
            return Some(Direction::Out);
        }
        None
    }

    /// Leaves `log` out, if it comes next.
    #[tactic(auto, unfolding(crate::specs::Openings::log))]
    fn log(&mut self) -> Result<(), Stop>
        ensures { Takes result self.new (log self.old) }
    {
        if !self.next_is_word(b"log") {
            return Ok(());
        }
        self.leave_out_next()?;
        self.skip_parentheses()
    }

    /// Whether `quick` stands before or behind `log`, which is left out.
    #[tactic(auto, unfolding(crate::specs::Openings::log_and_quick))]
    pub(crate) fn log_and_quick(&mut self) -> Result<bool, Stop>
        ensures { Takes result self.new (log_and_quick self.old) }
    {
        let quick = self.takes_word(b"quick");
        self.log()?;
        Ok(quick || self.takes_word(b"quick"))
    }
}

/// These words, a direction and `quick`.
pub(crate) fn opening(
    alloc: Global,
    first: &[&[u8]],
    direction: Option<Direction>,
    quick: bool,
) -> Result<Words, AllocError>
    ensures { IfOk result (λ words. words ≡ texts first.now ++ (direction_words direction ++ quick_words quick)) }
{
    let mut words = words_of(alloc, first)?;
    push_direction(alloc, &mut words, direction)?;
    push_quick(alloc, &mut words, quick)?;
    Ok(words)
}

fn push_direction(
    alloc: Global,
    words: &mut Words,
    direction: Option<Direction>,
) -> Result<(), AllocError>
    ensures { OnOk result (words.new ≡ words.old ++ direction_words direction) }
{
    match direction {
        Some(Direction::In) => words.push(Items::copied(alloc, b"in")?),
        Some(Direction::Out) => words.push(Items::copied(alloc, b"out")?),
        None => Ok(()),
    }
}

fn push_quick(alloc: Global, words: &mut Words, quick: bool) -> Result<(), AllocError>
    ensures { OnOk result (words.new ≡ words.old ++ quick_words quick) }
{
    if quick {
        words.push(Items::copied(alloc, b"quick")?)?;
    }
    Ok(())
}
