//! Reading tests of ports (pf.conf(5), GRAMMAR).
ghost use Rattle.std.specs.{Prelude.{◌≡◌, ◌<◌, length, IfSome}, List.position, Option.option_map};
ghost use Rattle.pf_form.specs.Form.Readers.{Moves};
ghost use Rattle.pf_rule.specs.Value.Ports.{split_operator, is_colon, start_of, a_start, compared, range_end, ranged, order_or_range};
ghost use Rattle.pf_rule.specs.Value.Ports.{port_test, port};

use crate::take_word;
use crate::value::ports::{Comparison, PortRange, PortTest};
use crate::value::value_words::port_word;
use crate::value::values::port_of;
use pf_form::form::{Kind, WordFault, Words, takes};

/// What the first word of a test gives: the whole test, or its first number.
#[derive(Clone, Copy)]
enum PortStart {
    Test(PortTest),
    Number(u16),
}

/// Splits a word that begins with a unary operator into the operator and what comes after it.
fn split_operator(word: &[u8]) -> Option<(Comparison, &[u8])>
    ensures { option_map (λ x. (x.0, x.1.now)) result ≡ split_operator word.now }
{
    if let Some(number) = word.strip_prefix(b"=".as_slice()) {
        return Some((Comparison::Equal, number));
    }
    if let Some(number) = word.strip_prefix(b"!=".as_slice()) {
        return Some((Comparison::NotEqual, number));
    }
    if let Some(number) = word.strip_prefix(b"<=".as_slice()) {
        return Some((Comparison::AtMost, number));
    }
    if let Some(number) = word.strip_prefix(b"<".as_slice()) {
        return Some((Comparison::Less, number));
    }
    if let Some(number) = word.strip_prefix(b">=".as_slice()) {
        return Some((Comparison::AtLeast, number));
    }
    let number = word.strip_prefix(b">".as_slice())?;
    Some((Comparison::Greater, number))
}

fn first_colon(word: &[u8]) -> Option<usize>
    ensures place { result ≡ position is_colon word.now }
    ensures within { IfSome result (λ i. i < length word.now) }
{
    word.iter().position(|b| *b == b':')
}

/// The first word of a test: two numbers with a colon between them, a number, or a unary operator joined to its number.
fn start_of(word: &[u8]) -> Result<PortStart, Kind>
    ensures { result ≡ start_of word.now }
{
    if let Some(colon) = first_colon(word) {
        let first = port_of(true, &word[..colon])?;
        let last = port_of(true, &word[colon + 1..])?;
        let range = PortRange::Including;
        return Ok(PortStart::Test(PortTest::Ranged { range, first, last }));
    }
    if let Ok(port) = port_of(true, word) {
        return Ok(PortStart::Number(port));
    }
    let Some((operator, number)) = split_operator(word) else {
        return Err(Kind::BadWord);
    };
    let port = port_of(true, number)?;
    Ok(PortStart::Test(PortTest::Compared { operator, port }))
}

fn start_word<'a>(words: &mut Words<'a>) -> Result<PortStart, WordFault>
    ensures { Moves a_start result words.old.now words.new.now }
{
    take_word!(words, word => start_of(word))
}

/// What may come after a number that is a word of its own: a binary operator and the second number.
#[tactic(auto, unfolding(crate::specs::Value::Ports::range_end))]
fn read_range_end<'a>(
    after_number: bool,
    words: &mut Words<'a>,
) -> Result<Option<(PortRange, u16)>, WordFault>
    ensures { Moves (range_end after_number) result words.old.now words.new.now }
{
    if !after_number {
        return Ok(None);
    }
    if takes(words, b"><") {
        return Ok(Some((PortRange::Excluding, port_word(true, words)?)));
    }
    if takes(words, b"<>") {
        return Ok(Some((PortRange::Except, port_word(true, words)?)));
    }
    Ok(None)
}

/// A test that doesn't begin with an operator as a word of its own.
#[tactic(auto, unfolding(crate::specs::Value::Ports::ranged))]
fn read_ranged<'a>(words: &mut Words<'a>) -> Result<PortTest, WordFault>
    ensures { Moves ranged result words.old.now words.new.now }
{
    let start = start_word(words)?;
    let end = read_range_end(matches!(start, PortStart::Number(_)), words)?;
    Ok(match (start, end) {
        (PortStart::Test(test), _) => test,
        (PortStart::Number(port), None) => PortTest::Compared {
            operator: Comparison::Equal,
            port,
        },
        (PortStart::Number(first), Some((range, last))) => PortTest::Ranged { range, first, last },
    })
}

#[tactic(auto, unfolding(crate::specs::Value::Ports::compared))]
fn read_compared<'a>(operator: Comparison, words: &mut Words<'a>) -> Result<PortTest, WordFault>
    ensures { Moves (compared operator) result words.old.now words.new.now }
{
    let port = port_word(true, words)?;
    Ok(PortTest::Compared { operator, port })
}

#[tactic(auto, unfolding(crate::specs::Value::Ports::port_test))]
fn read_test<'a>(words: &mut Words<'a>) -> Result<PortTest, WordFault>
    ensures { Moves port_test result words.old.now words.new.now }
{
    if takes(words, b"=") {
        return read_compared(Comparison::Equal, words);
    }
    if takes(words, b"!=") {
        return read_compared(Comparison::NotEqual, words);
    }
    read_order_or_range(words)
}

#[tactic(auto, unfolding(crate::specs::Value::Ports::order_or_range))]
fn read_order_or_range<'a>(words: &mut Words<'a>) -> Result<PortTest, WordFault>
    ensures { Moves order_or_range result words.old.now words.new.now }
{
    if takes(words, b"<") {
        return read_compared(Comparison::Less, words);
    }
    if takes(words, b"<=") {
        return read_compared(Comparison::AtMost, words);
    }
    if takes(words, b">") {
        return read_compared(Comparison::Greater, words);
    }
    if takes(words, b">=") {
        return read_compared(Comparison::AtLeast, words);
    }
    read_ranged(words)
}

/// The test of one end's port, if there is one.
#[tactic(auto, unfolding(crate::specs::Value::Ports::port))]
pub fn read_port<'a>(words: &mut Words<'a>) -> Result<Option<PortTest>, WordFault>
    ensures { Moves port result words.old.now words.new.now }
{
    if !takes(words, b"port") {
        return Ok(None);
    }
    Ok(Some(read_test(words)?))
}
