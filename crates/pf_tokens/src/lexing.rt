//! Tokens of placed bytes.
ghost use Rattle.std.specs.Prelude.{◌≡◌, ◌≤◌, ◌<◌, ◌+◌, ◌∷◌, ◌++◌, length, take, drop, IfOk, OnOk};
ghost use Rattle.std.specs.Option.{option_to_list};
ghost use Rattle.pf_tokens.specs.{Stops.{Gives, Leaves}, Places.text_of, Counting.{words_in, counted_some}, Lexing.{is_letter, is_word_byte, goes_on, run_of, is_text, is_quote, is_pair, pairs, is_symbol_byte, is_printable, quoted, word_checked, is_modifier, modifier_more, symbol_more, a_quoted, a_symbol, comment, named_macro, macro_use, word, front, lex}};

use crate::counting::count;
use crate::fault::{Mistake, TokenStop, refusal};
use crate::items::{Items, PlacedText};
use crate::place::Placed;
use crate::texts::{bytes_of, same_bytes};
use crate::token::{Kind, Token};
use std::alloc::{AllocError, Global};

/// What bytes are read as tokens.
#[derive(Clone, Copy, Debug, PartialEq, Eq)]
pub enum Source {
    /// A file's.
    File,
    /// A macro's value, where neither comments nor macros can stand.
    Value,
}

/// Which bytes a run goes on over.
#[derive(Clone, Copy)]
enum Run {
    /// All but a newline.
    Line,
    /// Letters, digits and `_`.
    Letters,
    /// The bytes of a word.
    Word,
}

/// What the front of the bytes is: a token, or nothing for a blank or a comment; and how many bytes more than one it takes.
#[derive(Drop)]
struct Front {
    token: Option<Token>,
    more: usize,
}

/// Whether a byte can stand in a macro's name: a letter, a digit or `_`.
pub(crate) fn is_letter(byte: u8) -> bool
    ensures { result ≡ is_letter byte }
{
    byte.is_ascii_alphanumeric() || byte == b'_'
}

/// Whether a word goes on over the byte: it is printable, and none of `( ) { } < > ! = / # ,`.
fn is_word_byte(byte: u8) -> bool
    ensures { result ≡ is_word_byte byte }
{
    b'!' < byte
        && byte <= b'~'
        && !matches!(
            byte,
            b'(' | b')' | b'{' | b'}' | b'<' | b'>' | b'=' | b'/' | b'#' | b','
        )
}

impl Run {
    fn goes_on(self, byte: u8) -> bool
        ensures { result ≡ goes_on self byte }
    {
        match self {
            Run::Line => byte != b'\n',
            Run::Letters => is_letter(byte),
            Run::Word => is_word_byte(byte),
        }
    }
}

/// How many bytes from the front on the run goes on over.
fn length_of(run: Run, bytes: &[Placed]) -> usize
    ensures { result ≡ length (run_of run bytes.now) }
{
    bytes
        .iter()
        .take_while(|placed| run.goes_on(placed.byte))
        .count()
}

/// The bytes from the front on that the run goes on over.
#[tactic(auto, using(crate::proofs::Runs::take_run, crate::proofs::Runs::run_bound))]
fn run_of(run: Run, bytes: &[Placed]) -> &[Placed]
    ensures run { result.now ≡ run_of run bytes.now }
    ensures bound { length result.now ≤ length bytes.now }
{
    &bytes[..length_of(run, bytes)]
}

/// The macro's name at the front of these bytes.
pub(crate) fn name_in(bytes: &[Placed]) -> &[Placed]
    ensures run { result.now ≡ run_of Run.Letters bytes.now }
    ensures bound { length result.now ≤ length bytes.now }
{
    run_of(Run::Letters, bytes)
}

/// Whether a byte can stand in quotes.
fn is_text(byte: u8) -> bool
    ensures { result ≡ is_text byte }
{
    byte == b'\t' || (b' ' <= byte && byte <= b'~')
}

/// How many bytes stand between a quote and the next one like it on its line.
#[tactic(auto, using(crate::proofs::Steps::drop_item, std::proofs::lemmas::List::drop_all), unfolding(crate::specs::Lexing::quoted))]
fn quoted(quote: Placed, bytes: &[Placed]) -> Result<usize, TokenStop>
    ensures count { Gives result (quoted quote bytes.now) }
    ensures bound { IfOk result (λ n. n < length bytes.now) }
{
    for (count, placed) in bytes.iter().enumerate() {
        if placed.byte == quote.byte {
            return Ok(count);
        }
        if placed.byte == b'\n' {
            break;
        }
        if placed.byte == b'\\' {
            return Err(refusal(placed.place, Mistake::Backslash));
        }
        if !is_text(placed.byte) {
            return Err(refusal(placed.place, Mistake::Byte(placed.byte)));
        }
    }
    Err(refusal(quote.place, Mistake::OpenQuote))
}

fn is_quote(byte: u8) -> bool
    ensures { result ≡ is_quote byte }
{
    byte == b'"' || byte == b'\''
}

/// What is wrong with a word: the first byte that can't stand within one.
#[tactic(auto, using(crate::proofs::Steps::drop_item, std::proofs::lemmas::List::drop_all), unfolding(crate::specs::Lexing::word_checked))]
fn check_word(word: &[Placed]) -> Result<(), TokenStop>
    ensures { Gives result (word_checked word.now) }
{
    for placed in word {
        if is_quote(placed.byte) {
            return Err(refusal(placed.place, Mistake::QuoteInWord));
        }
        if placed.byte == b'$' {
            return Err(refusal(placed.place, Mistake::DollarInWord));
        }
        if placed.byte == b'\\' {
            return Err(refusal(placed.place, Mistake::Backslash));
        }
    }
    Ok(())
}

/// How many bytes directly behind a macro's name belong to its use: those of a modifier. No other byte of a word can stand there.
fn modifier(alloc: Global, bytes: &[Placed]) -> Result<usize, TokenStop>
    ensures count { Gives result (modifier_more (run_of Run.Word bytes.now)) }
    ensures bound { IfOk result (λ n. n ≤ length bytes.now) }
{
    let joined = run_of(Run::Word, bytes);
    let [first, ..] = joined else {
        return Ok(0);
    };
    if is_modifier(joined) {
        return Ok(joined.len());
    }
    Err(refusal(first.place, Mistake::Joined(bytes_of(alloc, joined)?)))
}

/// Whether these bytes can be asked of an interface, behind its name.
fn is_modifier(bytes: &[Placed]) -> bool
    ensures { result ≡ is_modifier (text_of bytes.now) }
{
    same_bytes(bytes, b":network")
        || same_bytes(bytes, b":broadcast")
        || same_bytes(bytes, b":peer")
        || same_bytes(bytes, b":0")
}

/// Whether two bytes are one symbol.
fn is_pair(first: u8, second: u8) -> bool
    ensures { result ≡ is_pair first second }
{
    (first == b'<' && second == b'>')
        || (first == b'>' && second == b'<')
        || (first == b'-' && second == b'>')
}

/// Whether this byte is one symbol with the next one.
fn pairs(first: Placed, following: &[Placed]) -> bool
    ensures { result ≡ pairs first following.now }
{
    match following {
        [second, ..] => is_pair(first.byte, second.byte),
        [] => false,
    }
}

fn is_symbol_byte(byte: u8) -> bool
    ensures { result ≡ is_symbol_byte byte }
{
    matches!(
        byte,
        b'{' | b'}' | b'(' | b')' | b',' | b'!' | b'=' | b'/' | b'<' | b'>' | b'-'
    )
}

fn is_printable(byte: u8) -> bool
    ensures { result ≡ is_printable byte }
{
    b' ' < byte && byte <= b'~'
}

/// How many bytes behind this one belong to its symbol.
fn symbol(first: Placed, following: &[Placed]) -> Result<usize, TokenStop>
    ensures count { Gives result (symbol_more first following.now) }
    ensures bound { IfOk result (λ n. n ≤ length following.now) }
{
    let (byte, place) = (first.byte, first.place);
    if pairs(first, following) {
        return Ok(1);
    }
    if is_symbol_byte(byte) {
        return Ok(0);
    }
    if byte == b'\\' {
        return Err(refusal(place, Mistake::Backslash));
    }
    if is_printable(byte) {
        return Err(refusal(place, Mistake::Character(char::from(byte))));
    }
    Err(refusal(place, Mistake::Byte(byte)))
}

/// A token of these bytes.
fn token(
    alloc: Global,
    kind: Kind,
    first: Placed,
    text: &[Placed],
) -> Result<Option<Token>, TokenStop>
    ensures { Gives result (Ok (Some (record { kind = kind; place = first.place; text = text.now }))) }
{
    let place = first.place;
    let text = Items::of(Vec::from_slice(alloc, text)?);
    Ok(Some(Token { kind, place, text }))
}

/// The use of a macro, or what is wrong with it, by the bytes behind its `$`.
fn named_macro(alloc: Global, first: Placed, following: &[Placed]) -> Result<Front, TokenStop>
    ensures named { Gives result (named_macro first (run_of Run.Letters following.now) following.now) }
    ensures bound { IfOk result (λ f. f.more ≤ length following.now) }
{
    let name = name_in(following).len();
    if name == 0 {
        return Err(refusal(first.place, Mistake::NoMacroName));
    }
    let more = name + modifier(alloc, &following[name..])?;
    let token = token(alloc, Kind::Macro, first, &following[..more])?;
    Ok(Front { token, more })
}

/// The use of a macro at the front.
fn front_macro(
    alloc: Global,
    source: Source,
    first: Placed,
    following: &[Placed],
) -> Result<Front, TokenStop>
    ensures macro_use { Gives result (macro_use source first following.now) }
    ensures bound { IfOk result (λ f. f.more ≤ length following.now) }
{
    match source {
        Source::File => named_macro(alloc, first, following),
        Source::Value => Err(refusal(first.place, Mistake::MacroInValue)),
    }
}

/// The text of a word, or of a symbol: this byte, and some behind it.
#[tactic(auto, using(crate::proofs::Steps::take_item))]
fn text_from(alloc: Global, first: Placed, following: &[Placed]) -> Result<PlacedText, AllocError>
    ensures { IfOk result (λ t. t ≡ first ∷ following.now) }
{
    let mut text = Items::new(alloc);
    text.push(first)?;
    for placed in following {
        text.push(*placed)?;
    }
    Ok(text)
}

/// A word at the front, by its first byte and those behind it.
fn front_word(alloc: Global, first: Placed, following: &[Placed]) -> Result<Front, TokenStop>
    ensures word { Gives result (word first following.now) }
    ensures bound { IfOk result (λ f. f.more ≤ length following.now) }
{
    let run = run_of(Run::Word, following);
    let more = run.len();
    let text = text_from(alloc, first, run)?;
    check_word(text.as_slice())?;
    let kind = Kind::Word;
    let place = first.place;
    Ok(Front {
        token: Some(Token { kind, place, text }),
        more,
    })
}

/// A symbol at the front.
fn front_symbol(alloc: Global, first: Placed, following: &[Placed]) -> Result<Front, TokenStop>
    ensures symbol { Gives result (a_symbol first following.now) }
    ensures bound { IfOk result (λ f. f.more ≤ length following.now) }
{
    let more = symbol(first, following)?;
    let text = text_from(alloc, first, &following[..more])?;
    let kind = Kind::Symbol;
    let place = first.place;
    Ok(Front {
        token: Some(Token { kind, place, text }),
        more,
    })
}

/// A quoted text at the front.
fn front_quoted(alloc: Global, first: Placed, following: &[Placed]) -> Result<Front, TokenStop>
    ensures quoted { Gives result (a_quoted first following.now) }
    ensures bound { IfOk result (λ f. f.more ≤ length following.now) }
{
    let count = quoted(first, following)?;
    let token = token(alloc, Kind::Quoted, first, &following[..count])?;
    let more = count + 1;
    Ok(Front { token, more })
}

/// A comment at the front.
fn front_comment(source: Source, first: Placed, following: &[Placed]) -> Result<Front, TokenStop>
    ensures comment { Gives result (comment source first following.now) }
    ensures bound { IfOk result (λ f. f.more ≤ length following.now) }
{
    match source {
        Source::File => Ok(Front {
            token: None,
            more: run_of(Run::Line, following).len(),
        }),
        Source::Value => Err(refusal(first.place, Mistake::CommentInValue)),
    }
}

/// The front of the bytes, by the first one and those behind it.
#[tactic(auto, unfolding(crate::specs::Lexing::front))]
fn take_front(
    alloc: Global,
    source: Source,
    first: Placed,
    following: &[Placed],
) -> Result<Front, TokenStop>
    ensures front { Gives result (front source first following.now) }
    ensures bound { IfOk result (λ f. f.more ≤ length following.now) }
{
    match first.byte {
        b' ' | b'\t' => Ok(Front {
            token: None,
            more: 0,
        }),
        b'\n' => {
            let token = token(alloc, Kind::Newline, first, &[])?;
            Ok(Front { token, more: 0 })
        }
        b'#' => front_comment(source, first, following),
        b'"' | b'\'' => front_quoted(alloc, first, following),
        b'$' => front_macro(alloc, source, first, following),
        byte if is_letter(byte) || byte == b':' => front_word(alloc, first, following),
        _ => front_symbol(alloc, first, following),
    }
}

/// Counts and appends a token, if there is one.
fn put_some(
    words_read: &mut usize,
    tokens: &mut Items<Token>,
    token: Option<Token>,
) -> Result<(), TokenStop>
    ensures counted { Leaves result words_read.new (counted_some words_read.old token) }
    ensures put { OnOk result (tokens.new ≡ tokens.old ++ option_to_list token) }
{
    if let Some(token) = token {
        count(token.place, words_read, &token)?;
        tokens.push(token)?;
    }
    Ok(())
}

/// The tokens of the bytes, which count as words that are read. `Faulty`: no token stands at the front, or one is past the limit.
pub fn lex(
    alloc: Global,
    source: Source,
    words_read: &mut usize,
    text: &PlacedText,
) -> Result<Items<Token>, TokenStop>
    ensures tokens { Gives result (lex source words_read.old 0 text.now) }
    ensures counted { IfOk result (λ ts. words_read.new ≡ words_read.old + words_in ts) }
{
    let mut tokens = Items::new(alloc);
    let bytes = text.as_slice();
    let mut at = 0;
    while at < bytes.len() {
        let front = take_front(alloc, source, bytes[at], &bytes[at + 1..])?;
        at += front.more + 1;
        put_some(words_read, &mut tokens, front.token)?;
    }
    Ok(tokens)
}
