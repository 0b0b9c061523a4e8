//! Reading tokens, one after another.
ghost use Rattle.std.specs.Prelude.{◌≡◌, ◌≤◌, ◌+◌, drop, length, Ok, IfOk};
ghost use Rattle.pf_form.specs.Form.Words.{texts};
ghost use Rattle.pf_tokens.specs.{Places.text_of, Words.{is_newline, is_word, is_symbol}};
ghost use Rattle.pf_parse.specs.{Beginning.{beginning, end_of}, Stops.TellsStop};
ghost use Rattle.pf_parse.specs.Reading.{Takes, rank_number, refusals_of, refusals_in, reason_in, next, second, after_token, is_at_end, takes_word, takes_symbol, expect_word, expect_symbol, string, value, token, end_line, newlines, unexpected_at, refused_at, after_line, skip_line, to_parenthesis, skip_parentheses, note, leave_out, leave_out_next, in_order, without_newlines, is_closing, is_empty_list};

use crate::fault::{At, LeftOut, Mistake, Reason, Remark, Stop, refusal};
use crate::tree::Tree;
use pf_lists::Words;
use pf_tokens::{Bytes, Items, Kind, Place, Token};
use std::alloc::{AllocError, Global};
use std::marker::Model;

/// How a file is read.
#[derive(Clone, Copy, Debug, PartialEq, Eq)]
pub enum Mode {
    /// What isn't there is a fault.
    Strict,
    /// What changes no verdict on a connection's first packet is left out, with a note.
    Lenient,
}

/// What the lines of a file have to be in the order of (pf.conf(5), "require-order").
#[derive(Clone, Copy)]
pub(crate) enum Rank {
    Options,
    Normalization,
    Queueing,
    Filtering,
}

impl Rank {
    fn number(self) -> u8
        ensures { result ≡ rank_number self }
    {
        match self {
            Rank::Options => 0,
            Rank::Normalization => 1,
            Rank::Queueing => 2,
            Rank::Filtering => 4,
        }
    }
}

/// Words that are refused, with the reason.
const REFUSED: [(&[u8], Reason); 28] = [
    (b"nat", Reason::Translation),
    (b"rdr", Reason::Translation),
    (b"binat", Reason::Translation),
    (b"nat-anchor", Reason::Translation),
    (b"rdr-anchor", Reason::Translation),
    (b"binat-anchor", Reason::Translation),
    (b"antispoof", Reason::InterfaceAddress),
    (b"self", Reason::InterfaceAddress),
    (b"match", Reason::NoSuchRules),
    (b"route-to", Reason::Routing),
    (b"reply-to", Reason::Routing),
    (b"dup-to", Reason::Routing),
    (b"fastroute", Reason::Routing),
    (b"divert-to", Reason::Routing),
    (b"divert-reply", Reason::Routing),
    (b"rtable", Reason::Routes),
    (b"no-route", Reason::Routes),
    (b"urpf-failed", Reason::Routes),
    (b"user", Reason::Owner),
    (b"group", Reason::Owner),
    (b"os", Reason::Fingerprint),
    (b"tos", Reason::TypeOfService),
    (b"prio", Reason::Priority),
    (b"icmp-type", Reason::IcmpType),
    (b"icmp6-type", Reason::IcmpType),
    (b"fragment", Reason::Fragment),
    (b"probability", Reason::Chance),
    (b"tagged", Reason::Tag),
];

/// The reason in a table for which a word is refused, if it is.
#[tactic(auto, using(crate::proofs::Steps::no_reason))]
fn reason_in(table: &[(&[u8], Reason)], word: &Token) -> Option<Reason>
    ensures { result ≡ reason_in (refusals_in table.now) word.now }
{
    for row in table {
        if word.is_word(row.0) {
            return Some(row.1);
        }
    }
    None
}

/// Why a word is refused, if it is.
fn reason_for(word: &Token) -> Option<Reason>
    ensures { result ≡ reason_in (refusals_of REFUSED) word.now }
{
    reason_in(&REFUSED, word)
}

/// The tokens of a file that are left to read, and what was found so far.
#[derive(Drop)]
pub(crate) struct Parser<'a> {
    alloc: Global,
    tokens: &'a [Token],
    at: usize,
    /// What stands behind the last token: a newline.
    end: Token,
    pub(crate) mode: Mode,
    /// Whether the file's rules are the main ruleset's.
    pub(crate) is_main: bool,
    /// How far the order of lines has come, and whether it matters.
    rank: Rank,
    pub(crate) is_ordered: bool,
    /// The number of the innermost braces that are open, and how many are.
    pub(crate) within: usize,
    pub(crate) depth: usize,
    pub(crate) tree: Tree,
    pub(crate) notes: Items<At<Remark>>,
}

impl<'a> Model for Parser<'a> {
    ghost use Rattle.std.specs.Prelude.{◌≡◌, ◌≤◌, drop, length};
    ghost use Rattle.pf_parse.specs.States.{State};

    ghost Value = { State };

    ghost use Rattle.pf_parse.specs.Reading.{newline_at};

    ghost view = { λ p. record {
      left = drop p.at p.tokens.now;
      end_place = p.end.place;
      mode = p.mode;
      is_main = p.is_main;
      rank = p.rank;
      is_ordered = p.is_ordered;
      within = p.within;
      depth = p.depth;
      tree = p.tree;
      notes = p.notes;
    } };

    ghost invariant = { λ p. (p.at ≤ length p.tokens.now) × (p.end ≡ newline_at p.end.place) };
}

impl<'a> Parser<'a> {
    pub(crate) fn new(alloc: Global, tokens: &'a [Token], mode: Mode, is_main: bool) -> Parser<'a>
        ensures { result ≡ beginning tokens.now mode is_main }
    {
        let place = end_of(tokens);
        Parser {
            alloc,
            tokens,
            at: 0,
            end: Token {
                kind: Kind::Newline,
                place,
                text: Items::new(alloc),
            },
            mode,
            is_main,
            rank: Rank::Options,
            is_ordered: true,
            within: 0,
            depth: 0,
            tree: Tree {
                skips: Items::new(alloc),
                rules: Items::new(alloc),
                braces: Items::new(alloc),
                tables: Items::new(alloc),
                loads: Items::new(alloc),
            },
            notes: Items::new(alloc),
        }
    }

    pub(crate) fn alloc(&self) -> Global {
        self.alloc
    }

    /// The number of the innermost braces that are open.
    pub(crate) fn within(&self) -> usize
        ensures { result ≡ self.now.within }
    {
        self.within
    }

    /// Whether there is no token left.
    #[tactic(auto, using(crate::proofs::Steps::none_left, crate::proofs::Steps::some_left))]
    pub(crate) fn is_at_end(&self) -> bool
        ensures { result ≡ is_at_end self.now }
    {
        self.at >= self.tokens.len()
    }

    /// The next token.
    #[tactic(auto, using(crate::proofs::Steps::first_at, crate::proofs::Steps::first_past), unfolding(crate::specs::Reading::next))]
    pub(crate) fn next(&self) -> &Token
        ensures { result.now ≡ next self.now }
    {
        if self.at < self.tokens.len() {
            return &self.tokens[self.at];
        }
        &self.end
    }

    /// The token behind the next one.
    #[tactic(auto, using(crate::proofs::Steps::first_at, crate::proofs::Steps::first_past, crate::proofs::Steps::rest_at), unfolding(crate::specs::Reading::second))]
    pub(crate) fn second(&self) -> &Token
        ensures { result.now ≡ second self.now }
    {
        if self.at < self.tokens.len() && self.at + 1 < self.tokens.len() {
            return &self.tokens[self.at + 1];
        }
        &self.end
    }

    /// The place of the next token.
    pub(crate) fn place(&self) -> Place
        ensures { result ≡ (next self.now).place }
    {
        self.next().place
    }

    /// The text of the next token.
    pub(crate) fn text(&self) -> Result<Bytes, AllocError>
        ensures { IfOk result (λ b. b ≡ text_of (next self.now).text) }
    {
        self.next().bytes(self.alloc())
    }

    /// Takes the next token.
    #[tactic(auto, using(crate::proofs::Steps::rest_at, crate::proofs::Steps::rest_past), unfolding(crate::specs::Reading::after_token))]
    pub(crate) fn take(&mut self)
        ensures { self.new ≡ after_token self.old }
    {
        if self.at < self.tokens.len() {
            self.at += 1;
        }
    }

    /// Takes the next token, and returns its place.
    #[tactic(auto, unfolding(crate::specs::Reading::token))]
    pub(crate) fn take_place(&mut self) -> Place
        ensures place { result ≡ (next self.old).place }
        ensures taken { self.new ≡ after_token self.old }
    {
        let place = self.place();
        self.take();
        place
    }

    pub(crate) fn next_is_newline(&self) -> bool
        ensures { result ≡ is_newline (next self.now) }
    {
        self.next().is_newline()
    }

    pub(crate) fn next_is_word(&self, word: &[u8]) -> bool
        ensures { result ≡ is_word word.now (next self.now) }
    {
        self.next().is_word(word)
    }

    pub(crate) fn next_is_symbol(&self, symbol: &[u8]) -> bool
        ensures { result ≡ is_symbol symbol.now (next self.now) }
    {
        self.next().is_symbol(symbol)
    }

    /// Takes this word, and returns whether it was the next one.
    #[tactic(auto, unfolding(crate::specs::Reading::takes_word))]
    pub(crate) fn takes_word(&mut self, word: &[u8]) -> bool
        ensures { takes_word word.now self.old ≡ Ok (result, self.new) }
    {
        let is_next = self.next_is_word(word);
        if is_next {
            self.take();
        }
        is_next
    }

    /// Takes this symbol, and returns whether it was the next one.
    #[tactic(auto, unfolding(crate::specs::Reading::takes_symbol))]
    pub(crate) fn takes_symbol(&mut self, symbol: &[u8]) -> bool
        ensures { takes_symbol symbol.now self.old ≡ Ok (result, self.new) }
    {
        let is_next = self.next_is_symbol(symbol);
        if is_next {
            self.take();
        }
        is_next
    }

    #[tactic(auto, unfolding(crate::specs::Reading::expect_word, crate::specs::Reading::takes_word))]
    pub(crate) fn expect_word(&mut self, word: &[u8]) -> Result<(), Stop>
        ensures { Takes result self.new (expect_word word.now self.old) }
    {
        if self.takes_word(word) {
            return Ok(());
        }
        Err(self.unexpected())
    }

    #[tactic(auto, unfolding(crate::specs::Reading::expect_symbol, crate::specs::Reading::takes_symbol))]
    pub(crate) fn expect_symbol(&mut self, symbol: &[u8]) -> Result<(), Stop>
        ensures { Takes result self.new (expect_symbol symbol.now self.old) }
    {
        if self.takes_symbol(symbol) {
            return Ok(());
        }
        Err(self.unexpected())
    }

    /// The tokens that are left.
    fn tokens_left(&self) -> &[Token]
        ensures { result.now ≡ self.now.left }
    {
        &self.tokens[self.at..]
    }

    /// How often something can be done that takes a token each time but the last.
    pub(crate) fn turns(&self) -> usize
        ensures { result ≡ length self.now.left + 1 }
    {
        self.tokens.len() - self.at + 1
    }

    /// Takes so many tokens.
    fn skip(&mut self, count: usize)
        requires { count ≤ length self.old.left }
        ensures { self.new ≡ record self.old { left = drop count self.old.left } }
    {
        self.at += count;
    }

    /// Takes the newlines that come next.
    #[tactic(auto, unfolding(crate::specs::Reading::newlines))]
    pub(crate) fn skip_newlines(&mut self)
        ensures { newlines self.old ≡ Ok (tt, self.new) }
    {
        self.skip(newlines_before(self.tokens_left()));
    }

    #[tactic(auto, unfolding(crate::specs::Reading::end_line))]
    pub(crate) fn end_line(&mut self) -> Result<(), Stop>
        ensures { Takes result self.new (end_line self.old) }
    {
        if !self.next_is_newline() {
            return Err(self.unexpected());
        }
        self.take();
        Ok(())
    }

    /// The fault of a next token at which no text can go on.
    #[tactic(auto, unfolding(crate::specs::Reading::unexpected_at))]
    pub(crate) fn unexpected(&self) -> Stop
        ensures { TellsStop result (unexpected_at (next self.now)) }
    {
        if self.next_is_newline() {
            return refusal(self.place(), Mistake::LineEnds);
        }
        let Ok(text) = self.text() else {
            return Stop::Memory;
        };
        match reason_for(self.next()) {
            Some(reason) => refusal(self.place(), Mistake::Refused(text, reason)),
            None => refusal(self.place(), Mistake::Misplaced(text)),
        }
    }

    /// The fault of a next token that isn't there for this reason.
    #[tactic(auto, unfolding(crate::specs::Reading::refused_at))]
    pub(crate) fn refused(&self, reason: Reason) -> Stop
        ensures { TellsStop result (refused_at reason (next self.now)) }
    {
        match self.text() {
            Ok(text) => refusal(self.place(), Mistake::Refused(text, reason)),
            Err(_) => Stop::Memory,
        }
    }

    /// Takes a string.
    #[tactic(auto, unfolding(crate::specs::Reading::string))]
    pub(crate) fn string(&mut self) -> Result<Token, Stop>
        ensures { Takes result self.new (string self.old) }
    {
        if !self.next().is_string() {
            return Err(self.unexpected());
        }
        self.token()
    }

    /// Takes a string or a number.
    #[tactic(auto, unfolding(crate::specs::Reading::value))]
    pub(crate) fn value(&mut self) -> Result<Token, Stop>
        ensures { Takes result self.new (value self.old) }
    {
        let next = self.next();
        if !next.is_string() && !next.is_number() {
            return Err(self.unexpected());
        }
        self.token()
    }

    /// Takes the next token, whatever it is.
    #[tactic(auto, unfolding(crate::specs::Reading::token))]
    pub(crate) fn token(&mut self) -> Result<Token, Stop>
        ensures { Takes result self.new (token self.old) }
    {
        let token = self.next().copied(self.alloc())?;
        self.take();
        Ok(token)
    }

    /// Whether a list without items comes next.
    #[tactic(auto, unfolding(crate::specs::Reading::is_empty_list))]
    pub(crate) fn next_is_empty_list(&self) -> bool
        ensures { result ≡ is_empty_list self.now.left }
    {
        match self.tokens_left() {
            [_, after_token @ ..] => closes_list(after_token),
            [] => false,
        }
    }

    /// Takes the rest of a line, which may have lists.
    #[tactic(auto, unfolding(crate::specs::Reading::skip_line))]
    pub(crate) fn skip_line(&mut self) -> Result<(), Stop>
        ensures { Takes result self.new (skip_line self.old) }
    {
        self.skip(length_of_line(self.tokens_left()));
        self.end_line()
    }

    /// Takes what stands in parentheses on one line, if they come next.
    #[tactic(auto, unfolding(crate::specs::Reading::skip_parentheses))]
    pub(crate) fn skip_parentheses(&mut self) -> Result<(), Stop>
        ensures { Takes result self.new (skip_parentheses self.old) }
    {
        if !self.takes_symbol(b"(") {
            return Ok(());
        }
        self.skip(length_to_parenthesis(self.tokens_left()));
        self.expect_symbol(b")")
    }

    #[tactic(auto, unfolding(crate::specs::Reading::note))]
    pub(crate) fn note(&mut self, place: Place, remark: Remark) -> Result<(), Stop>
        ensures { Takes result self.new (note place remark self.old) }
    {
        self.notes.push(At { place, is: remark })?;
        Ok(())
    }

    /// Leaves something out, which is a fault unless the reading is lenient.
    #[tactic(auto, unfolding(crate::specs::Reading::leave_out))]
    pub(crate) fn leave_out(&mut self, place: Place, what: LeftOut) -> Result<(), Stop>
        ensures { Takes result self.new (leave_out place what self.old) }
    {
        match self.mode {
            Mode::Strict => Err(refusal(place, Mistake::LeftOut(what))),
            Mode::Lenient => self.note(place, Remark::LeftOut(what)),
        }
    }

    /// The same of the next word, which is taken.
    #[tactic(auto, unfolding(crate::specs::Reading::leave_out_next, crate::specs::Reading::token))]
    pub(crate) fn leave_out_next(&mut self) -> Result<(), Stop>
        ensures { Takes result self.new (leave_out_next self.old) }
    {
        let text = self.text()?;
        let place = self.take_place();
        self.leave_out(place, LeftOut::Word(text))
    }

    /// Checks that a line of this rank can come next.
    #[tactic(auto, unfolding(crate::specs::Reading::in_order))]
    pub(crate) fn in_order(&mut self, place: Place, rank: Rank) -> Result<(), Stop>
        ensures { Takes result self.new (in_order place rank self.old) }
    {
        if self.is_ordered && self.rank.number() > rank.number() {
            return Err(refusal(place, Mistake::Order));
        }
        self.rank = rank;
        Ok(())
    }
}

/// Where the last of these tokens stands.
fn end_of(tokens: &[Token]) -> Place
    ensures { result ≡ end_of tokens.now }
{
    match tokens.last() {
        Some(last) => last.place,
        None => Place::start(0),
    }
}

/// How many newlines come first.
#[tactic(auto, using(crate::proofs::Steps::drop_item, std::proofs::lemmas::List::drop_all), unfolding(crate::specs::Reading::without_newlines))]
fn newlines_before(tokens: &[Token]) -> usize
    ensures rest { drop result tokens.now ≡ without_newlines tokens.now }
    ensures bound { result ≤ length tokens.now }
{
    for (count, token) in tokens.iter().enumerate() {
        if !token.is_newline() {
            return count;
        }
    }
    tokens.len()
}

/// How many tokens stand before the end of a line, which may have lists.
#[tactic(auto, using(crate::proofs::Steps::drop_item, std::proofs::lemmas::List::drop_all), unfolding(crate::specs::Reading::after_line))]
fn length_of_line(tokens: &[Token]) -> usize
    ensures rest { drop result tokens.now ≡ after_line 0 tokens.now }
    ensures bound { result ≤ length tokens.now }
{
    let mut deep: usize = 0;
    for (count, token) in tokens.iter().enumerate() {
        if deep == 0 && (token.is_newline() || token.is_symbol(b"}")) {
            return count;
        }
        if token.is_symbol(b"}") {
            deep -= 1;
        } else if token.is_symbol(b"{") {
            deep += 1;
        }
    }
    tokens.len()
}

/// How many tokens stand before a closing parenthesis, or before the end of the line.
#[tactic(auto, using(crate::proofs::Steps::drop_item, std::proofs::lemmas::List::drop_all), unfolding(crate::specs::Reading::to_parenthesis))]
fn length_to_parenthesis(tokens: &[Token]) -> usize
    ensures rest { drop result tokens.now ≡ to_parenthesis tokens.now }
    ensures bound { result ≤ length tokens.now }
{
    for (count, token) in tokens.iter().enumerate() {
        if token.is_newline() || token.is_symbol(b")") {
            return count;
        }
    }
    tokens.len()
}

/// Whether the first token that ends no line closes a list.
fn closes_list(tokens: &[Token]) -> bool
    ensures { result ≡ is_closing (without_newlines tokens.now) }
{
    match &tokens[newlines_before(tokens)..] {
        [first, ..] => first.is_symbol(b"}"),
        [] => false,
    }
}

/// A list of these words.
#[tactic(auto, using(crate::proofs::Steps::texts_item))]
pub(crate) fn words_of(alloc: Global, words: &[&[u8]]) -> Result<Words, AllocError>
    ensures { IfOk result (λ ws. ws ≡ texts words.now) }
{
    let mut list = Items::new(alloc);
    for word in words {
        list.push(Items::copied(alloc, word)?)?;
    }
    Ok(list)
}
