//! Tokens without macros, definitions of macros and includes.
ghost use Rattle.std.specs.Prelude.{◌≡◌, ◌≤◌, ◌<◌, ◌+◌, ◌∷◌, ◌++◌, [], drop, map, length, Some, Err, Ok, IfOk, IfSome, IsTrue, MatchOption, OnErr, OnOk};
ghost use Rattle.pf_tokens.specs.{declared.place.{Place.Place, Placed.Placed}, Places.{start_of, at, text_of}, Stops.{Gives, Leaves}, Words.{is_newline}, Counting.words_in, Latest.latest, Placed.placed, Lexing.lex};
ghost use Rattle.pf_tokens.specs.Flat.{name_of, modifier_of, modifier_checked, used, with_parts, replaced, is_definition, has_letters_alone, name_checked, part_checked, with_part, joined, text_of_value, is_one_word, macro_of, first_place, defined, counted_value, counted_use, counted_uses, is_include, only_string, file_name, defining, lines, braces, put, put_each, put_line, all_closed, Reaches, ReachesLine, including, read_counted, read_line, read_file};

use crate::counting::{TOKEN_LIMIT, count_at};
use crate::fault::{Mistake, TokenStop, refusal};
use crate::files::{FILE_LIMIT, Files, READING_LIMIT, text_of_file};
use crate::items::{Bytes, Items, PlacedText};
use crate::lexing::{Source, is_letter, lex, name_in};
use crate::place::{Place, Placed};
use crate::placing::placed;
use crate::texts::bytes_of;
use crate::token::{Kind, Token};
use std::alloc::{AllocError, Global};
use std::collections::BTreeMap;
use std::marker::Model;

/// How deep files are included.
pub const INCLUDE_LIMIT: u32 = 16;
/// The most bytes of a macro's value.
pub const VALUE_LIMIT: usize = 4_096;

/// A macro's definition.
#[derive(Debug, Drop)]
pub struct Macro {
    pub name: Bytes,
    /// Whether its value's text is one word, so that a modifier can go on with it.
    pub is_word: bool,
    /// Its value's tokens.
    pub value: Items<Token>,
}

/// The macros that were defined, in order, and by each name the number of its latest definition. Contracts see the list of the macros.
#[derive(Debug, Drop)]
pub struct Macros {
    definitions: Items<Macro>,
    numbers: BTreeMap<Vec<u8>, usize>,
}

impl Model for Macros {
    ghost use Rattle.std.specs.Prelude.{List};
    ghost use Rattle.pf_tokens.specs.declared.flat.Macro.{Macro};

    ghost Value = { List Macro };

    ghost use Rattle.std.specs.Prelude.{ℕ, ◌≡◌};
    ghost use Rattle.pf_tokens.specs.Latest.{latest, number_at};

    ghost view = { λ m. m.definitions };

    ghost invariant = { λ m. (name : List ℕ) → number_at m.numbers name ≡ latest name m.definitions };
}

impl Macros {
    /// None.
    pub fn new(alloc: Global) -> Macros
        ensures { result ≡ [] }
    {
        Macros {
            definitions: Items::new(alloc),
            numbers: BTreeMap::new(alloc),
        }
    }

    /// The macros, in the order of their definitions.
    pub fn as_slice(&self) -> &[Macro]
        ensures { result.now ≡ self.now }
    {
        self.definitions.as_slice()
    }

    /// The number of a name's latest definition.
    fn latest(&self, name: &[u8]) -> Option<usize>
        ensures latest { result ≡ latest name.now self.now }
        ensures bound { IfSome result (λ n. n < length self.now) }
    {
        self.numbers.get(name).copied()
    }

    /// Appends a definition. `AllocError`: the macros are as before.
    fn push(&mut self, alloc: Global, definition: Macro) -> Result<(), AllocError>
        ensures ok { OnOk result (self.new ≡ self.old ++ definition ∷ []) }
        ensures err { OnErr result (self.new ≡ self.old) }
    {
        let name = Vec::from_slice(alloc, definition.name.as_slice())?;
        let number = self.definitions.len();
        self.definitions.push(definition)?;
        match self.numbers.insert(name, number) {
            Ok(_) => Ok(()),
            Err(_) => {
                self.definitions.pop();
                Err(AllocError)
            }
        }
    }
}

/// What reading files has come to.
#[derive(Debug, Drop)]
pub struct Flat {
    /// How many files were read.
    pub files_read: usize,
    /// How many words were read of these files, and of what macros stand for.
    pub words_read: usize,
    pub macros: Macros,
    /// The tokens that are left.
    pub tokens: Items<Token>,
}

/// The name of a macro that is used.
fn name_of(token: &Token) -> &[Placed]
    ensures name { result.now ≡ name_of token.now }
    ensures bound { length result.now ≤ length token.now.text }
{
    name_in(token.text.as_slice())
}

/// The modifier behind the name.
fn modifier_of(token: &Token) -> &[Placed]
    ensures { result.now ≡ modifier_of token.now }
{
    &token.text.as_slice()[name_of(token).len()..]
}

/// Checks that a modifier, if there is one, stands behind a value that is one word.
fn check_modifier(alloc: Global, is_word: bool, modifier: &[Placed]) -> Result<(), TokenStop>
    ensures { Gives result (modifier_checked is_word modifier.now) }
{
    match modifier {
        [first, ..] if !is_word => Err(refusal(
            first.place,
            Mistake::InterfaceAddress(bytes_of(alloc, modifier)?),
        )),
        _ => Ok(()),
    }
}

/// Appends these bytes, all at this place.
#[tactic(auto, using(crate::proofs::Steps::map_item))]
fn push_moved(place: Place, bytes: &[Placed], text: &mut PlacedText) -> Result<(), AllocError>
    ensures { OnOk result (text.new ≡ text.old ++ map (λ (c : Placed). at c.byte place) bytes.now) }
{
    for placed in bytes {
        let byte = placed.byte;
        text.push(Placed { byte, place })?;
    }
    Ok(())
}

/// A word of a value, with a modifier, at the place of the macro's use.
#[tactic(auto, using(crate::proofs::Steps::map_both))]
fn used(alloc: Global, place: Place, modifier: &[Placed], word: &Token) -> Result<Token, AllocError>
    ensures { IfOk result (λ t. t ≡ used place modifier.now word.now) }
{
    let mut text = Items::new(alloc);
    push_moved(place, word.text.as_slice(), &mut text)?;
    push_moved(place, modifier, &mut text)?;
    let kind = word.kind;
    Ok(Token { kind, place, text })
}

/// Appends what a token stands for: the value of a macro, at the place of its use; of any other token, itself.
#[tactic(auto, using(crate::proofs::Steps::map_item), unfolding(crate::specs::Flat::with_parts, crate::specs::Flat::parts_of))]
fn replace(
    alloc: Global,
    macros: &Macros,
    token: &Token,
    out: &mut Items<Token>,
) -> Result<(), TokenStop>
    ensures { Leaves result out.new (with_parts macros.now token.now out.old) }
{
    if !token.is_macro() {
        out.push(token.copied(alloc)?)?;
        return Ok(());
    }
    let name = bytes_of(alloc, name_of(token))?;
    let Some(number) = macros.latest(name.as_slice()) else {
        return Err(refusal(token.place, Mistake::Undefined(name)));
    };
    let modifier = modifier_of(token);
    let definition = &macros.as_slice()[number];
    check_modifier(alloc, definition.is_word, modifier)?;
    let place = token.place.used(number);
    for part in definition.value.as_slice() {
        out.push(used(alloc, place, modifier, part)?)?;
    }
    Ok(())
}

/// Counts what the use of a macro stands for, if that is defined.
fn count_value(
    alloc: Global,
    macros: &Macros,
    words_read: &mut usize,
    token: &Token,
) -> Result<(), TokenStop>
    ensures { Leaves result words_read.new
        (counted_value words_read.old token.now macros.now (latest (text_of (name_of token.now)) macros.now)) }
{
    let name = bytes_of(alloc, name_of(token))?;
    let Some(number) = macros.latest(name.as_slice()) else {
        return Ok(());
    };
    let place = token.place.used(number);
    count_at(
        place,
        words_read,
        macros.as_slice()[number].value.as_slice(),
    )
}

/// Counts what a token stands for, if it isn't itself.
#[tactic(auto, unfolding(crate::specs::Flat::counted_use))]
fn count_use(
    alloc: Global,
    macros: &Macros,
    words_read: &mut usize,
    token: &Token,
) -> Result<(), TokenStop>
    ensures { Leaves result words_read.new (counted_use macros.now words_read.old token.now) }
{
    if token.is_macro() {
        return count_value(alloc, macros, words_read, token);
    }
    Ok(())
}

/// Counts what the tokens of a line stand for. `Faulty`: a macro stands for more words than the limit leaves.
#[tactic(auto, using(crate::proofs::Steps::drop_item, std::proofs::lemmas::List::drop_all), unfolding(crate::specs::Flat::counted_uses))]
fn count_uses(
    alloc: Global,
    macros: &Macros,
    words_read: &mut usize,
    line: &[Token],
) -> Result<(), TokenStop>
    ensures { Leaves result words_read.new (counted_uses macros.now words_read.old line.now) }
{
    for token in line {
        count_use(alloc, macros, words_read, token)?;
    }
    Ok(())
}

/// The tokens with their macros replaced.
#[tactic(auto, using(crate::proofs::Steps::drop_item, std::proofs::lemmas::List::drop_all), unfolding(crate::specs::Flat::replaced))]
fn replaced(alloc: Global, macros: &Macros, tokens: &[Token]) -> Result<Items<Token>, TokenStop>
    ensures { Gives result (replaced macros.now tokens.now) }
{
    let mut out = Items::new(alloc);
    for token in tokens {
        replace(alloc, macros, token, &mut out)?;
    }
    Ok(out)
}

/// Whether a line defines a macro.
fn is_definition(line: &[Token]) -> bool
    ensures definition { result ≡ is_definition line.now }
    ensures long { IsTrue result → 2 ≤ length line.now }
{
    match line {
        [name, equals, ..] => name.kind == Kind::Word && equals.is_symbol(b"="),
        _ => false,
    }
}

/// Whether a line stands for a file's tokens.
fn is_include(line: &[Token]) -> bool
    ensures include { result ≡ is_include line.now }
    ensures long { IsTrue result → 1 ≤ length line.now }
{
    match line {
        [word, ..] => word.is_word(b"include"),
        [] => false,
    }
}

/// Checks that a token can name a macro.
fn check_name(alloc: Global, name: &Token) -> Result<(), TokenStop>
    ensures { Gives result (name_checked name.now) }
{
    if name.is_keyword() {
        return Err(refusal(name.place, Mistake::ReservedName(name.bytes(alloc)?)));
    }
    if name.is_number() || !has_letters_alone(name.text.as_slice()) {
        return Err(refusal(name.place, Mistake::MacroName));
    }
    Ok(())
}

/// Whether each byte can stand in a macro's name.
fn has_letters_alone(text: &[Placed]) -> bool
    ensures { result ≡ has_letters_alone text.now }
{
    text.iter().all(|placed| is_letter(placed.byte))
}

/// Checks that a token can stand in a macro's value.
fn check_part(alloc: Global, part: &Token) -> Result<(), TokenStop>
    ensures { Gives result (part_checked part.now) }
{
    if part.kind == Kind::Symbol {
        return Err(refusal(part.place, Mistake::SymbolInValue(part.bytes(alloc)?)));
    }
    if part.is_keyword() {
        return Err(refusal(part.place, Mistake::ReservedInValue(part.bytes(alloc)?)));
    }
    Ok(())
}

/// Appends a part's text to a value, behind a space if something stands before it.
#[tactic(auto, using(crate::proofs::Steps::take_item))]
fn join(value: &mut PlacedText, part: &Token) -> Result<(), TokenStop>
    ensures { Leaves result value.new (Ok (with_part value.old part.now)) }
{
    if value.len() > 0 {
        let (byte, place) = (b' ', part.place);
        value.push(Placed { byte, place })?;
    }
    for placed in part.text.as_slice() {
        value.push(*placed)?;
    }
    Ok(())
}

/// The texts of a value's parts, with one space between each two.
#[tactic(auto, using(crate::proofs::Steps::drop_item, std::proofs::lemmas::List::drop_all, crate::proofs::Uses::value_step), unfolding(crate::specs::Flat::joined))]
fn joined(alloc: Global, parts: &[Token]) -> Result<PlacedText, TokenStop>
    ensures { Gives result (joined parts.now) }
{
    let mut value = Items::new(alloc);
    for part in parts {
        check_part(alloc, part)?;
        join(&mut value, part)?;
    }
    Ok(value)
}

/// The text of a value, given its parts, where what stands behind `=` begins, and where the line ends.
fn text_of_value(
    alloc: Global,
    parts: &[Token],
    first: Place,
    line_end: Place,
) -> Result<PlacedText, TokenStop>
    ensures { Gives result (text_of_value first line_end parts.now) }
{
    if parts.is_empty() {
        return Err(refusal(line_end, Mistake::NoValue));
    }
    let value = joined(alloc, parts)?;
    if value.len() > VALUE_LIMIT {
        return Err(refusal(first, Mistake::LongValue));
    }
    Ok(value)
}

/// Whether a value's text is one word, without a blank before or behind it.
fn is_one_word(text: &PlacedText, value: &[Token]) -> bool
    ensures { result ≡ is_one_word text.now value.now }
{
    match value {
        [word] => word.kind == Kind::Word && word.text.len() == text.len(),
        _ => false,
    }
}

/// The macro of this name with this value, whose words are counted.
fn macro_of(
    alloc: Global,
    words_read: &mut usize,
    name: &Token,
    text: &PlacedText,
) -> Result<Macro, TokenStop>
    ensures definition { Gives result (macro_of words_read.old (text_of name.now.text) text.now) }
    ensures counted { IfOk result (λ m. words_read.new ≡ words_read.old + words_in m.value) }
{
    let value = lex(alloc, Source::Value, words_read, text)?;
    let is_word = is_one_word(text, value.as_slice());
    let name = name.bytes(alloc)?;
    Ok(Macro {
        name,
        is_word,
        value,
    })
}

/// Where the first of these tokens stands, or else the line's end.
fn first_place(tokens: &[Token], line_end: Place) -> Place
    ensures { result ≡ first_place tokens.now line_end }
{
    match tokens {
        [first, ..] => first.place,
        [] => line_end,
    }
}

/// What a macro is defined as, by its name and what stands behind `=`. Its value's words are counted.
#[tactic(auto, unfolding(crate::specs::Flat::defined))]
fn definition(
    alloc: Global,
    words_read: &mut usize,
    macros: &Macros,
    name: &Token,
    following: &[Token],
    line_end: Place,
) -> Result<Macro, TokenStop>
    ensures definition { Gives result (defined words_read.old macros.now name.now following.now line_end) }
    ensures counted { IfOk result (λ m. words_read.new ≡ words_read.old + words_in m.value) }
{
    check_name(alloc, name)?;
    let parts = replaced(alloc, macros, following)?;
    let first = first_place(following, line_end);
    let text = text_of_value(alloc, parts.as_slice(), first, line_end)?;
    macro_of(alloc, words_read, name, &text)
}

/// The one token, which is a string, that names a file.
fn only_string(alloc: Global, place: Place, parts: &[Token]) -> Result<Token, TokenStop>
    ensures { Gives result (only_string place parts.now) }
{
    match parts {
        [name] if name.is_string() => Ok(name.copied(alloc)?),
        _ => Err(refusal(place, Mistake::NoFileName)),
    }
}

/// The token that names the file of a line that begins with `include`.
fn file_name(alloc: Global, macros: &Macros, line: &[Token]) -> Result<Token, TokenStop>
    requires { 1 ≤ length line.now }
    ensures { (line_end : Place) → Gives result (file_name macros.now line.now line_end) }
{
    let parts = replaced(alloc, macros, &line[1..])?;
    only_string(alloc, line[0].place, parts.as_slice())
}

/// Keeps the places of the braces that are open behind this token.
fn follow(token: &Token, opened: &mut Items<Place>) -> Result<(), TokenStop>
    ensures { Leaves result opened.new (Ok (braces token.now opened.old)) }
{
    if token.is_symbol(b"{") {
        opened.push(token.place)?;
    } else if token.is_symbol(b"}") {
        opened.pop();
    }
    Ok(())
}

/// Appends a token to those that are left.
#[tactic(auto, unfolding(crate::specs::Flat::put))]
fn put(
    alloc: Global,
    token: &Token,
    opened: &mut Items<Place>,
    tokens: &mut Items<Token>,
) -> Result<(), TokenStop>
    ensures { Leaves result (opened.new, tokens.new) (put token.now (opened.old, tokens.old)) }
{
    if tokens.len() >= TOKEN_LIMIT {
        return Err(refusal(token.place, Mistake::ManyWords));
    }
    follow(token, opened)?;
    tokens.push(token.copied(alloc)?)?;
    Ok(())
}

/// Appends all of these to those that are left.
#[tactic(auto, using(crate::proofs::Steps::drop_item, std::proofs::lemmas::List::drop_all), unfolding(crate::specs::Flat::put_each))]
fn put_each(
    alloc: Global,
    parts: &[Token],
    opened: &mut Items<Place>,
    tokens: &mut Items<Token>,
) -> Result<(), TokenStop>
    ensures { Leaves result (opened.new, tokens.new) (put_each parts.now (opened.old, tokens.old)) }
{
    for part in parts {
        put(alloc, part, opened, tokens)?;
    }
    Ok(())
}

/// Appends what the tokens of a line stand for.
#[tactic(auto, using(crate::proofs::Steps::drop_item, std::proofs::lemmas::List::drop_all, crate::proofs::Uses::with_parts_first), unfolding(crate::specs::Flat::put_line))]
fn put_line(
    alloc: Global,
    macros: &Macros,
    line: &[Token],
    opened: &mut Items<Place>,
    tokens: &mut Items<Token>,
) -> Result<(), TokenStop>
    ensures { Leaves result (opened.new, tokens.new) (put_line macros.now line.now (opened.old, tokens.old)) }
{
    for token in line {
        let mut parts = Items::new(alloc);
        replace(alloc, macros, token, &mut parts)?;
        put_each(alloc, parts.as_slice(), opened, tokens)?;
    }
    Ok(())
}

/// The tokens of the file of this number, which has this text. They are counted.
fn tokens_of(
    alloc: Global,
    words_read: &mut usize,
    number: usize,
    text: &[u8],
) -> Result<Items<Token>, TokenStop>
    requires { length text.now ≤ FILE_LIMIT }
    ensures tokens { Gives result (lex Source.File words_read.old 0 (placed (start_of number) text.now)) }
    ensures counted { IfOk result (λ ts. words_read.new ≡ words_read.old + words_in ts) }
{
    let text = placed(alloc, Place::start(number), text)?;
    lex(alloc, Source::File, words_read, &text)
}

/// The tokens before the first newline, that newline, and the tokens behind it.
#[tactic(auto, using(crate::proofs::Lines::no_newline_more, crate::proofs::Lines::no_line))]
fn first_line(tokens: &[Token]) -> Option<(&[Token], &Token, &[Token])>
    ensures line { MatchOption result (lines tokens.now ≡ []) (λ l. lines tokens.now ≡ (l.0.now, l.1.now) ∷ lines l.2.now) }
    ensures shorter { IfSome result (λ l. length l.2.now < length tokens.now) }
{
    for (end, token) in tokens.iter().enumerate() {
        if token.is_newline() {
            return Some((&tokens[..end], token, &tokens[end + 1..]));
        }
    }
    None
}

/// Checks that no brace is open.
fn check_closed(opened: &[Place]) -> Result<(), TokenStop>
    ensures { Gives result (all_closed opened.now) }
{
    match opened {
        [.., place] => Err(refusal(*place, Mistake::OpenBrace)),
        [] => Ok(()),
    }
}

impl Flat {
    /// Before the first file, or before another one that shares nothing but the number of those that were read.
    pub fn new(alloc: Global, files_read: usize) -> Flat
        ensures { result ≡ record { files_read = files_read; words_read = 0; macros = []; tokens = [] } }
    {
        Flat {
            files_read,
            words_read: 0,
            macros: Macros::new(alloc),
            tokens: Items::new(alloc),
        }
    }

    /// Reads the file of this number, which has this text, and what it includes, at most so deep. Each file that is read counts, and so do
    /// the words of each: `Mistake::ManyWords`, at the word that is past [`TOKEN_LIMIT`]. A fault leaves the macros that were defined
    /// before it.
    #[cycle(reading)]
    #[tactic(auto, unfolding(crate::specs::Flat::read_lines))]
    pub fn read(
        &mut self,
        alloc: Global,
        files: &Files,
        deep: u32,
        number: usize,
        text: &[u8],
    ) -> Result<(), TokenStop>
        requires short { length text.now ≤ FILE_LIMIT }
        requires room { self.old.files_read < READING_LIMIT }
        ensures reached { Reaches result self.new (read_file files.now deep number text.now self.old) }
        ensures counted { OnOk result (self.old.files_read < self.new.files_read) }
        ensures within { self.new.files_read ≤ READING_LIMIT }
    {
        let tokens = tokens_of(alloc, &mut self.words_read, number, text)?;
        self.files_read += 1;
        let mut rest = tokens.as_slice();
        let mut opened = Items::new(alloc);
        while let Some((line, newline, following)) = first_line(rest) {
            self.read_line(alloc, files, deep, line, newline, &mut opened)?;
            rest = following;
        }
        check_closed(opened.as_slice())
    }

    /// Reads a line, given its newline.
    #[cycle(reading)]
    #[tactic(auto, unfolding(crate::specs::Flat::read_line))]
    fn read_line(
        &mut self,
        alloc: Global,
        files: &Files,
        deep: u32,
        line: &[Token],
        newline: &Token,
        opened: &mut Items<Place>,
    ) -> Result<(), TokenStop>
        requires { self.old.files_read ≤ READING_LIMIT }
        ensures reached { ReachesLine result (opened.new, self.new) (read_line (including files.now deep) line.now newline.now (opened.old, self.old)) }
        ensures counted { OnOk result (self.old.files_read ≤ self.new.files_read) }
        ensures within { self.new.files_read ≤ READING_LIMIT }
    {
        count_uses(alloc, &self.macros, &mut self.words_read, line)?;
        self.read_counted(alloc, files, deep, line, newline, opened)
    }

    /// Reads a line, when what it stands for was counted.
    #[cycle(reading)]
    #[tactic(auto, unfolding(crate::specs::Flat::read_counted))]
    fn read_counted(
        &mut self,
        alloc: Global,
        files: &Files,
        deep: u32,
        line: &[Token],
        newline: &Token,
        opened: &mut Items<Place>,
    ) -> Result<(), TokenStop>
        requires { self.old.files_read ≤ READING_LIMIT }
        ensures reached { ReachesLine result (opened.new, self.new) (read_counted (including files.now deep) line.now newline.now (opened.old, self.old)) }
        ensures counted { OnOk result (self.old.files_read ≤ self.new.files_read) }
        ensures within { self.new.files_read ≤ READING_LIMIT }
    {
        if opened.len() == 0 {
            if is_definition(line) {
                return self.define(alloc, line, newline.place);
            }
            if is_include(line) {
                let name = file_name(alloc, &self.macros, line)?;
                return self.include(alloc, files, deep, &name);
            }
        }
        put_line(alloc, &self.macros, line, opened, &mut self.tokens)?;
        put(alloc, newline, opened, &mut self.tokens)
    }

    /// Defines the macro of a line.
    fn define(&mut self, alloc: Global, line: &[Token], line_end: Place) -> Result<(), TokenStop>
        requires { 2 ≤ length line.now }
        ensures reached { Reaches result self.new (defining self.old line.now line_end) }
        ensures unread { self.new.files_read ≡ self.old.files_read }
    {
        let definition = definition(
            alloc,
            &mut self.words_read,
            &self.macros,
            &line[0],
            &line[2..],
            line_end,
        )?;
        self.macros.push(alloc, definition)?;
        Ok(())
    }

    /// Reads the file that a token names.
    #[cycle(reading)]
    #[tactic(auto, using(crate::proofs::Lines::including_deeper), unfolding(crate::specs::Flat::including))]
    fn include(
        &mut self,
        alloc: Global,
        files: &Files,
        deep: u32,
        name: &Token,
    ) -> Result<(), TokenStop>
        requires { self.old.files_read ≤ READING_LIMIT }
        ensures reached { Reaches result self.new (including files.now deep name.now self.old) }
        ensures counted { OnOk result (self.old.files_read < self.new.files_read) }
        ensures within { self.new.files_read ≤ READING_LIMIT }
    {
        if deep == 0 {
            return Err(refusal(name.place, Mistake::DeepInclude));
        }
        let bytes = name.bytes(alloc)?;
        let (number, text) = text_of_file(
            alloc,
            files,
            self.files_read,
            name.place,
            bytes.as_slice(),
        )?;
        self.read(alloc, files, deep - 1, number, text)
    }
}
