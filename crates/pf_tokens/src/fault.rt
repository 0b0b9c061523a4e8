//! What is wrong with a text, and where.
ghost use Rattle.std.specs.Prelude.{◌≡◌};
ghost use Rattle.pf_tokens.specs.declared.fault.TokenStop.TheVariants.{Memory};
ghost use Rattle.pf_tokens.specs.Stops.{faulty};

use crate::items::Bytes;
use crate::place::Place;
use std::alloc::{AllocError, AllocFailed};
use std::fmt::{self, Debug, Display, Formatter, Write};

/// What is wrong.
#[derive(Drop)]
pub enum Mistake {
    Unreadable(Bytes),
    LongFile,
    ManyFiles,
    Byte(u8),
    Character(char),
    Backslash,
    OpenQuote,
    QuoteInWord,
    DollarInWord,
    NoMacroName,
    InterfaceAddress(Bytes),
    Joined(Bytes),
    MacroInValue,
    CommentInValue,
    ReservedName(Bytes),
    MacroName,
    NoValue,
    SymbolInValue(Bytes),
    ReservedInValue(Bytes),
    LongValue,
    Undefined(Bytes),
    NoFileName,
    DeepInclude,
    OpenBrace,
    ManyWords,
}

/// What the text of a mistake is made of.
#[derive(Drop)]
enum Text<'a> {
    /// All of it.
    Plain(&'static str),
    /// What comes before a name, the name, and what comes behind it.
    Named(&'static str, &'a Bytes, &'static str),
    /// A byte that can't stand there.
    Byte(u8),
    /// A character that can't.
    Character(char),
}

impl Mistake {
    /// What a user is told. Texts are of few kinds, so that the proof of what writes them is short.
    fn text(&self) -> Text<'_> {
        match self {
            Mistake::Unreadable(name) => Text::Named("the file ", name, " can't be read"),
            Mistake::LongFile => Text::Plain("a file has 1,048,576 bytes at most"),
            Mistake::ManyFiles => Text::Plain("64 files are read at most"),
            Mistake::Byte(byte) => Text::Byte(*byte),
            Mistake::Character(character) => Text::Character(*character),
            Mistake::Backslash => Text::Plain("a backslash can only stand at the end of a line"),
            Mistake::OpenQuote => Text::Plain("the quote isn't closed on its line"),
            Mistake::QuoteInWord => Text::Plain("a quote can't stand within a word"),
            Mistake::DollarInWord => Text::Plain(
                "'$' can't stand within a word: a macro is a whole word",
            ),
            Mistake::NoMacroName => Text::Plain("a macro's name has to stand behind '$'"),
            Mistake::InterfaceAddress(name) => Text::Named(
                "'",
                name,
                "' is joined to a macro whose value isn't one word",
            ),
            Mistake::Joined(name) => Text::Named(
                "'",
                name,
                "' is joined to a macro: a macro is a whole word",
            ),
            Mistake::MacroInValue => Text::Plain("macros aren't replaced within quotes"),
            Mistake::CommentInValue => Text::Plain("'#' can't stand in a macro's value"),
            Mistake::ReservedName(name) => Text::Named(
                "'",
                name,
                "' is reserved and can't name a macro",
            ),
            Mistake::MacroName => Text::Plain(
                "a macro's name has letters, digits and '_' alone, and isn't a number",
            ),
            Mistake::NoValue => Text::Plain("a macro's value has to stand behind '='"),
            Mistake::SymbolInValue(name) => Text::Named(
                "'",
                name,
                "' can't stand in a macro's value: put the value in quotes",
            ),
            Mistake::ReservedInValue(name) => Text::Named(
                "'",
                name,
                "' is reserved: in a macro's value it stands in quotes",
            ),
            Mistake::LongValue => Text::Plain("a macro's value has 4,096 bytes at most"),
            Mistake::Undefined(name) => Text::Named("macro '", name, "' isn't defined"),
            Mistake::NoFileName => Text::Plain("one file's name has to stand behind 'include'"),
            Mistake::DeepInclude => Text::Plain("files are included 16 deep at most"),
            Mistake::OpenBrace => Text::Plain("a brace isn't closed"),
            Mistake::ManyWords => Text::Plain("262,144 words are read at most"),
        }
    }
}

/// The text that a user is told.
impl Display for Mistake {
    fn fmt<W: Write>(&self, f: &mut Formatter<W>) -> fmt::Result {
        match self.text() {
            Text::Plain(text) => write!(f, "{text}"),
            Text::Named(before, name, following) => write!(f, "{before}{name}{following}"),
            Text::Byte(byte) => write!(f, "byte 0x{byte:02x} can't stand here"),
            Text::Character(character) => write!(f, "'{character}' can't stand here"),
        }
    }
}

impl std::error::Error for Mistake {}

/// Its text, which tells one from the others.
impl Debug for Mistake {
    fn fmt<W: Write>(&self, f: &mut Formatter<W>) -> fmt::Result {
        write!(f, "{self}")
    }
}

/// What is wrong at a place.
#[derive(Debug, Drop)]
pub struct Fault {
    pub place: Place,
    pub mistake: Mistake,
}

/// Why a text isn't read.
#[derive(Debug, Drop)]
pub enum TokenStop {
    /// There is a fault in it.
    Faulty(Fault),
    /// It names this file, which isn't given.
    Needs(Bytes),
    /// Out of memory.
    Memory,
}

/// A fault at a place.
pub(crate) fn refusal(place: Place, mistake: Mistake) -> TokenStop
    ensures { result ≡ faulty place mistake }
{
    TokenStop::Faulty(Fault { place, mistake })
}

impl From<AllocError> for TokenStop {
    ghost from_gives = { λ _ e. e ≡ Memory };

    fn from(_e: AllocError) -> TokenStop {
        TokenStop::Memory
    }
}

impl<T: Drop> From<AllocFailed<T>> for TokenStop {
    ghost from_gives = { λ _ e. e ≡ Memory };

    fn from(_e: AllocFailed<T>) -> TokenStop {
        TokenStop::Memory
    }
}
