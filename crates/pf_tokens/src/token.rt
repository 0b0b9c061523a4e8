//! Tokens.
ghost use Rattle.std.specs.{Prelude.{◌≡◌, IfOk}, Str.bytes_eq};
ghost use Rattle.pf_tokens.specs.{Places.text_of, Words.{is_word, is_symbol, is_newline, is_macro, is_number, is_keyword_word, is_string}};

use crate::items::{Bytes, Items, PlacedText};
use crate::place::Place;
use crate::reserved::is_keyword;
use crate::texts::{bytes_of, has_digits_alone, same_bytes};
use std::alloc::{AllocError, Global};

/// What a token is.
#[derive(Clone, Copy, Debug, PartialEq, Eq)]
pub enum Kind {
    /// A word without quotes.
    Word,
    /// What stands between two quotes.
    Quoted,
    /// A brace, an operator and their like.
    Symbol,
    /// The use of a macro, by its name and a modifier, as `$int_if:network`.
    Macro,
    /// The end of a line.
    Newline,
}

/// A token: its kind, where it begins, and its bytes without quotes and `$`; a newline has none.
#[derive(Debug, Drop)]
pub struct Token {
    pub kind: Kind,
    pub place: Place,
    pub text: PlacedText,
}

impl Token {
    /// The token's bytes.
    pub fn bytes(&self, alloc: Global) -> Result<Bytes, AllocError>
        ensures { IfOk result (λ b. b ≡ text_of self.now.text) }
    {
        bytes_of(alloc, self.text.as_slice())
    }

    /// Whether the token's bytes are these.
    pub fn has_text(&self, text: &[u8]) -> bool
        ensures { result ≡ bytes_eq (text_of self.now.text) text.now }
    {
        same_bytes(self.text.as_slice(), text)
    }

    /// Whether it is this word, without quotes.
    pub fn is_word(&self, text: &[u8]) -> bool
        ensures { result ≡ is_word text.now self.now }
    {
        self.kind == Kind::Word && self.has_text(text)
    }

    /// Whether it is this symbol.
    pub fn is_symbol(&self, text: &[u8]) -> bool
        ensures { result ≡ is_symbol text.now self.now }
    {
        self.kind == Kind::Symbol && self.has_text(text)
    }

    /// Whether it ends a line.
    pub fn is_newline(&self) -> bool
        ensures { result ≡ is_newline self.now }
    {
        self.kind == Kind::Newline
    }

    /// Whether it is the use of a macro.
    pub fn is_macro(&self) -> bool
        ensures { result ≡ is_macro self.now }
    {
        self.kind == Kind::Macro
    }

    /// Whether it is a word that is a number.
    pub fn is_number(&self) -> bool
        ensures { result ≡ is_number self.now }
    {
        self.kind == Kind::Word && has_digits_alone(self.text.as_slice())
    }

    /// Whether it is a word that is reserved.
    pub fn is_keyword(&self) -> bool
        ensures { result ≡ is_keyword_word self.now }
    {
        self.kind == Kind::Word && is_keyword(self.text.as_slice())
    }

    /// Whether it is a string, as pf.conf(5)'s grammar has it: quoted, or a word that is neither reserved nor a number.
    pub fn is_string(&self) -> bool
        ensures { result ≡ is_string self.now }
    {
        self.kind == Kind::Quoted
            || (self.kind == Kind::Word && !self.is_keyword() && !self.is_number())
    }

    /// A copy of the token.
    pub fn copied(&self, alloc: Global) -> Result<Token, AllocError>
        ensures { IfOk result (λ t. t ≡ self.now) }
    {
        let text = Items::of(Vec::from_slice(alloc, self.text.as_slice())?);
        let (kind, place) = (self.kind, self.place);
        Ok(Token { kind, place, text })
    }
}
