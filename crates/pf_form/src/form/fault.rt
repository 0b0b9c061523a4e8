//! Why words could not be read.
ghost use Rattle.std.specs.Prelude.{◌≡◌};
ghost use Rattle.pf_form.specs.declared.form.fault.Unread.TheVariants.{Stopped, Memory};

use std::alloc::AllocFailed;

/// What is wrong with a word.
#[derive(Clone, Copy, Debug, PartialEq, Eq)]
pub enum Kind {
    /// The word isn't allowed at its place, or is missing.
    BadWord,
    /// A name, a path or a reference past its limits: of bytes, or of components.
    NameTooLong,
    /// The word is no protocol.
    BadProto,
}

/// The first word that isn't allowed at its place.
#[derive(Clone, Copy, Debug, PartialEq, Eq)]
pub struct WordFault {
    /// What is wrong with the word.
    pub kind: Kind,
    /// How many words were left, with the one at fault; 0 if a word is missing.
    pub left: usize,
}

/// Why a list of words could not be read.
#[derive(Clone, Copy, Debug, PartialEq, Eq)]
pub enum Unread {
    /// A word isn't allowed at its place, or is missing.
    Stopped(WordFault),
    /// Out of memory.
    Memory,
}

impl From<WordFault> for Unread {
    ghost from_gives = { λ s e. e ≡ Stopped s };

    fn from(stop: WordFault) -> Unread {
        Unread::Stopped(stop)
    }
}

impl<T: Drop> From<AllocFailed<T>> for Unread {
    ghost from_gives = { λ _ e. e ≡ Memory };

    fn from(_e: AllocFailed<T>) -> Unread {
        Unread::Memory
    }
}
