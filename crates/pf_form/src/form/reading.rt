//! What the functions that read words share.
ghost use Rattle.std.specs.Prelude.{◌≡◌, Ok, length};
ghost use Rattle.pf_form.specs.declared.form.fault.Kind.TheVariants.{BadWord};
ghost use Rattle.pf_form.specs.{Form.Words.texts, Form.Forms.{Reader, reads, end_at}};
ghost use Rattle.pf_form.specs.Form.Readers.{Moves, if_there, there, GivesWhole, GivesAll, Shrinks, TakesSome, IsReadBy, each_by};

use crate::form::fault::{Kind, Unread, WordFault};
use std::alloc::Global;

/// Words that are left to read.
pub type Words<'a> = &'a [&'a [u8]];

/// A fault at the first of these words.
pub fn stop(kind: Kind, words: &[&[u8]]) -> WordFault
    ensures { result ≡ record { kind = kind; left = length words.now } }
{
    WordFault {
        kind,
        left: words.len(),
    }
}

/// The fault of a first word that is wrong or missing.
pub fn bad_word(words: &[&[u8]]) -> WordFault
    ensures { result ≡ record { kind = BadWord; left = length words.now } }
{
    stop(Kind::BadWord, words)
}

/// Takes the first word if it is this one, and returns whether it was.
pub fn takes<'a>(words: &mut Words<'a>, key: &[u8]) -> bool
    ensures { reads (if_there key.now) (texts words.old.now) ≡ Ok (result, texts words.new.now) }
{
    match *words {
        [word, rest @ ..] if *word == key => {
            *words = rest;
            true
        }
        _ => false,
    }
}

/// Takes this word, which has to come next. Fails with [`Kind::BadWord`] at the first word if it is another one, or if none is left.
pub fn expect<'a>(words: &mut Words<'a>, key: &[u8]) -> Result<(), WordFault>
    ensures { Moves (there key.now) result words.old.now words.new.now }
{
    match *words {
        [word, rest @ ..] if *word == key => {
            *words = rest;
            Ok(())
        }
        _ => Err(bad_word(words)),
    }
}

/// Fails with [`Kind::BadWord`] at the first word that is left, if any.
pub fn end(words: &[&[u8]]) -> Result<(), WordFault>
    ensures { GivesWhole (λ x. tt) result (end_at (texts words.now)) }
{
    match words {
        [] => Ok(()),
        further => Err(bad_word(further)),
    }
}

/// Reads one or more of a part, up to the last word. Fails at the first fault, or out of memory.
pub fn each<'a, T: Drop, R: Fn(&mut Words<'a>) -> Result<T, WordFault>>(
    alloc: Global,
    words: Words<'a>,
    read: R,
) -> Result<Vec<T>, Unread>
    requires callable { R.IsAlwaysCallable read }
    requires shrinks { TakesSome (R.post read) }
    ensures { (at : Reader T) → Shrinks at → IsReadBy (R.post read) at → GivesAll (λ v. v.items) result (each_by at (texts words.now)) }
{
    let mut rest = words;
    let mut items = Vec::new(alloc);
    let first = read(&mut rest)?;
    items.push(first)?;
    while !rest.is_empty() {
        let next = read(&mut rest)?;
        items.push(next)?;
    }
    Ok(items)
}
