//! The files that are given.
ghost use Rattle.std.specs.Prelude.{◌≡◌, ◌≤◌, ◌<◌, length, IfOk};
ghost use Rattle.pf_tokens.specs.Files.{file_from, IsFound, text_of_file, Finds};

use crate::fault::{Mistake, TokenStop, refusal};
use crate::items::{Bytes, Items};
use crate::place::Place;
use std::alloc::Global;

/// The most bytes of a file.
pub const FILE_LIMIT: usize = 1_048_576;
/// The most files that are read, each as often as it is named.
pub const READING_LIMIT: usize = 64;

/// What a file has.
#[derive(Debug, Drop)]
pub enum Contents {
    /// These bytes. If it has more than [`FILE_LIMIT`], it is refused whatever they are, so that one byte past the limit is enough.
    Text(Bytes),
    /// It can't be read.
    Unreadable,
}

/// A file.
#[derive(Debug, Drop)]
pub struct File {
    /// Its name as it is written.
    pub name: Bytes,
    pub contents: Contents,
}

/// The files that are given. Places speak of files by their numbers, from 0.
pub type Files = Items<File>;

/// The first file with this name, with its number.
#[tactic(auto, using(crate::proofs::Steps::drop_item, std::proofs::lemmas::List::drop_all))]
fn file_named<'a>(files: &'a [File], name: &[u8]) -> Option<(usize, &'a File)>
    ensures { IsFound result (file_from 0 name.now files.now) }
{
    for (number, file) in files.iter().enumerate() {
        if file.name.as_slice() == name {
            return Some((number, file));
        }
    }
    None
}

/// The number and the text of a file that is named at this place, as the next after so many that were read. `Needs`: it isn't given.
/// `Faulty`: it is one too many, or can't be read, or is too long. Memory can only run out where its name is told.
#[tactic(auto, unfolding(crate::specs::Files::text_of_file))]
pub fn text_of_file<'a>(
    alloc: Global,
    files: &'a Files,
    files_read: usize,
    at: Place,
    name: &[u8],
) -> Result<(usize, &'a [u8]), TokenStop>
    ensures found { Finds result (text_of_file files.now files_read at name.now) }
    ensures short { IfOk result (λ found. length found.1.now ≤ FILE_LIMIT) }
    ensures room { IfOk result (λ found. files_read < READING_LIMIT) }
{
    if files_read >= READING_LIMIT {
        return Err(refusal(at, Mistake::ManyFiles));
    }
    let Some((number, file)) = file_named(files.as_slice(), name) else {
        return Err(TokenStop::Needs(Items::copied(alloc, name)?));
    };
    match &file.contents {
        Contents::Text(text) if text.len() > FILE_LIMIT => Err(refusal(at, Mistake::LongFile)),
        Contents::Text(text) => Ok((number, text.as_slice())),
        Contents::Unreadable => Err(refusal(at, Mistake::Unreadable(Items::copied(alloc, name)?))),
    }
}
