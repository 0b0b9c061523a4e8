// Lines, messages and whatever else is made of words that rows give.

use crate::chance::Chance;
use crate::rows::cut_bar;
use std::alloc::{AllocError, Global};

/// How deep a word's texts may stand within one another.
const DEPTH: usize = 6;

/// Bytes that mean something in a line, or that no line may have.
const BYTES: &[u8] = b"\0\t\r\n !\"#*-./0:<>@a\x7f\x80\xff";

/// A word that stands for one of several texts, in which other such words may stand.
#[derive(Drop)]
struct Word {
    name: String,
    /// Its texts, with bars between them, and how many they are.
    texts: String,
    count: usize,
}

/// Words that stand for texts. `TICKET` stands for the last ticket that was given.
#[derive(Drop)]
pub struct Words {
    alloc: Global,
    words: Vec<Word>,
    pub ticket: String,
}

impl Words {
    pub fn new(alloc: Global) -> Words {
        Words {
            alloc,
            words: Vec::new(alloc),
            ticket: String::new(alloc),
        }
    }

    /// Adds the word that a row begins with, and its texts, and returns how many these are.
    pub fn add(&mut self, row: &str) -> Result<usize, AllocError> {
        let (name, texts) = cut_bar(row);
        let count = texts.split(" | ").count();
        let name = String::from_str(self.alloc, name)?;
        let texts = String::from_str(self.alloc, texts)?;
        self.words.push(Word { name, texts, count })?;
        Ok(count)
    }

    /// A text of this word, with a text in the place of each word in it.
    pub fn text(&self, chance: &mut Chance, word: &str) -> Result<String, AllocError> {
        let mut text = String::from_str(self.alloc, word)?;
        for _ in 0..DEPTH {
            text = self.replaced(chance, text.as_str())?;
        }
        Ok(text)
    }

    // The text with one of its texts in the place of each word.
    fn replaced(&self, chance: &mut Chance, text: &str) -> Result<String, AllocError> {
        let mut made = String::new(self.alloc);
        for (place, word) in text.split(' ').enumerate() {
            if place > 0 {
                made.push(' ')?;
            }
            made.push_str(self.text_of(chance, word))?;
        }
        Ok(made)
    }

    // One of the texts of this word, or the word itself where it has none.
    fn text_of<'a>(&'a self, chance: &mut Chance, word: &'a str) -> &'a str {
        if word == "TICKET" {
            return self.ticket.as_str();
        }
        match self.words.iter().find(|it| it.name.as_str() == word) {
            Some(found) => {
                let place = chance.below(found.count);
                found.texts.split(" | ").nth(place).unwrap_or(word)
            }
            None => word,
        }
    }

    /// A text of this word, or one that was changed: each is half of them.
    pub fn line(&self, chance: &mut Chance, word: &str) -> Result<Vec<u8>, AllocError> {
        let text = self.text(chance, word)?;
        if chance.below(2) == 0 {
            return Vec::from_slice(self.alloc, text.as_bytes());
        }
        changed(self.alloc, chance, text)
    }
}

// The line with up to two changes of its words and perhaps another byte, with one change at least.
fn changed(alloc: Global, chance: &mut Chance, line: String) -> Result<Vec<u8>, AllocError> {
    let mut line = line;
    let changes = chance.below(3);
    for _ in 0..changes {
        line = with_other_words(alloc, chance, line.as_str())?;
    }
    let mut bytes = Vec::from_slice(alloc, line.as_bytes())?;
    if changes == 0 || chance.below(4) == 0 {
        if let Some(byte) = bytes.get_mut(chance.below(line.len())) {
            *byte = chance.byte(*byte, BYTES);
        }
    }
    Ok(bytes)
}

// The line with a word dropped, doubled, swapped with another, cut, or joined to the next.
fn with_other_words(alloc: Global, chance: &mut Chance, line: &str) -> Result<String, AllocError> {
    let mut words = Vec::new(alloc);
    for word in line.split(' ') {
        words.push(word)?;
    }
    let count = words.len();
    let (how, place, other) = (chance.below(5), chance.below(count), chance.below(count));
    if place >= count || other >= count {
        return String::from_str(alloc, line);
    }
    let word = words[place];
    match how {
        0 => {
            let _ = words.remove(place);
        }
        1 => words.insert(place, word)?,
        2 => words.swap(place, other),
        3 => words[place] = cut(chance, word),
        _ => return joined(alloc, &words, place + 1),
    }
    joined(alloc, &words, 0)
}

// The front of a word.
fn cut<'a>(chance: &mut Chance, word: &'a str) -> &'a str {
    word.get(..chance.below(word.len())).unwrap_or(word)
}

// The words with a space before each but the first and the one at this place.
fn joined(alloc: Global, words: &[&str], closed: usize) -> Result<String, AllocError> {
    let mut line = String::new(alloc);
    for (place, word) in words.iter().enumerate() {
        if place > 0 && place != closed {
            line.push(' ')?;
        }
        line.push_str(word)?;
    }
    Ok(line)
}
