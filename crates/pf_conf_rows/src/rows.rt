//! How files and cases are spelled.
ghost use Rattle.std.specs.Prelude.{◌<◌};

use pf_addr::path::Path;
use pf_conf::{Interface, Mode, read_interface};
use pf_tokens::{Bytes, Contents, File, Items};
use std::alloc::{AllocError, Global};

/// A file that others may name, a case, or what is asked of a file.
#[derive(Clone, Copy)]
pub(crate) struct Row<'a> {
    /// `file`, `case`, or the word that is asked.
    pub(crate) kind: &'a str,
    /// The file's name, or that of the file which is asked about.
    pub(crate) name: &'a str,
    /// The words that a case is read with, or the further ones that are asked.
    pub(crate) words: &'a str,
    /// The lines of the file, or those that are wanted, as they are spelled.
    pub(crate) lines: &'a str,
}

impl<'a> Row<'a> {
    /// Reads a row behind its `== `.
    pub(crate) fn read(text: &'a str) -> Row<'a> {
        let (head, lines) = text.split_once('\n').unwrap_or((text, ""));
        let (kind, named) = head.split_once(' ').unwrap_or((head, ""));
        let (name, words) = named.split_once(' ').unwrap_or((named, ""));
        Row {
            kind,
            name,
            words,
            lines,
        }
    }

    /// The file.
    pub(crate) fn file(&self, alloc: Global) -> Result<File, AllocError> {
        Ok(File {
            name: Items::copied(alloc, self.name.as_bytes())?,
            contents: Contents::Text(bytes_of(alloc, self.lines)?),
        })
    }

    /// How the file is read.
    pub(crate) fn mode(&self) -> Mode {
        if self.words.contains("--lenient") {
            Mode::Lenient
        } else {
            Mode::Strict
        }
    }

    /// The interfaces whose addresses are known.
    pub(crate) fn interfaces(&self, alloc: Global) -> Result<Items<Interface>, AllocError> {
        let mut interfaces = Items::new(alloc);
        for words in self.words.split("--interface ").skip(1) {
            let (text, _) = words.split_once(' ').unwrap_or((words, ""));
            if let Some(interface) = read_interface(alloc, text.as_bytes())? {
                interfaces.push(interface)?;
            }
        }
        Ok(interfaces)
    }

    /// The path whose rulesets the file has.
    pub(crate) fn base(&self) -> Path {
        match self.words.split_once("--anchor ") {
            Some((_, path)) => Path::from_ascii(path.as_bytes()).unwrap_or(Path::main()),
            None => Path::main(),
        }
    }
}

/// The value of a hexadecimal digit; 0 of any other byte.
fn digit(byte: u8) -> u8
    ensures { result < 16 }
{
    match byte {
        b'0'..=b'9' => byte - b'0',
        b'a'..=b'f' => byte - b'a' + 10,
        _ => 0,
    }
}

/// Appends what stands behind a `%`: the byte that two digits spell, and the bytes behind them.
fn push_spelled(bytes: &mut Bytes, spelled: &[u8]) -> Result<(), AllocError> {
    match spelled {
        [high, low, following @ ..] => {
            bytes.push(digit(*high) * 16 + digit(*low))?;
            push_plain(bytes, following)
        }
        _ => push_plain(bytes, spelled),
    }
}

/// Appends bytes that stand for themselves.
fn push_plain(bytes: &mut Bytes, plain: &[u8]) -> Result<(), AllocError> {
    for byte in plain {
        bytes.push(*byte)?;
    }
    Ok(())
}

/// Appends the bytes that a line spells behind its first.
fn push_line(bytes: &mut Bytes, line: &[u8]) -> Result<(), AllocError> {
    let mut parts = line.split(|byte| *byte == b'%');
    if let Some(first) = parts.next() {
        push_plain(bytes, first)?;
    }
    for part in parts {
        push_spelled(bytes, part)?;
    }
    Ok(())
}

/// The bytes that lines spell.
pub(crate) fn bytes_of(alloc: Global, lines: &str) -> Result<Bytes, AllocError> {
    let mut bytes = Items::new(alloc);
    for line in lines.lines() {
        match line.as_bytes() {
            [b'|', line @ ..] => {
                push_line(&mut bytes, line)?;
                bytes.push(b'\n')?;
            }
            [_, line @ ..] => push_line(&mut bytes, line)?,
            [] => {}
        }
    }
    Ok(bytes)
}
