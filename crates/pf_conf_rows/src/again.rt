//! Main's rules, as they are printed, read once more.

use pf_addr::path::Path;
use pf_conf::{Conf, Mode, resolve};
use pf_tokens::{Contents, File, Files, Items};
use std::alloc::{AllocError, Global};
use std::io::{self, Write};

/// The lines of main's rules, without their numbers.
fn rules_text(alloc: Global, conf: &Conf) -> io::Result<Vec<u8>> {
    let mut text = Vec::new(alloc);
    for ruleset in conf.rulesets.as_slice() {
        if ruleset.path.as_bytes().is_empty() {
            for rule in ruleset.rules.as_slice() {
                rule.is.write(&mut text)?;
                writeln!(text)?;
            }
        }
    }
    Ok(text)
}

/// A file with this text.
fn file_of(alloc: Global, name: &[u8], text: &[u8]) -> Result<Files, AllocError> {
    let mut files = Items::new(alloc);
    files.push(File {
        name: Items::copied(alloc, name)?,
        contents: Contents::Text(Items::copied(alloc, text)?),
    })?;
    Ok(files)
}

/// Whether a rule names an anchor that a file can't: one without a name in its file is `_N`.
fn names_reserved(text: &[u8]) -> bool {
    text.windows(2).any(|pair| pair == b"\"_".as_slice())
}

/// Main's rules, as they are printed, of the file `printed`; nothing if it is refused.
fn printed(alloc: Global, files: &Files) -> io::Result<Option<Vec<u8>>> {
    match resolve(alloc, files, &[], Mode::Strict, &Path::main(), b"printed") {
        Ok(conf) => Ok(Some(rules_text(alloc, &conf)?)),
        Err(_) => Ok(None),
    }
}

/// Whether main's rules, as they are printed, are read as the same rules. No two rules have one text.
pub(crate) fn is_read_again(alloc: Global, conf: &Conf) -> io::Result<bool> {
    let text = rules_text(alloc, conf)?;
    if names_reserved(&text) {
        return Ok(true);
    }
    let files = file_of(alloc, b"printed", &text)?;
    match printed(alloc, &files)? {
        Some(again) => Ok(again.as_slice() == text.as_slice()),
        None => Ok(false),
    }
}
