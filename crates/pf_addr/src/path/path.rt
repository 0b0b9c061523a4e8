//! Paths of rulesets.
ghost use Rattle.std.specs.{Prelude.{◌≡◌, ◌≤◌, [], true, take, if◌then◌else◌, Some, None}, Option.is_none};
ghost use Rattle.pf_addr.specs.Path.Paths.{path_of, path_fault, is_path, path_order, same_path};

use crate::path::limits::PATH_LIMIT;
use crate::path::path_text::fault_in;
use pf_form::form::Kind;
use std::cmp::Ordering;
use std::marker::Model;

/// The path of a ruleset (pf.conf(5), ANCHORS), stored inline: the main ruleset's, which is empty, or what a word spells, of at most 255
/// bytes. Contracts see it as the list of its bytes.
#[derive(Drop)]
pub struct Path {
    bytes: [u8; PATH_LIMIT],
    len: u8,
}

impl Model for Path {
    ghost use Rattle.std.specs.Prelude.{ℕ, List, take, ◌≡◌, ◌≤◌, true};
    ghost use Rattle.pf_addr.specs.declared.path.limits.TheConstants.{PATH_LIMIT};
    ghost use Rattle.pf_addr.specs.Path.Paths.{is_path};

    ghost Value = { List ℕ };

    ghost view = { λ p. take p.len p.bytes };

    ghost invariant = { λ p. (p.len ≤ PATH_LIMIT) × (is_path (take p.len p.bytes) ≡ true) };
}

impl Path {
    /// The path of the main ruleset.
    pub fn main() -> Path
        ensures { result ≡ [] }
    {
        Path {
            bytes: [0; PATH_LIMIT],
            len: 0,
        }
    }

    /// Reads a path from a word: `-` is the main ruleset's, any other is taken as it is written.
    ///
    /// A path has at most 255 bytes in at most 16 components, with a slash between each two. A component has 1 to 63 bytes, each a
    /// letter, a digit, `_`, `.` or `-`, and is neither `..` nor `-`. A word past 255 bytes is `NameTooLong`; then the first faulty
    /// component decides: `BadWord` or, past 63 bytes, `NameTooLong`; then more than 16 components are `NameTooLong`. Doesn't allocate.
    pub fn from_ascii(text: &[u8]) -> Result<Path, Kind>
        ensures { result ≡ path_of text.now }
    {
        if text == b"-".as_slice() {
            return Ok(Path::main());
        }
        match fault_in(PATH_LIMIT, text, text) {
            None => Ok(Path::holding(text)),
            Some(kind) => Err(kind),
        }
    }

    /// The path with this text, which has no fault.
    pub(crate) fn holding(text: &[u8]) -> Path
        requires { path_fault text.now ≡ None }
        ensures { result ≡ text.now }
    {
        let mut bytes = [0; PATH_LIMIT];
        bytes[..text.len()].copy_from_slice(text);
        Path {
            bytes,
            len: text.len() as u8,
        }
    }

    // The path of the first `len` bytes, if they are a path's text.
    pub(crate) fn kept(bytes: [u8; PATH_LIMIT], len: usize) -> Option<Path>
        requires { len ≤ PATH_LIMIT }
        ensures { result ≡ if is_none (path_fault (take len bytes)) then Some (take len bytes) else None }
    {
        let text = &bytes[..len];
        match fault_in(PATH_LIMIT, text, text) {
            None => Some(Path {
                bytes,
                len: len as u8,
            }),
            Some(_) => None,
        }
    }

    /// A copy of the path. Doesn't allocate.
    pub fn copied(&self) -> Path
        ensures { result ≡ self.now }
    {
        Path {
            bytes: self.bytes,
            len: self.len,
        }
    }

    /// The path's bytes; none for the main ruleset.
    pub fn as_bytes(&self) -> &[u8]
        ensures value { result.now ≡ self.now }
        ensures path { is_path self.now ≡ true }
    {
        &self.bytes[..self.len as usize]
    }

    /// Compares two paths by their bytes.
    pub fn order(&self, other: &Path) -> Ordering
        ensures { result ≡ path_order self.now other.now }
    {
        self.as_bytes().cmp(other.as_bytes())
    }

    /// Whether both paths are the same.
    #[tactic(auto, using(crate::proofs::PathTexts::same_bytes))]
    pub fn same(&self, other: &Path) -> bool
        ensures { result ≡ same_path self.now other.now }
    {
        // unlike `order`, this compares the lengths first
        self.as_bytes() == other.as_bytes()
    }
}
