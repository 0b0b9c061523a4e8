//! Paths within one another.
ghost use Rattle.std.specs.{Prelude.{◌≡◌, ◌≢◌, true, ℕ, List, ◌≤◌, ◌+◌, ◌++◌, length, take, if◌then◌else◌, Some, None}, List.list_any};
ghost use Rattle.std.specs.Option.{is_none, MatchOption};
ghost use Rattle.pf_addr.specs.{Path.Paths.{is_slash, path_fault, is_path}, Path.Nested.{path_within, is_single, is_child}};

use crate::path::limits::PATH_LIMIT;
use crate::path::path::Path;
use crate::path::path_text::fault_in;

// The path with this text, if it has no fault.
pub(crate) fn faultless(text: &[u8]) -> Option<Path>
    ensures { result ≡ if is_none (path_fault text.now) then Some text.now else None }
{
    match fault_in(PATH_LIMIT, text, text) {
        None => Some(Path::holding(text)),
        Some(_) => None,
    }
}

fn has_slash(text: &[u8]) -> bool
    ensures { result ≡ list_any is_slash text.now }
{
    text.iter().any(|b| *b == b'/')
}

// Whether a text is one component: not empty, and without a slash.
fn is_single(text: &[u8]) -> bool
    ensures { result ≡ is_single text.now }
{
    !text.is_empty() && !has_slash(text)
}

// What comes after the front of a text.
fn rest_after<'a>(text: &'a [u8], front: &[u8]) -> Option<&'a [u8]>
    ensures { MatchOption result ((rest : List ℕ) → text.now ≢ front.now ++ rest) (λ rest. text.now ≡ front.now ++ rest.now) }
{
    text.strip_prefix(front)
}

// Writes `more` after the first `len` bytes.
fn append(bytes: &mut [u8; PATH_LIMIT], len: usize, more: &[u8])
    requires { len + length more.now ≤ PATH_LIMIT }
    ensures { take (len + length more.now) bytes.new ≡ take len bytes.old ++ more.now }
{
    bytes[len..len + more.len()].copy_from_slice(more);
}

impl Path {
    /// The path that names lead to from this one: its bytes, a slash and the names, or just the names from the main ruleset's path
    /// (pf.conf(5), ANCHORS). `None` if that isn't a path, as past 255 bytes or 16 components. Doesn't allocate.
    #[tactic(auto, unfolding(crate::specs::Path::Nested::path_within))]
    pub fn joined(&self, names: &[u8]) -> Option<Path>
        ensures { result ≡ path_within self.now names.now }
    {
        let outer = self.as_bytes();
        if outer.is_empty() {
            return faultless(names);
        }
        let start = outer.len() + 1;
        let room = PATH_LIMIT.checked_sub(start)?;
        if names.len() > room {
            return None;
        }
        let mut bytes = [0; PATH_LIMIT];
        append(&mut bytes, 0, outer);
        append(&mut bytes, outer.len(), b"/");
        append(&mut bytes, start, names);
        Path::kept(bytes, start + names.len())
    }

    /// Whether this path is the other's with one more component (pf.conf(5), ANCHORS: attached to it).
    pub fn is_child_of(&self, parent: &Path) -> bool
        ensures value { result ≡ is_child parent.now self.now }
        // what every path maintains
        ensures path { is_path self.now ≡ true }
    {
        let bytes = self.as_bytes();
        let outer = parent.as_bytes();
        if outer.is_empty() {
            return is_single(bytes);
        }
        let Some(rest) = rest_after(bytes, outer) else {
            return false;
        };
        let Some(name) = rest_after(rest, b"/") else {
            return false;
        };
        is_single(name)
    }
}
