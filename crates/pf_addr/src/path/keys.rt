//! Paths and names as keys of maps, by their bytes, and bytes to look for a path by.
ghost use Rattle.std.specs.{Prelude.{◌≡◌, get_or}, FinMap.{slice_cmp-IsAntisymmetric, nat_cmp-IsAntisymmetric}};
ghost use Rattle.std.specs.Cmp.Lexicographic.{nat_list_cmp_total};
ghost use Rattle.pf_addr.specs.{Path.Names.name_order, Path.Paths.path_order};
ghost use Rattle.pf_addr.specs.Path.FirstBytes.{front_number, front_rises};

use crate::path::name::Name;
use crate::path::path::Path;
use pf_key::{Key, Sought};
use std::cmp::Ordering;

// The byte at a place; zero past the end.
fn byte_at(bytes: &[u8], place: usize) -> u8
    ensures { result ≡ get_or bytes.now place 0 }
{
    if place < bytes.len() { bytes[place] } else { 0 }
}

// The first eight bytes as a number, the first one highest; a shorter text is padded with zeros.
fn front_number(bytes: &[u8]) -> u64
    ensures { result ≡ front_number 8 bytes.now }
{
    let mut number = 0;
    for index in 0..8 {
        number = number * 256 + byte_at(bytes, index) as u64;
    }
    number
}

impl Key for Path {
    ghost order = { path_order };

    ghost hint = { front_number 8 };

    fn order(&self, other: &Path) -> Ordering {
        Path::order(self, other)
    }

    fn same(&self, other: &Path) -> bool {
        Path::same(self, other)
    }

    fn hint(&self) -> u64 {
        front_number(self.as_bytes())
    }

    ghost total = { nat_list_cmp_total };

    ghost alike = { slice_cmp-IsAntisymmetric nat_cmp-IsAntisymmetric };

    ghost rises = { front_rises 8 };
}

/// The bytes of a path that is looked for. No path is made for it, since one is long to copy. Bytes that are no path's are never found.
#[derive(Clone, Copy)]
pub struct PathBytes<'a> {
    /// The bytes, as [`Path::as_bytes`] gives them; none for the main ruleset's path.
    pub bytes: &'a [u8],
}

impl<'a> Sought<Path> for PathBytes<'a> {
    ghost key = { λ p. p.bytes.now };

    fn order(&self, other: &Path) -> Ordering {
        self.bytes.cmp(other.as_bytes())
    }

    #[tactic(auto, using(crate::proofs::PathTexts::same_bytes))]
    fn same(&self, other: &Path) -> bool {
        self.bytes == other.as_bytes()
    }

    fn hint(&self) -> u64 {
        front_number(self.bytes)
    }
}

impl<const LIMIT: usize> Key for Name<LIMIT> {
    ghost order = { name_order };

    ghost hint = { front_number 8 };

    fn order(&self, other: &Name<LIMIT>) -> Ordering {
        Name::order(self, other)
    }

    fn same(&self, other: &Name<LIMIT>) -> bool {
        Name::same(self, other)
    }

    fn hint(&self) -> u64 {
        front_number(self.as_bytes())
    }

    ghost total = { nat_list_cmp_total };

    ghost alike = { slice_cmp-IsAntisymmetric nat_cmp-IsAntisymmetric };

    ghost rises = { front_rises 8 };
}
