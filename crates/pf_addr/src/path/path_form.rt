//! Paths, names and references in bytes. `specs/Path/PathForms.antt` says which bytes are refused; each form is the same in every
//! version.
ghost use Rattle.std.specs.Prelude.{◌≡◌, ◌≤◌, true, Some, None, if◌then◌else◌};
ghost use Rattle.pf_addr.specs.Path.{Paths.is_path, References.refers, PathForms.{name_field, names_limit, is_reference}};
ghost use Rattle.pf_form.specs.Bytes.{Names.filled, Readers.Reads};

use crate::path::limits::REFERENCE_LIMIT;
use crate::path::name::{Name, TableName};
use crate::path::nested::faultless;
use crate::path::path::Path;
use crate::path::path_text::fault_in;
use crate::path::reference::Reference;
use pf_form::bytes::{
    Fault, Fitting, Layout, Ordered, Rest, Undecoded, expect, push_bytes, push_counted_bytes,
    push_padded, push_u8, read_counted_bytes, read_filled, read_flag,
};
use std::alloc::{AllocError, Global};

/// The length of its text in one byte, then the text; the main ruleset's path has none.
///
/// Reading fails if bytes are missing; at the length if they aren't a path's; and when out of memory.
impl Layout for Path {
    ghost use Rattle.std.specs.Ordering.{is_lt};
    ghost use Rattle.pf_addr.specs.{Path.Paths.path_order, Path.PathForms.{TextShape, path_form}};

    ghost shape = { TextShape };

    ghost form = { λ version. path_form };

    ghost plain = { λ path. path };

    ghost before = { λ p q. is_lt (path_order p q) };

    #[tactic(auto, unfolding(crate::specs::Path::PathForms::path_form))]
    fn read<'a>(alloc: Global, _version: u8, from: &mut Rest<'a>) -> Result<Path, Undecoded> {
        let left = from.len();
        let text = read_counted_bytes(alloc, from)?;
        match Path::of_bytes(&text) {
            Some(path) => Ok(path),
            None => Err(Undecoded::Fault(Fault::Bad(left))),
        }
    }

    #[tactic(auto, unfolding(crate::specs::Path::PathForms::path_form))]
    fn write(&self, _version: u8, out: &mut Vec<u8>) -> Result<(), AllocError> {
        push_counted_bytes(out, self.as_bytes())
    }
}

impl Fitting for Path {
    #[tactic(auto, using(crate::proofs::PathBytes::path_fits))]
    fn fits(&self, _version: u8) {
        // `as_bytes` promises that this is a path
        let _bytes = self.as_bytes();
    }
}

impl Ordered for Path {
    fn comes_before(&self, other: &Path) -> bool {
        self.order(other).is_lt()
    }
}

impl Path {
    /// The path with these bytes; the main ruleset's has none.
    fn of_bytes(text: &[u8]) -> Option<Path>
        ensures { result ≡ if is_path text.now then Some text.now else None }
    {
        if text.is_empty() {
            return Some(Path::main());
        }
        faultless(text)
    }
}

/// Its length in one byte, then the name.
///
/// Reading fails if bytes are missing; at the length if they aren't a name's; and when out of memory.
impl Layout for TableName {
    ghost use Rattle.std.specs.Ordering.{is_lt};
    ghost use Rattle.pf_addr.specs.{Path.Names.name_order, Path.PathForms.{TextShape, table_name_form}};

    ghost shape = { TextShape };

    ghost form = { λ version. table_name_form };

    ghost plain = { λ name. name };

    ghost before = { λ m n. is_lt (name_order m n) };

    #[tactic(auto, unfolding(crate::specs::Path::PathForms::table_name_form))]
    fn read<'a>(alloc: Global, _version: u8, from: &mut Rest<'a>) -> Result<TableName, Undecoded> {
        let left = from.len();
        let text = read_counted_bytes(alloc, from)?;
        match TableName::from_ascii(&text) {
            Ok(name) => Ok(name),
            Err(_) => Err(Undecoded::Fault(Fault::Bad(left))),
        }
    }

    #[tactic(auto, unfolding(crate::specs::Path::PathForms::table_name_form))]
    fn write(&self, _version: u8, out: &mut Vec<u8>) -> Result<(), AllocError> {
        push_counted_bytes(out, self.as_bytes())
    }
}

impl Fitting for TableName {
    #[tactic(auto, using(crate::proofs::PathBytes::table_name_fits))]
    fn fits(&self, _version: u8) {
        // `as_bytes` promises that this is a name
        let _bytes = self.as_bytes();
    }
}

impl Ordered for TableName {
    fn comes_before(&self, other: &TableName) -> bool {
        self.order(other).is_lt()
    }
}

/// Reads a name from a field of `width` bytes, padded with zeros. Doesn't allocate.
///
/// Fails if bytes are missing, and at the field if it isn't padded with zeros or what comes before them isn't a name.
#[tactic(auto, unfolding(crate::specs::Path::PathForms::name_field))]
pub fn read_name<'a, const LIMIT: usize>(
    width: usize,
    from: &mut Rest<'a>,
) -> Result<Name<LIMIT>, Undecoded>
    requires fits { LIMIT ≤ 255 }
    ensures { Reads (λ name. filled width name) (name_field LIMIT width) result from.old.now from.new.now }
{
    let left = from.len();
    let text = read_filled(width, from)?;
    match Name::from_ascii(text) {
        Ok(name) => Ok(name),
        Err(_) => Err(Undecoded::Fault(Fault::Bad(left))),
    }
}

const REFERENCE_FIELD: usize = 64;

/// 68 bytes: its names in 64, padded with zeros; 1 if it ends in `/*`, otherwise 0; and three zeros.
///
/// Reading fails if bytes are missing, or aren't zeros or a flag where they must be; at the first byte if the names aren't a reference's.
/// Reading doesn't allocate.
impl Layout for Reference {
    ghost use Rattle.std.specs.Prelude.{true};
    ghost use Rattle.pf_addr.specs.Path.PathForms.{ReferenceShape, reference_form, plain_reference};

    ghost shape = { ReferenceShape };

    ghost form = { λ version. reference_form };

    ghost plain = { plain_reference };

    ghost before = { λ p q. true };

    #[tactic(auto, unfolding(crate::specs::Path::PathForms::reference_form))]
    fn read<'a>(_alloc: Global, _version: u8, from: &mut Rest<'a>) -> Result<Reference, Undecoded> {
        let left = from.len();
        let names = read_filled(REFERENCE_FIELD, from)?;
        let is_wildcard = read_flag(from)?;
        expect(from, &[0, 0, 0])?;
        match Reference::of_names(names, is_wildcard) {
            Some(reference) => Ok(reference),
            None => Err(Undecoded::Fault(Fault::Bad(left))),
        }
    }

    #[tactic(auto, unfolding(crate::specs::Path::PathForms::reference_form, pf_form::specs::Bytes::Codes::below))]
    fn write(&self, _version: u8, out: &mut Vec<u8>) -> Result<(), AllocError> {
        push_padded(out, REFERENCE_FIELD, self.names())?;
        push_u8(out, u8::from(self.is_wildcard()))?;
        push_bytes(out, &[0, 0, 0])
    }
}

impl Reference {
    /// The reference of these names, if they are valid.
    fn of_names(names: &[u8], is_wildcard: bool) -> Option<Reference>
        ensures { result ≡ if is_reference names.now is_wildcard then Some (refers names.now is_wildcard) else None }
    {
        match fault_in(names_limit(is_wildcard), names, names) {
            None => Some(Reference::holding(names, is_wildcard)),
            Some(_) => None,
        }
    }
}

/// How many bytes a reference's names may have, with `/*` after them or without it.
fn names_limit(is_wildcard: bool) -> usize
    ensures { result ≡ names_limit is_wildcard }
{
    if is_wildcard {
        REFERENCE_LIMIT - 2
    } else {
        REFERENCE_LIMIT
    }
}
