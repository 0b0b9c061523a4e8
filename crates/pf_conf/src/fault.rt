//! What a user is told of a file, and where.
ghost use Rattle.std.specs.Prelude.{◌≡◌, Some, IfOk};
ghost use Rattle.pf_conf.specs.Spots.{spot_text};
ghost use Rattle.pf_conf.specs.declared.fault.Unread.TheVariants.{Memory};

use pf_parse::{Cause, Remark};
use pf_tokens::{Bytes, Items};
use std::alloc::{AllocError, AllocFailed, Global};
use std::fmt::{self, Display, Formatter, Write};

/// Where a user finds it: `FILE:LINE:COLUMN`, and the macro that it came of.
#[derive(Debug, Drop)]
pub struct Spot {
    pub file: Bytes,
    pub line: u32,
    pub column: u32,
    pub of_macro: Option<Bytes>,
}

/// A copy of a name, if there is one.
fn name_copied(alloc: Global, name: &Option<Bytes>) -> Result<Option<Bytes>, AllocError>
    ensures { IfOk result (λ copy. copy ≡ name.now) }
{
    match name {
        Some(name) => Ok(Some(Items::copied(alloc, name.as_slice())?)),
        None => Ok(None),
    }
}

impl Spot {
    /// A copy.
    pub(crate) fn copied(&self, alloc: Global) -> Result<Spot, AllocError>
        ensures { IfOk result (λ spot. spot ≡ self.now) }
    {
        let file = Items::copied(alloc, self.file.as_slice())?;
        let of_macro = name_copied(alloc, &self.of_macro)?;
        let (line, column) = (self.line, self.column);
        Ok(Spot {
            file,
            line,
            column,
            of_macro,
        })
    }
}

/// `FILE:LINE:COLUMN`.
impl Display for Spot {
    ghost output = { λ spot. Some (spot_text spot) };

    fn fmt<W: Write>(&self, f: &mut Formatter<W>) -> fmt::Result {
        let (file, line, column) = (&self.file, self.line, self.column);
        write!(f, "{file}:{line}:{column}")
    }
}

/// What is wrong, as a user is told: `FILE:LINE:COLUMN: TEXT`, and ` (in $NAME)` if the word at fault came of that macro.
#[derive(Debug, Drop)]
pub struct Fault {
    pub spot: Spot,
    pub mistake: Cause,
}

impl Display for Fault {
    fn fmt<W: Write>(&self, f: &mut Formatter<W>) -> fmt::Result {
        let (spot, mistake) = (&self.spot, &self.mistake);
        write!(f, "{spot}: {mistake}")?;
        within(&self.spot, f)
    }
}

/// A note, as a user is told: `FILE:LINE:COLUMN: note: TEXT`.
#[derive(Debug, Drop)]
pub struct Note {
    pub spot: Spot,
    pub remark: Remark,
}

impl Display for Note {
    fn fmt<W: Write>(&self, f: &mut Formatter<W>) -> fmt::Result {
        let (spot, remark) = (&self.spot, &self.remark);
        write!(f, "{spot}: note: {remark}")?;
        within(&self.spot, f)
    }
}

fn within<W: Write>(spot: &Spot, f: &mut Formatter<W>) -> fmt::Result {
    match &spot.of_macro {
        Some(name) => write!(f, " (in ${name})"),
        None => Ok(()),
    }
}

/// Why a file isn't taken.
#[derive(Debug, Drop)]
pub enum Unread {
    /// There is a fault in it, or in a file that it names.
    Faulty(Fault),
    /// It names this file, which isn't given.
    Needs(Bytes),
    /// Out of memory.
    Memory,
}

impl From<AllocError> for Unread {
    ghost from_gives = { λ _ result. result ≡ Memory };

    fn from(_e: AllocError) -> Unread {
        Unread::Memory
    }
}

impl<T: Drop> From<AllocFailed<T>> for Unread {
    ghost from_gives = { λ _ result. result ≡ Memory };

    fn from(_e: AllocFailed<T>) -> Unread {
        Unread::Memory
    }
}
