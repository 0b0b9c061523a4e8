//! What no line, no start of the program and no stream shows.
//!
//! - `calls`: public calls that no line comes to, and that values cross threads.
//! - `tables`: commands whose lists no line can carry.
//! - `faults`: the texts of all faults.
//! - `files`: the bytes of a file that isn't formatted.

mod calls;
mod faults;
mod files;
mod tables;

use crate::tally::Tally;
use std::io::{self, Write};

/// Plays each of them, and writes what it came to.
pub(crate) fn tell_each<W: Write>(rt: &HostRuntime, out: &mut W) -> io::Result<()> {
    let alloc = rt.alloc();
    tell(out, "Calls that no line comes to", calls::call_each(alloc))?;
    tell(out, "Lists that no line can carry", tables::run_each(alloc))?;
    tell(out, "The texts of faults", faults::show_each(alloc))?;
    tell(out, "A file that isn't formatted", files::refuse_each(rt))
}

// Writes what a table came to.
fn tell<W: Write>(out: &mut W, name: &str, tally: io::Result<Tally>) -> io::Result<()> {
    tally?.tell(out, name)
}
