//! The bytes of a file that isn't formatted.
use crate::tally::Tally;
use pfd_files::{Fault, format_file};
use std::{fs, io};

/// The file, in the directory where the program runs, and what is in it.
const PATH: &str = "refused";

const BYTES: &[u8] = b"whatever stood there";

// Whether a size is refused, and the file left as it was.
fn is_left(rt: &HostRuntime, size: usize) -> io::Result<bool> {
    let refused = format_file(rt.alloc(), rt, PATH, size) == Err(Fault::BadSize);
    let left = fs::read(rt, PATH)?;
    Ok(refused && left.as_slice() == BYTES)
}

/// Formats a file in sizes that no disk has.
pub(crate) fn refuse_each(rt: &HostRuntime) -> io::Result<Tally> {
    let mut tally = Tally::none(rt.alloc());
    fs::write(rt, PATH, BYTES)?;
    for size in [0, 20, 254, 257, (1 << 30) + 2] {
        let fact = format!(in rt.alloc(); "{size} bytes are refused")?;
        tally.hold(fact.as_str(), is_left(rt, size)?)?;
    }
    fs::remove_file(rt, PATH)?;
    Ok(tally)
}
