//! How much of a bank is used, and when that is said.
ghost use Rattle.std.specs.Prelude.{◌≡◌, ◌<◌, ◌^◌};
ghost use Rattle.pf_addr.specs.Writing.{Writes};
ghost use Rattle.pfd.specs.Fullness.{fullness_text, news, noted, percent, used};

use pf_addr::{write_more, write_more_number};
use pf_core::Durable;
use pf_snap::BANK_HEADER;
use pf_store::ROOM_TO_OPEN;
use std::io::{self, Write};

/// How many bytes a bank has, and at how many hundredths of it it was last said how full it is: 0, if that doesn't count any more, or
/// nothing was said.
#[derive(Drop)]
pub(crate) struct Gauge {
    size: u64,
    reported: u64,
}

impl Gauge {
    /// A gauge of banks of so many bytes, of which nothing was said.
    pub(crate) fn new(size: u64) -> Gauge
        ensures size { result.size ≡ size }
        ensures reported { result.reported ≡ 0 }
    {
        Gauge { size, reported: 0 }
    }

    /// Takes note of what is kept. `Some`: how many hundredths of a bank are used is to be said, since they are more than seven eighths,
    /// and more than were said since no more than three quarters were used. It looks at no rule, entry or state.
    pub(crate) fn note(&mut self, kept: &Durable) -> Option<u64>
        ensures said { result ≡ news self.old (used kept.now) }
        ensures noted { self.new ≡ noted self.old (used kept.now) }
    {
        let used = used_by(kept);
        let size = self.size as u128;
        if 0 < size && 7 * size < 8 * used {
            let hundredths = percent_of(used, size);
            if hundredths <= self.reported {
                return None;
            }
            self.reported = hundredths;
            return Some(hundredths);
        }
        if 4 * used <= 3 * size {
            self.reported = 0;
        }
        None
    }
}

// How many bytes of a bank are used.
fn used_by(kept: &Durable) -> u128
    ensures exact { result ≡ used kept.now }
    ensures light { result < 2 ^ 100 }
{
    BANK_HEADER as u128 + kept.byte_length() + ROOM_TO_OPEN as u128
}

// How many hundredths of a bank of `size` bytes these are, 100 at most.
fn percent_of(used: u128, size: u128) -> u64
    requires some { 0 < size }
    requires light { used < 2 ^ 100 }
    ensures { result ≡ percent size used }
{
    let hundredths = used * 100 / size;
    if hundredths < 100 {
        return hundredths as u64;
    }
    100
}

/// Writes the line that says how full the disk is.
pub(crate) fn write_fullness<W: Write>(writer: &mut W, hundredths: u64) -> io::Result<()>
    ensures { Writes result (W.contents writer.old) (W.contents writer.new) (fullness_text hundredths) }
{
    let so_far = write_more(writer, Ok(()), b"pfd: the disk is ");
    let so_far = write_more_number(writer, so_far, hundredths);
    match write_more(writer, so_far, b" % full\n") {
        Ok(()) => writer.flush(),
        Err(error) => Err(error),
    }
}

/// Says how full the disk is, if that is to be said of what is kept. If the line can't be written there is nowhere else to say it.
pub(crate) fn tell_fullness<F: Write>(gauge: &mut Gauge, kept: &Durable, faults: &mut F)
    ensures { gauge.new ≡ noted gauge.old (used kept.now) }
{
    if let Some(hundredths) = gauge.note(kept) {
        let _ = write_fullness(faults, hundredths);
    }
}
