//! The text of each fault.
use crate::tally::Tally;
use pfd_files::Fault;
use std::alloc::Global;
use std::io;

/// Each fault with its text.
const TEXTS: &[(Fault, &str)] = &[
    (Fault::BadSize, "bad size"),
    (Fault::NoBank, "no bank"),
    (Fault::Corrupt { at: 40 }, "corrupt at 40"),
    (Fault::Device, "fault"),
    (Fault::EpochsExhausted, "epochs exhausted"),
    (Fault::Full, "full"),
    (Fault::Memory, "memory"),
    (Fault::Places, "places"),
    (Fault::Input, "input"),
    (Fault::Output, "output"),
    (Fault::Reported, "told"),
];

/// Looks at the text of each fault.
pub(crate) fn show_each(alloc: Global) -> io::Result<Tally> {
    let mut tally = Tally::none(alloc);
    for (fault, wanted) in TEXTS {
        let text = format!(in alloc; "{fault}")?;
        tally.hold(wanted, text.as_str() == *wanted)?;
    }
    Ok(tally)
}
