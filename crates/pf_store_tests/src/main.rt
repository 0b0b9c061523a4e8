//! A program of tests: it plays disks and histories over devices, and writes what came of them. It shows what no contract says, and what
//! files do. `stdout` is what it has to write wherever it runs. The files that it works on are in `data`; it expects them in the directory
//! where it runs.
//!
//! It knows the public items of the crates below. It doesn't know what should come out: that is in `stdout`. Read `stdout` first, and then
//! the module of each part:
//!
//! - `files`: a thousand calls on a file beside the same calls in memory, and files that aren't taken as a device: one has another length,
//!   one can't be synced. It also reads the images of older versions, on which `saves` plays rows.
//! - `saves`: the rows of `stdin`, whose head says how they are written, on devices in memory: openings, saves, crashes and faults.
//!   Behind them, in its `stops`, devices that tear a call and openings that are stopped, in its `renewals` Books that open their devices
//!   again, and in its `chances` lines, streams and images at random.
//! - `books`: what is asked of a `Book` of `pf_book`, what it replies, and what is read of its device; `saves` uses it.
//! - `streams`: peers' streams, at random and in pieces; `saves` uses it.
//! - `words`: lines and messages at random, of words that rows give.
//! - `chance`: numbers that look random, and how often each outcome came.
//! - `rows`: how rows are spelled.
//!
//! Nothing is proved here but that the tests keep the contracts of what they call.
#![tactic(auto)]

mod books;
mod chance;
mod files;
mod rows;
mod saves;
mod streams;
mod words;

use pf_journal::ReadFault;
use std::io;
use std::sync::Wait;

fn main(rt: HostRuntime) -> io::Result<()> {
    let mut reported = String::new(rt.alloc());
    let rows = io::read_to_string(rt.alloc(), rt.stdin())?;
    if let Err(fault) = play(&rt, &rt, &mut reported, rows.as_str()) {
        write!(reported, "stopped: {fault:?}\n")?;
    }
    print!(rt; "{reported}")
}

fn play<H: Wait + Drop + Copy>(
    waits: H,
    rt: &HostRuntime,
    reported: &mut String,
    rows: &str,
) -> Result<(), ReadFault> {
    let alloc = rt.alloc();
    files::play(rt, reported)?;
    let images = files::older_images(rt)?;
    Ok(saves::play(waits, alloc, images, reported, rows)?)
}
