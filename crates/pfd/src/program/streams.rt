//! The standard streams' places. No clause can say which places are free, so this is only tested.
use std::fs::{File, Files};
use std::os::fd::AsRawFd;

// A file in a standard stream's place.
type HeldPlace = Option<File>;

/// Holds the places of standard streams that are closed, until what it returns is dropped: the next file that is opened would be in such a
/// place, and replies would be written to a disk.
pub(crate) fn hold_streams<S: Files<File = File>>(files: &S) -> (HeldPlace, HeldPlace, HeldPlace) {
    (hold_stream(files), hold_stream(files), hold_stream(files))
}

// Holds the first such place. The folder there can be neither read nor written, as a stream that is closed.
fn hold_stream<S: Files<File = File>>(files: &S) -> HeldPlace {
    match File::open(files, "/") {
        Ok(folder) if folder.as_raw_fd() <= 2 => Some(folder),
        _ => None,
    }
}
