//! Places as a user finds them.
ghost use Rattle.std.specs.{Prelude.{◌≡◌, IfOk}, List.slice_get};
ghost use Rattle.pf_conf.specs.Telling.{name_of_file, name_of_macro, spot_of, first_spot, unread_at, unread_of, Tells};

use crate::fault::{Fault, Spot, Unread};
use pf_parse::{Cause, Mistake, Stop};
use pf_tokens::{Bytes, Files, Items, Macros, Place};
use std::alloc::{AllocError, Global};

/// The name of the file of this number; nothing if it isn't given.
fn name_of_file(alloc: Global, files: &Files, number: usize) -> Result<Bytes, AllocError>
    ensures { IfOk result (λ name. name ≡ name_of_file (slice_get files.now number)) }
{
    match files.as_slice().get(number) {
        Some(file) => Items::copied(alloc, file.name.as_slice()),
        None => Ok(Items::new(alloc)),
    }
}

/// The name of the macro of this number, if there is one.
fn name_of_macro(
    alloc: Global,
    macros: &Macros,
    number: Option<usize>,
) -> Result<Option<Bytes>, AllocError>
    ensures { IfOk result (λ name. name ≡ name_of_macro macros.now number) }
{
    let Some(number) = number else {
        return Ok(None);
    };
    match macros.as_slice().get(number) {
        Some(definition) => Ok(Some(Items::copied(alloc, definition.name.as_slice())?)),
        None => Ok(None),
    }
}

impl Spot {
    /// Where a user finds a place, given the macros of its file's reading.
    pub(crate) fn of(
        alloc: Global,
        files: &Files,
        macros: &Macros,
        place: Place,
    ) -> Result<Spot, AllocError>
        ensures { IfOk result (λ spot. spot ≡ spot_of files.now macros.now place) }
    {
        let file = name_of_file(alloc, files, place.file)?;
        let of_macro = name_of_macro(alloc, macros, place.value_of)?;
        let (line, column) = (place.line, place.column);
        Ok(Spot {
            file,
            line,
            column,
            of_macro,
        })
    }

    /// The beginning of the file with this name.
    pub(crate) fn first(alloc: Global, name: &[u8]) -> Result<Spot, AllocError>
        ensures { IfOk result (λ spot. spot ≡ first_spot name.now) }
    {
        Ok(Spot {
            file: Items::copied(alloc, name)?,
            line: 1,
            column: 1,
            of_macro: None,
        })
    }
}

/// A fault at this spot.
pub(crate) fn unread_at(alloc: Global, spot: &Spot, mistake: Mistake) -> Unread
    ensures { Tells result (unread_at spot.now mistake) }
{
    let mistake = Cause::from(mistake);
    match spot.copied(alloc) {
        Ok(spot) => Unread::Faulty(Fault { spot, mistake }),
        // by a call, so that this proof needn't know all the mistakes that there are
        Err(_) => {
            drop(mistake);
            Unread::Memory
        }
    }
}

/// What a user is told of a stop, given the macros of its file's reading.
pub(crate) fn unread_of(alloc: Global, files: &Files, macros: &Macros, stop: Stop) -> Unread
    ensures { Tells result (unread_of files.now macros.now stop) }
{
    match stop {
        Stop::Needs(name) => Unread::Needs(name),
        Stop::Memory => Unread::Memory,
        Stop::Faulty(fault) => match Spot::of(alloc, files, macros, fault.place) {
            Ok(spot) => Unread::Faulty(Fault {
                spot,
                mistake: fault.is,
            }),
            Err(_) => {
                drop(fault);
                Unread::Memory
            }
        },
    }
}
