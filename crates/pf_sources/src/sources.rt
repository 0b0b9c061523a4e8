//! Lists and files of entries, as a table's line has them.
ghost use Rattle.std.specs.Prelude.{◌≡◌, ◌++◌, OnOk};
ghost use Rattle.pf_parse.specs.Stops.{Gives};
ghost use Rattle.pf_sources.specs.Steps.{Leaves};
ghost use Rattle.pf_sources.specs.Sources.{with_file_entries, with_source, gathered};

use crate::tables::{entries_at, filled};
use pf_parse::{Entries, Entry, Stop, read_entries};
use pf_tokens::{Files, Items, Place, Token, text_of_file};
use std::alloc::{AllocError, Global};

/// The entries of a table's sources, as they come.
#[derive(Drop)]
pub struct Gathered {
    /// How many files were read.
    pub files_read: usize,
    pub entries: Items<Entry>,
}

/// Appends entries.
fn push_entries(entries: &mut Items<Entry>, more: &[Entry]) -> Result<(), AllocError>
    ensures { OnOk result (entries.new ≡ entries.old ++ more.now) }
{
    for entry in more {
        entries.push(*entry)?;
    }
    Ok(())
}

impl Gathered {
    /// Adds the entries of the file that a token names.
    #[tactic(auto, unfolding(crate::specs::Sources::with_file_entries))]
    fn add_file(&mut self, alloc: Global, files: &Files, file: &Token) -> Result<(), Stop>
        ensures { Leaves result self.new (with_file_entries files.now file.now self.old) }
    {
        let name = file.bytes(alloc)?;
        let (number, text) = text_of_file(
            alloc,
            files,
            self.files_read,
            file.place,
            name.as_slice(),
        )?;
        self.files_read += 1;
        read_entries(alloc, number, text, &mut self.entries)
    }

    /// Adds the entries of a source of a table whose name stands at this place. A file's come behind the table
    /// that those before it make, so that no more are kept than a table and a file may have.
    #[tactic(auto, unfolding(crate::specs::Sources::with_source))]
    fn add_source(
        &mut self,
        alloc: Global,
        files: &Files,
        named: Place,
        source: &Entries,
    ) -> Result<(), Stop>
        ensures { Leaves result self.new (with_source files.now named source.now self.old) }
    {
        match source {
            Entries::Listed(listed) => {
                push_entries(&mut self.entries, listed.as_slice())?;
                Ok(())
            }
            Entries::File(file) => {
                let before = filled(alloc, named, self.entries.as_slice())?;
                self.entries = entries_at(alloc, named, &before)?;
                self.add_file(alloc, files, file)
            }
        }
    }
}

/// The entries of all sources of a table whose name stands at this place, behind so many files that were read.
///
/// `Stop::Faulty`: what is wrong with the first source that isn't taken; `Stop::Needs`: it names this file, which isn't given;
/// `Stop::Memory`: out of memory.
pub fn gather(
    alloc: Global,
    files: &Files,
    named: Place,
    sources: &[Entries],
    files_read: usize,
) -> Result<Gathered, Stop>
    ensures { Gives result (gathered files.now named sources.now files_read) }
{
    let entries = Items::new(alloc);
    let mut gathered = Gathered {
        files_read,
        entries,
    };
    for source in sources {
        gathered.add_source(alloc, files, named, source)?;
    }
    Ok(gathered)
}
