//! What a file means, with what it includes and loads.
ghost use Rattle.std.specs.Prelude.{◌≡◌, ◌≤◌, ◌<◌, ◌^◌, ◌+◌, ◌-◌, length, sum_by, codes, min, IfOk, OnOk};
ghost use Rattle.pf_tokens.specs.declared.files.TheConstants.{FILE_LIMIT, READING_LIMIT};
ghost use Rattle.pf_tokens.specs.{Places.start_of, Files.text_of_file};
ghost use Rattle.pf_sources.specs.Steps.{Leaves};
ghost use Rattle.pf_conf.specs.{Lines.parsed_with, Telling.{telling, telling_at, GivesWanted, FindsWanted, LeavesWanted}};
ghost use Rattle.pf_conf.specs.Resolving.{note_of, waiting_of, with_notes, with_loads, with_tree, is_main, room_for, free_for, with_load, with_flat, flat_of, with_file, load_numbered, loads_from, part_length, commit_length, committed, main_file, resolved};

use crate::fault::{Note, Spot, Unread};
use crate::found::{Conf, Found, LINE_LIMIT, Mention, Ruleset, TICKET_BYTES, Waiting, path_text};
use crate::lines::parse_with;
use crate::telling::{unread_at, unread_of};
use pf_addr::path::Path;
use pf_parse::{At, Load, Mistake, Mode, Parsed, Remark, Stop, Tree};
use pf_tokens::{
    Files, Flat, INCLUDE_LIMIT, Items, Macros, Place, READING_LIMIT, TokenStop, text_of_file,
};
use pf_values::interfaces::Interface;
use std::alloc::{AllocError, Global};

/// A note as a user is told it.
fn note_of(
    alloc: Global,
    files: &Files,
    macros: &Macros,
    remark: At<Remark>,
) -> Result<Note, AllocError>
    ensures { IfOk result (λ note. note ≡ note_of files.now macros.now remark) }
{
    let spot = Spot::of(alloc, files, macros, remark.place)?;
    Ok(Note {
        spot,
        remark: remark.is,
    })
}

/// A load of a file with this path, as one that is still to be read.
fn waiting_of(
    alloc: Global,
    files: &Files,
    macros: &Macros,
    path: &Path,
    load: &Load,
) -> Result<Waiting, AllocError>
    ensures { IfOk result (λ w. w ≡ waiting_of files.now macros.now path.now load.now) }
{
    let mention = Mention {
        at: Spot::of(alloc, files, macros, load.place)?,
        named: Spot::of(alloc, files, macros, load.file.place)?,
        name: load.file.bytes(alloc)?,
    };
    let path = path.joined(load.path.as_slice());
    Ok(Waiting { path, mention })
}

/// The number and the text of a file that is named, behind so many that were read.
fn text_of<'a>(
    alloc: Global,
    files: &'a Files,
    mention: &Mention,
    files_read: usize,
) -> Result<(usize, &'a [u8]), Unread>
    ensures found { FindsWanted result (telling_at mention.now.named (text_of_file files.now files_read (start_of 0) mention.now.name)) }
    ensures short { IfOk result (λ found. length found.1.now ≤ FILE_LIMIT) }
    ensures room { IfOk result (λ found. files_read < READING_LIMIT) }
{
    let name = mention.name.as_slice();
    match text_of_file(alloc, files, files_read, Place::start(0), name) {
        Ok(found) => Ok(found),
        Err(TokenStop::Faulty(fault)) => Err(unread_at(
            alloc,
            &mention.named,
            Mistake::Token(fault.mistake),
        )),
        Err(TokenStop::Needs(name)) => Err(Unread::Needs(name)),
        Err(TokenStop::Memory) => Err(Unread::Memory),
    }
}

/// The tokens of a file that is named and of what it includes, behind so many files that were read.
#[tactic(auto, unfolding(crate::specs::Resolving::flat_of))]
fn flat_of(
    alloc: Global,
    files: &Files,
    mention: &Mention,
    files_read: usize,
) -> Result<Flat, Unread>
    ensures { GivesWanted result (flat_of files.now mention.now files_read) }
{
    let (number, text) = text_of(alloc, files, mention, files_read)?;
    let mut flat = Flat::new(alloc, files_read);
    match flat.read(alloc, files, INCLUDE_LIMIT, number, text) {
        Ok(()) => Ok(flat),
        Err(stop) => Err(unread_of(alloc, files, &flat.macros, Stop::from(stop))),
    }
}

/// What a file has whose tokens are these, for the rulesets from this path on.
fn parsed(
    alloc: Global,
    files: &Files,
    interfaces: &[Interface],
    mode: Mode,
    path: &Path,
    flat: &Flat,
) -> Result<Parsed, Unread>
    ensures { GivesWanted result (telling files.now flat.now.macros (parsed_with interfaces.now flat.now.tokens mode (is_main path.now))) }
{
    let (tokens, is_main) = (flat.tokens.as_slice(), path.as_bytes().is_empty());
    match parse_with(alloc, interfaces, tokens, mode, is_main) {
        Ok(parsed) => Ok(parsed),
        Err(stop) => Err(unread_of(alloc, files, &flat.macros, stop)),
    }
}

impl Found {
    /// Adds what is noted of a file.
    fn add_notes(
        &mut self,
        alloc: Global,
        files: &Files,
        macros: &Macros,
        remarks: Items<At<Remark>>,
    ) -> Result<(), AllocError>
        ensures { OnOk result (self.new ≡ with_notes files.now macros.now remarks self.old) }
    {
        for remark in remarks.into_items() {
            self.notes.push(note_of(alloc, files, macros, remark)?)?;
        }
        Ok(())
    }

    /// Adds the loads of a file with this path to those that are still to be read.
    fn add_loads(
        &mut self,
        alloc: Global,
        files: &Files,
        macros: &Macros,
        path: &Path,
        loads: &[Load],
    ) -> Result<(), AllocError>
        ensures { OnOk result (self.new ≡ with_loads files.now macros.now path.now loads.now self.old) }
    {
        for load in loads {
            let waiting = waiting_of(alloc, files, macros, path, load)?;
            self.waiting.push(waiting)?;
        }
        Ok(())
    }

    /// Adds the rulesets and tables of a file with this path, and its loads.
    #[tactic(auto, unfolding(crate::specs::Resolving::with_tree))]
    fn add_tree(
        &mut self,
        alloc: Global,
        files: &Files,
        macros: &Macros,
        path: &Path,
        tree: &Tree,
    ) -> Result<(), Stop>
        ensures { Leaves result self.new (with_tree files.now macros.now path.now tree.now self.old) }
    {
        self.add_rulesets(alloc, path, tree)?;
        self.add_tables(alloc, files, path, tree.tables.as_slice())?;
        self.add_loads(alloc, files, macros, path, tree.loads.as_slice())?;
        Ok(())
    }

    /// The same, where a user is told of a stop.
    fn add_or_unread(
        &mut self,
        alloc: Global,
        files: &Files,
        macros: &Macros,
        path: &Path,
        tree: &Tree,
    ) -> Result<(), Unread>
        ensures { LeavesWanted result self.new (telling files.now macros.now (with_tree files.now macros.now path.now tree.now self.old)) }
    {
        match self.add_tree(alloc, files, macros, path, tree) {
            Ok(()) => Ok(()),
            Err(stop) => Err(unread_of(alloc, files, macros, stop)),
        }
    }

    /// Checks that the commit has room for the ruleset that is mentioned at this spot.
    fn check_room(&self, alloc: Global, at: &Spot) -> Result<(), Unread>
        ensures { LeavesWanted result self.now (room_for at.now self.now) }
    {
        if self.is_full() {
            return Err(unread_at(alloc, at, Mistake::ManyRulesets));
        }
        Ok(())
    }

    /// Adds what the tokens of a file stand for, whose rulesets are mentioned at this spot.
    #[tactic(auto, unfolding(crate::specs::Resolving::with_flat))]
    fn add_flat(
        &mut self,
        alloc: Global,
        files: &Files,
        interfaces: &[Interface],
        mode: Mode,
        path: &Path,
        at: &Spot,
        flat: &Flat,
    ) -> Result<(), Unread>
        ensures { LeavesWanted result self.new (with_flat files.now interfaces.now mode path.now at.now flat.now self.old) }
    {
        let Parsed { tree, notes } = parsed(alloc, files, interfaces, mode, path, flat)?;
        self.add_notes(alloc, files, &flat.macros, notes)?;
        self.check_room(alloc, at)?;
        self.add_or_unread(alloc, files, &flat.macros, path, &tree)
    }

    /// Checks that a path, which is mentioned at this spot, has no rules yet.
    fn check_free(&self, alloc: Global, path: &Path, at: &Spot) -> Result<(), Unread>
        ensures { LeavesWanted result self.now (free_for path.now at.now self.now) }
    {
        if self.has_rules(path) {
            let path = Items::copied(alloc, path_text(path))?;
            return Err(unread_at(alloc, at, Mistake::RulesTwice(path)));
        }
        Ok(())
    }

    /// Adds a file and what it includes, for the rulesets from this path on.
    #[tactic(auto, unfolding(crate::specs::Resolving::with_file))]
    fn add_file(
        &mut self,
        alloc: Global,
        files: &Files,
        interfaces: &[Interface],
        mode: Mode,
        path: &Path,
        mention: &Mention,
    ) -> Result<(), Unread>
        ensures { LeavesWanted result self.new (with_file files.now interfaces.now mode path.now mention.now self.old) }
    {
        self.check_free(alloc, path, &mention.at)?;
        let flat = flat_of(alloc, files, mention, self.files_read)?;
        self.files_read = flat.files_read;
        self.add_flat(alloc, files, interfaces, mode, path, &mention.at, &flat)
    }

    /// Adds the file that is mentioned, if its path isn't too long.
    fn add_load(
        &mut self,
        alloc: Global,
        files: &Files,
        interfaces: &[Interface],
        mode: Mode,
        path: Option<Path>,
        mention: &Mention,
    ) -> Result<(), Unread>
        ensures { LeavesWanted result self.new (with_load files.now interfaces.now mode mention.now path self.old) }
    {
        match path {
            Some(path) => self.add_file(alloc, files, interfaces, mode, &path, mention),
            None => Err(unread_at(alloc, &mention.at, Mistake::LongPath)),
        }
    }

    /// Adds the load of this number, if there are so many.
    fn add_load_numbered(
        &mut self,
        alloc: Global,
        files: &Files,
        interfaces: &[Interface],
        mode: Mode,
        number: usize,
    ) -> Result<(), Unread>
        ensures { LeavesWanted result self.new (load_numbered files.now interfaces.now mode number self.old) }
    {
        match self.load_numbered(alloc, number)? {
            Some(Waiting { path, mention }) => self.add_load(
                alloc, files, interfaces, mode, path, &mention,
            ),
            None => Ok(()),
        }
    }

    /// Adds all loads, in the order of their mention. Each takes one of the readings, so that there are no more.
    fn add_all_loads(
        &mut self,
        alloc: Global,
        files: &Files,
        interfaces: &[Interface],
        mode: Mode,
    ) -> Result<(), Unread>
        ensures { LeavesWanted result self.new (loads_from files.now interfaces.now mode 0 READING_LIMIT self.old) }
    {
        for number in 0..READING_LIMIT {
            self.add_load_numbered(alloc, files, interfaces, mode, number)?;
        }
        Ok(())
    }

    /// How many bytes the commit's line has that name rulesets; or the greatest number if it has more.
    fn rulesets_length(&self) -> usize
        ensures { result ≡ min (sum_by (λ (r : Ruleset). part_length (codes " filter ") r.path) self.now.rulesets) (2 ^ 64 - 1) }
    {
        let mut length: usize = 0;
        for ruleset in self.rulesets.as_slice() {
            length = length.saturating_add(part_length(b" filter ", &ruleset.path));
        }
        length
    }

    /// The same of those that name paths of tables.
    fn tables_length(&self) -> usize
        ensures { result ≡ min (sum_by (part_length (codes " table ")) self.now.table_paths) (2 ^ 64 - 1) }
    {
        let mut length: usize = 0;
        for path in self.table_paths.as_slice() {
            length = length.saturating_add(part_length(b" table ", path));
        }
        length
    }

    /// How many bytes the commit's line has; or the greatest number if it has more.
    fn commit_length(&self) -> usize
        ensures { result ≡ min (commit_length self.now) (2 ^ 64 - 1) }
    {
        let words = "commit".len().saturating_add(self.rulesets_length());
        words.saturating_add(self.tables_length())
    }

    /// What was found, if the commit's line isn't too long. A fault is at this spot.
    fn committed(self, alloc: Global, at: &Spot) -> Result<Conf, Unread>
        ensures { GivesWanted result (committed at.now self) }
    {
        if self.commit_length() > LINE_LIMIT {
            return Err(unread_at(alloc, at, Mistake::LongCommit));
        }
        let Found {
            rulesets,
            tables,
            notes,
            ..
        } = self;
        Ok(Conf {
            rulesets,
            tables,
            notes,
        })
    }
}

/// How many bytes a part of the commit's line has that names a path, with the longest ticket.
fn part_length(word: &[u8], path: &Path) -> usize
    ensures { result ≡ min (part_length word.now path.now) (2 ^ 64 - 1) }
{
    word.len()
        .saturating_add(path_text(path).len())
        .saturating_add(1 + TICKET_BYTES)
}

/// The file that is read first, as it is named.
fn main_file(alloc: Global, name: &[u8]) -> Result<Mention, AllocError>
    ensures { IfOk result (λ m. m ≡ main_file name.now) }
{
    Ok(Mention {
        at: Spot::first(alloc, name)?,
        named: Spot::first(alloc, name)?,
        name: Items::copied(alloc, name)?,
    })
}

/// What a file means that is read for the rulesets from this path on, with what it includes and loads. Where it names one of these
/// interfaces as a host, that stands for its addresses; each that it names otherwise is refused.
///
/// `Unread::Faulty`: the first fault, where a user finds it; `Unread::Needs`: the name of a file that isn't given, so that whoever reads
/// files can ask again with it; `Unread::Memory`: out of memory.
#[tactic(auto, unfolding(crate::specs::Resolving::resolved))]
pub fn resolve(
    alloc: Global,
    files: &Files,
    interfaces: &[Interface],
    mode: Mode,
    base: &Path,
    name: &[u8],
) -> Result<Conf, Unread>
    ensures { GivesWanted result (resolved files.now interfaces.now mode base.now name.now) }
{
    let file = main_file(alloc, name)?;
    let mut found = Found::new(alloc);
    found.add_file(alloc, files, interfaces, mode, base, &file)?;
    found.add_all_loads(alloc, files, interfaces, mode)?;
    found.committed(alloc, &file.at)
}
