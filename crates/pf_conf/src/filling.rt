//! The tables of a file that are filled.
ghost use Rattle.std.specs.Prelude.{◌≡◌, ◌≤◌, [], length, IfOk, OnOk};
ghost use Rattle.pf_sources.specs.Steps.{each, Leaves};
ghost use Rattle.pf_conf.specs.Filling.{with_table_path, with_filled, with_table, with_sources, once_after, with_tables};

use crate::found::{FilledTable, Found};
use pf_addr::path::Path;
use pf_parse::{Mistake, Stop, Table as TableLine, refusal};
use pf_sources::{filled, gather};
use pf_table::Table;
use pf_tokens::{Files, Items, Place};
use std::alloc::{AllocError, Global};
use std::collections::BTreeSet;

/// How many tables come before the first whose name one before it has.
fn defined_once(alloc: Global, tables: &[TableLine]) -> Result<usize, AllocError>
    ensures once { IfOk result (λ n. n ≡ once_after [] tables.now) }
    ensures within { IfOk result (λ n. n ≤ length tables.now) }
{
    let mut names = BTreeSet::new(alloc);
    for (number, line) in tables.iter().enumerate() {
        if !names.insert(line.name.as_slice())? {
            return Ok(number);
        }
    }
    Ok(tables.len())
}

impl Found {
    /// Keeps in mind that a path has tables. A fault is at this place.
    fn add_table_path(&mut self, path: &Path, place: Place) -> Result<(), Stop>
        ensures { Leaves result self.new (with_table_path path.now place self.old) }
    {
        if self.has_tables(path) {
            return Ok(());
        }
        if self.is_full() {
            return Err(refusal(place, Mistake::ManyRulesets));
        }
        self.table_paths.push(path.copied())?;
        Ok(())
    }

    /// Adds a table with these entries, behind so many files that were read.
    fn keep_table(
        &mut self,
        alloc: Global,
        path: &Path,
        line: &TableLine,
        table: Table,
        files_read: usize,
    ) -> Result<(), AllocError>
        ensures { OnOk result (self.new ≡ with_filled path.now line.now.name table files_read self.old) }
    {
        let (path, name) = (path.copied(), Items::copied(alloc, line.name.as_slice())?);
        self.tables.push(FilledTable { path, name, table })?;
        self.files_read = files_read;
        Ok(())
    }

    /// Adds a table that is filled.
    #[tactic(auto, unfolding(crate::specs::Filling::with_table))]
    fn add_table(
        &mut self,
        alloc: Global,
        files: &Files,
        path: &Path,
        line: &TableLine,
    ) -> Result<(), Stop>
        ensures { Leaves result self.new (with_table files.now path.now line.now self.old) }
    {
        let gathered = gather(
            alloc,
            files,
            line.place,
            line.sources.as_slice(),
            self.files_read,
        )?;
        let table = filled(alloc, line.place, gathered.entries.as_slice())?;
        self.add_table_path(path, line.place)?;
        self.keep_table(alloc, path, line, table, gathered.files_read)?;
        Ok(())
    }

    /// Adds a table, if a list or a file fills it.
    fn add_sources(
        &mut self,
        alloc: Global,
        files: &Files,
        path: &Path,
        line: &TableLine,
    ) -> Result<(), Stop>
        ensures { Leaves result self.new (with_sources files.now path.now line.now self.old) }
    {
        if line.sources.len() == 0 {
            return Ok(());
        }
        self.add_table(alloc, files, path, line)
    }

    /// Adds tables with names of their own.
    fn add_each_table(
        &mut self,
        alloc: Global,
        files: &Files,
        path: &Path,
        tables: &[TableLine],
    ) -> Result<(), Stop>
        ensures { Leaves result self.new (each (with_sources files.now path.now) tables.now self.old) }
    {
        for line in tables {
            self.add_sources(alloc, files, path, line)?;
        }
        Ok(())
    }

    /// Adds the tables of a file.
    pub(crate) fn add_tables(
        &mut self,
        alloc: Global,
        files: &Files,
        path: &Path,
        tables: &[TableLine],
    ) -> Result<(), Stop>
        ensures { Leaves result self.new (with_tables files.now path.now tables.now self.old) }
    {
        let once = defined_once(alloc, tables)?;
        self.add_each_table(alloc, files, path, &tables[..once])?;
        let Some(again) = tables.get(once) else {
            return Ok(());
        };
        let name = Items::copied(alloc, again.name.as_slice())?;
        Err(refusal(again.place, Mistake::TableTwice(name)))
    }
}
