//! What is kept.
ghost use Rattle.std.specs.{Prelude.{◌≡◌, ◌==◌, ◌++◌, ◌<◌, ◌^◌, ℕ, [], T, not, true, map, length, None, Err, IfOk, OnOk}, FinMap.is_sorted};
ghost use Rattle.std.specs.{List.list_all, Arc.arc_value};
ghost use Rattle.pf_addr.specs.{Refusing.{refused_at, OrMemory, Meets}, Path.Names.name_order};
ghost use Rattle.pf_anchor.specs.Configurations.{with_rulesets};
ghost use Rattle.pf_table.specs.{Edits.{added, additions, deleted, deletions, replaced}, Tables.deciding};
ghost use Rattle.pf_state.specs.{Layouts.States.has_expiry, States.all_stand, Steps.{after, counts, without_state, without_due, due_count}};
ghost use Rattle.pf_ticket.specs.Replies.{twice_after};
ghost use Rattle.pf_core.specs.declared.durable.refusal.ChangeRefusal.TheVariants.{Twice, BadTick, Memory};
ghost use Rattle.pf_core.specs.Durable.Forms.{allows, durable_length};
ghost use Rattle.pf_core.specs.Durable.Changes.{is_in_order, name_of, kept_nothing, commits, adds, deletes, sets, acts, expires};
ghost use Rattle.pf_core.specs.Durable.Changes.{rulesets_in, replaces_main, placed, tables_in, entries_at, sum_of, main_sum, with_entries};
ghost use Rattle.pf_core.specs.Durable.Changes.{with_states, at_tick, in_epoch, room_for_table, fits, applied, changed, verdict};

use crate::durable::change::{Change, ChangeKind, Item, names_of};
use crate::durable::refusal::ChangeRefusal;
use crate::durable::verdict::Verdict;
use pf_addr::Addr;
use pf_addr::path::TableName;
use pf_anchor::{Config, Path, Placed, PlacedTable};
use pf_rule::Packet;
use pf_rule::sum::ruleset_sum;
use pf_state::layouts::{EXPIRY_FROM, states_length};
use pf_state::{Counts, StateName, StateStep, StateTable, any_inserts_due};
use pf_table::{Addition, Deletion, Entry, Table};
use pf_ticket::{Defined, named_twice};
use std::alloc::{AllocError, Global};
use std::marker::Model;
use std::sync::Arc;

/// What is kept: the epoch of the opening, the tick, the active rulesets and tables, and the states, none of which is due. Contracts see it
/// as a `PlainDurable`.
#[derive(Drop)]
pub struct Durable {
    epoch: u32,
    tick: u64,
    config: Arc<Config>,
    states: Arc<StateTable>,
    // the checksum of the main rules, kept so that it isn't computed for each message of a peer
    sum: [u8; 16],
}

impl Model for Durable {
    ghost use Rattle.std.specs.Prelude.{◌≡◌, true};
    ghost use Rattle.std.specs.Arc.{arc_value};
    ghost use Rattle.pf_state.specs.States.{all_stand};
    ghost use Rattle.pf_core.specs.Durable.Changes.{PlainDurable, sum_of};

    ghost Value = { PlainDurable };

    ghost view = { λ d. record { epoch = d.epoch; tick = d.tick; config = arc_value d.config; states = arc_value d.states } };

    ghost invariant = { λ d. (d.sum ≡ sum_of (arc_value d.config)) × (all_stand d.tick (arc_value d.states) ≡ true) };
}

// Whether the main ruleset is among these.
fn replaces_main(rulesets: &[Placed]) -> bool
    ensures { result ≡ replaces_main rulesets.now }
{
    rulesets
        .iter()
        .any(|placed| placed.key().same(&Path::main()))
}

// A value that can have several owners.
fn shared<T: Drop>(alloc: Global, value: T) -> Result<Arc<T>, AllocError>
    ensures { IfOk result (λ a. arc_value a ≡ value) }
{
    Arc::new(alloc, value).map_err(|_| AllocError)
}

// The rulesets that are replaced, shared.
fn rulesets_in(alloc: Global, items: &[Item]) -> Result<Vec<Placed>, AllocError>
    ensures { IfOk result (λ v. v.items ≡ rulesets_in items.now) }
{
    let mut rulesets = Vec::new(alloc);
    for item in items {
        if let Item::Rules(placed) = item {
            rulesets.push(placed.shared()?)?;
        }
    }
    Ok(rulesets)
}

// Refuses a commit that names a ruleset twice.
fn check_names(alloc: Global, items: &[Item]) -> Result<(), ChangeRefusal>
    ensures { OrMemory Memory result (refused_at (λ i. Twice i) (twice_after [] (map name_of items.now))) }
{
    match named_twice(names_of(alloc, items)?.as_slice()) {
        Some(at) => Err(ChangeRefusal::Twice { at }),
        None => Ok(()),
    }
}

// Appends the tables at a path, shared.
fn push_placed(
    alloc: Global,
    found: &mut Vec<PlacedTable>,
    path: &Path,
    tables: &Defined,
) -> Result<(), AllocError>
    ensures found { OnOk result (found.new.items ≡ found.old.items ++ placed path.now tables.now) }
    ensures order { T (is_sorted name_order tables.now) }
{
    for named in tables.entries() {
        let table = named.table().shared()?;
        found.push(PlacedTable::new(alloc, (path.copied(), *named.name()), table)?)?;
    }
    Ok(())
}

// The tables that are replaced, shared. No item names one twice: defined tables are in the order of their names.
fn tables_in(alloc: Global, items: &[Item]) -> Result<Vec<PlacedTable>, AllocError>
    ensures value { IfOk result (λ v. v.items ≡ tables_in items.now) }
    ensures order { IfOk result (λ v. list_all is_in_order items.now ≡ true) }
{
    let mut found = Vec::new(alloc);
    for item in items {
        if let Item::Tables { path, tables } = item {
            push_placed(alloc, &mut found, path, tables)?;
        }
    }
    Ok(found)
}

impl Durable {
    /// No rulesets, no tables and no states, at tick 0, in the opening with this epoch. `AllocError`: nothing is made.
    pub fn empty(alloc: Global, epoch: u32) -> Result<Durable, AllocError>
        ensures { IfOk result (λ d. d ≡ kept_nothing epoch) }
    {
        Durable::of(alloc, epoch, 0, Config::empty(), StateTable::empty())
    }

    /// These rulesets and tables, and these states, at this tick. `opening` is the epoch of the opening. No state may be due at the tick.
    /// `AllocError`: nothing is made.
    pub fn of(
        alloc: Global,
        opening: u32,
        tick: u64,
        config: Config,
        states: StateTable,
    ) -> Result<Durable, AllocError>
        requires { all_stand tick states ≡ true }
        ensures { IfOk result (λ d. d ≡ record { epoch = opening; tick = tick; config = config; states = states }) }
    {
        let sum = ruleset_sum(config.rules_at(&Path::main())?.as_slice());
        let config = shared(alloc, config)?;
        Ok(Durable::whole(opening, tick, config, shared(alloc, states)?, sum))
    }

    // All that is kept, and the checksum of its main rules. It is made here alone.
    fn whole(
        opening: u32,
        tick: u64,
        config: Arc<Config>,
        states: Arc<StateTable>,
        sum: [u8; 16],
    ) -> Durable
        requires sum { sum ≡ sum_of (arc_value config) }
        requires standing { all_stand tick (arc_value states) ≡ true }
        ensures { result ≡ record { epoch = opening; tick = tick; config = arc_value config; states = arc_value states } }
    {
        Durable {
            epoch: opening,
            tick,
            config,
            states,
            sum,
        }
    }

    // This once more, all of it shared. `AllocError`: nothing is made.
    fn shared_all(&self) -> Result<Durable, AllocError>
        ensures { IfOk result (λ d. d ≡ self.now) }
    {
        let config = Arc::try_clone(&self.config)?;
        let states = Arc::try_clone(&self.states)?;
        Ok(Durable::whole(self.epoch, self.tick, config, states, self.sum))
    }

    /// The epoch of the opening.
    pub fn epoch(&self) -> u32
        ensures { result ≡ self.now.epoch }
    {
        self.epoch
    }

    /// The tick: 0 at first, and a number without a unit, since what a tick lasts is its users' choice. It never goes back.
    pub fn tick(&self) -> u64
        ensures { result ≡ self.now.tick }
    {
        self.tick
    }

    /// The active rulesets and tables.
    pub fn config(&self) -> &Config
        ensures { result.now ≡ self.now.config }
    {
        &self.config
    }

    /// The states.
    pub fn states(&self) -> &StateTable
        ensures states { result.now ≡ self.now.states }
        // what is kept at any time
        ensures standing { all_stand self.now.tick self.now.states ≡ true }
    {
        &self.states
    }

    /// The checksum of the main rules: MD5, 16 bytes. It takes no memory.
    pub fn sum(&self) -> [u8; 16]
        ensures { result ≡ main_sum self.now }
    {
        self.sum
    }

    /// How many bytes its snapshot has, in each version with expiries. It looks at no rule, entry or state, and takes no memory.
    pub fn byte_length(&self) -> u128
        ensures exact { (version : ℕ) → has_expiry version ≡ true → result ≡ durable_length version self.now }
        ensures light { result < 2 ^ 99 }
    {
        12 + self.config.byte_length() + states_length(&self.states) as u128
    }

    /// Whether a version allows it: one before labels allows no rule that has one, and one before expiries no tick but 0 and no state with
    /// an expiry. It looks at no rule and at no state, and takes no memory.
    pub fn is_allowed_in(&self, version: u8) -> bool
        ensures { result ≡ allows version self.now }
    {
        let ticks = version >= EXPIRY_FROM || self.tick == 0;
        self.config().is_allowed_in(version) && ticks && self.states().is_allowed_in(version)
    }

    /// What happens to a packet: the state of its flow passes it, if its expiry is 0 or greater than the tick; without one the rule decides
    /// that the evaluation of the main ruleset finds, there or in an anchor, else the packet passes. It takes no memory.
    pub fn verdict(&self, packet: &Packet) -> Verdict
        ensures { result ≡ verdict self.now packet.now }
    {
        match self.states().find(packet) {
            // the expiry stands in the state that was found, so this looks nothing up
            Some(state) if state.value().stands(self.tick) => Verdict::State(*state.key()),
            _ => Verdict::Rules(self.config().judge(packet)),
        }
    }

    /// The entry that decides on an address, of the table at exactly this path and name. It takes no memory.
    #[tactic(auto, unfolding(pf_table::specs::Tables::deciding))]
    pub fn lookup(&self, path: &Path, name: &TableName, address: Addr) -> Option<Entry>
        ensures { result ≡ deciding (entries_at self.now path.now name.now) address }
    {
        self.config().table_at(path, name)?.lookup(address)
    }

    // The table at a path and name, shared; an empty one if there is none.
    fn table(&self, path: &Path, name: &TableName) -> Result<Table, AllocError>
        ensures { IfOk result (λ t. t ≡ entries_at self.now path.now name.now) }
    {
        match self.config().table_at(path, name) {
            Some(table) => table.shared(),
            None => Ok(Table::empty()),
        }
    }

    /// Whether there is a table at a path and name.
    pub fn has_table(&self, path: &Path, name: &TableName) -> bool
        ensures { result ≡ not (length (entries_at self.now path.now name.now) == 0) }
    {
        self.config().table_at(path, name).is_some()
    }

    // Refuses a table that would be one too many.
    fn check_room(
        &self,
        alloc: Global,
        path: &Path,
        name: &TableName,
        new: &Table,
    ) -> Result<(), ChangeRefusal>
        ensures { OrMemory Memory result (room_for_table self.now path.now name.now new.now) }
    {
        if self.has_table(path, name) || new.is_empty() {
            return Ok(());
        }
        let tables = [PlacedTable::new(alloc, (path.copied(), *name), new.shared()?)?];
        if self.config().would_be_too_many_tables(alloc, &tables)? {
            return Err(ChangeRefusal::TooManyTables);
        }
        Ok(())
    }

    /// The table after entries are added to it, and what became of each. The refusal is the first that holds of `Conflict`, `TableFull` and
    /// `TooManyTables`; `Memory` may come before.
    pub fn with_added(
        &self,
        alloc: Global,
        path: &Path,
        name: &TableName,
        entries: &[Entry],
    ) -> Result<(Table, Vec<Addition>), ChangeRefusal>
        ensures fits { Meets Memory result (fits self.now (adds path.now name.now entries.now)) }
        ensures table { IfOk result (λ r. r.0 ≡ added (entries_at self.now path.now name.now) entries.now) }
        ensures answers { IfOk result (λ r. r.1.items ≡ additions (entries_at self.now path.now name.now) entries.now) }
    {
        let mut table = self.table(path, name)?;
        let additions = table.add(alloc, entries)?;
        self.check_room(alloc, path, name, &table)?;
        Ok((table, additions))
    }

    /// The table after entries are deleted from it, and what became of each. The refusals are `Conflict` and `Memory`.
    pub fn with_deleted(
        &self,
        alloc: Global,
        path: &Path,
        name: &TableName,
        entries: &[Entry],
    ) -> Result<(Table, Vec<Deletion>), ChangeRefusal>
        ensures fits { Meets Memory result (fits self.now (deletes path.now name.now entries.now)) }
        ensures table { IfOk result (λ r. r.0 ≡ deleted (entries_at self.now path.now name.now) entries.now) }
        ensures answers { IfOk result (λ r. r.1.items ≡ deletions (entries_at self.now path.now name.now) entries.now) }
    {
        let mut table = self.table(path, name)?;
        let deletions = table.delete(alloc, entries)?;
        Ok((table, deletions))
    }

    /// The table that these entries make, in place of the one that is there. The refusal is the first that holds of `Conflict`, `TableFull`
    /// and `TooManyTables`; `Memory` may come before.
    pub fn with_set(
        &self,
        alloc: Global,
        path: &Path,
        name: &TableName,
        entries: &[Entry],
    ) -> Result<Table, ChangeRefusal>
        ensures fits { Meets Memory result (fits self.now (sets path.now name.now entries.now)) }
        ensures table { IfOk result (λ t. t ≡ replaced entries.now) }
    {
        let mut table = Table::empty();
        table.replace(alloc, entries)?;
        self.check_room(alloc, path, name, &table)?;
        Ok(table)
    }

    /// Refuses a commit that names a ruleset or a table twice, or would leave more rulesets or tables than there may be. The refusal is the
    /// first that holds of `Twice`, `TooManyRulesets` and `TooManyTables`; `Memory` may come before.
    pub fn check_commit(&self, alloc: Global, items: &[Item]) -> Result<(), ChangeRefusal>
        ensures { OrMemory Memory result (fits self.now (commits items.now)) }
    {
        check_names(alloc, items)?;
        self.check_limits(alloc, items)
    }

    // The same of items that name no ruleset twice.
    pub(crate) fn check_limits(&self, alloc: Global, items: &[Item]) -> Result<(), ChangeRefusal>
        requires { twice_after [] (map name_of items.now) ≡ None }
        ensures { OrMemory Memory result (fits self.now (commits items.now)) }
    {
        let tables = tables_in(alloc, items)?;
        let rulesets = rulesets_in(alloc, items)?;
        let config = self.config();
        if config.would_be_too_many(alloc, rulesets.as_slice())? {
            return Err(ChangeRefusal::TooManyRulesets);
        }
        if config.would_be_too_many_tables(alloc, tables.as_slice())? {
            return Err(ChangeRefusal::TooManyTables);
        }
        Ok(())
    }

    // The checksum of the main rules after these rulesets were replaced. If the main one isn't among them, it stays, and no rule is looked
    // at.
    #[tactic(auto, using(crate::proofs::MainRules::stays))]
    fn sum_after(&self, rulesets: &[Placed], after: &Config) -> Result<[u8; 16], AllocError>
        requires { after.now ≡ with_rulesets self.now.config rulesets.now }
        ensures { IfOk result (λ s. s ≡ sum_of after.now) }
    {
        if !replaces_main(rulesets) {
            // borrowed, so that the invariant of the checksum is known here
            let _ = &self.config;
            return Ok(self.sum);
        }
        Ok(ruleset_sum(after.rules_at(&Path::main())?.as_slice()))
    }

    // What is kept after these items, which fit, were replaced.
    pub(crate) fn committed(&self, alloc: Global, items: &[Item]) -> Result<Durable, AllocError>
        ensures { IfOk result (λ d. d ≡ applied self.now (commits items.now)) }
    {
        let rulesets = rulesets_in(alloc, items)?;
        let tables = tables_in(alloc, items)?;
        let config = self.config().with_rulesets(alloc, rulesets.as_slice())?;
        Ok(Durable {
            sum: self.sum_after(rulesets.as_slice(), &config)?,
            config: shared(alloc, config.with_tables(alloc, tables.as_slice())?)?,
            ..self.shared_all()?
        })
    }

    // What is kept with this table in its place.
    pub(crate) fn with_table(
        &self,
        alloc: Global,
        path: &Path,
        name: &TableName,
        table: Table,
    ) -> Result<Durable, AllocError>
        ensures { IfOk result (λ d. d ≡ with_entries self.now path.now name.now table) }
    {
        let tables = [PlacedTable::new(alloc, (path.copied(), *name), table)?];
        Ok(Durable {
            config: shared(alloc, self.config().with_tables(alloc, &tables)?)?,
            ..self.shared_all()?
        })
    }

    // What is kept without this table.
    #[tactic(auto, unfolding(pf_table::specs::Edits::added))]
    pub(crate) fn without_table(
        &self,
        alloc: Global,
        path: &Path,
        name: &TableName,
    ) -> Result<Durable, AllocError>
        ensures { IfOk result (λ d. d ≡ applied self.now (sets path.now name.now [])) }
    {
        self.with_table(alloc, path, name, Table::empty())
    }

    /// The states after steps in turn, and what became of them. The refusal is the first that holds of `BadTick`, if a step inserts a state
    /// that is due, and `StatesFull`, if a step would leave too many; `Memory` may come before. What is kept stays as it is.
    #[tactic(auto, using(crate::proofs::Ticked::steps_stand))]
    pub fn with_stepped(
        &self,
        alloc: Global,
        steps: &[StateStep],
    ) -> Result<(StateTable, Counts), ChangeRefusal>
        ensures fits { Meets Memory result (fits self.now (acts steps.now)) }
        ensures states { IfOk result (λ r. r.0 ≡ after self.now.states steps.now) }
        ensures counts { IfOk result (λ r. r.1 ≡ counts self.now.states steps.now) }
        ensures standing { IfOk result (λ r. all_stand self.now.tick r.0 ≡ true) }
    {
        if any_inserts_due(steps, self.tick) {
            return Err(ChangeRefusal::BadTick);
        }
        Ok(self.states.after_batch(alloc, steps)?)
    }

    // The states without the one of this name.
    #[tactic(auto, using(crate::proofs::Ticked::removal_stands))]
    pub(crate) fn without_state(
        &self,
        alloc: Global,
        name: StateName,
    ) -> Result<StateTable, AllocError>
        ensures states { IfOk result (λ t. t ≡ without_state self.now.states name) }
        ensures standing { IfOk result (λ t. all_stand self.now.tick t ≡ true) }
    {
        let mut states = self.states.shared()?;
        states.remove(alloc, name)?;
        Ok(states)
    }

    // What is kept with these states in place of its own.
    pub(crate) fn with_states(
        &self,
        alloc: Global,
        states: StateTable,
    ) -> Result<Durable, AllocError>
        requires { all_stand self.now.tick states ≡ true }
        ensures { IfOk result (λ d. d ≡ with_states self.now states) }
    {
        Ok(Durable {
            states: shared(alloc, states)?,
            ..self.shared_all()?
        })
    }

    // What is kept at this tick, without the states that are due at it, and how many these are. The refusals are `BadTick`, exactly if the
    // tick would go back, and `Memory`.
    #[tactic(auto, using(crate::proofs::Ticked::tick_stands))]
    pub(crate) fn at_tick(
        &self,
        alloc: Global,
        tick: u64,
    ) -> Result<(Durable, usize), ChangeRefusal>
        ensures fits { Meets Memory result (fits self.now (expires tick)) }
        ensures back { tick < self.now.tick → result ≡ Err BadTick }
        ensures after { IfOk result (λ r. r.0 ≡ at_tick self.now tick) }
        ensures count { IfOk result (λ r. r.1 ≡ due_count self.now.states tick) }
    {
        if tick < self.tick {
            return Err(ChangeRefusal::BadTick);
        }
        let mut states = self.states.shared()?;
        let expired = states.expire(alloc, tick)?;
        let left = Durable {
            tick,
            states: shared(alloc, states)?,
            ..self.shared_all()?
        };
        Ok((left, expired))
    }

    /// The same in another opening, all of it shared. `AllocError`: nothing is made.
    pub fn in_epoch(&self, next: u32) -> Result<Durable, AllocError>
        ensures { IfOk result (λ d. d ≡ in_epoch next self.now) }
    {
        Ok(Durable {
            epoch: next,
            ..self.shared_all()?
        })
    }

    // What is kept after a commit of these items.
    fn commit(&self, alloc: Global, items: &[Item]) -> Result<Durable, ChangeRefusal>
        ensures { OrMemory Memory result (changed self.now (commits items.now)) }
    {
        self.check_commit(alloc, items)?;
        Ok(self.committed(alloc, items)?)
    }

    // What is kept after these entries are added to a table.
    fn add(
        &self,
        alloc: Global,
        path: &Path,
        name: &TableName,
        entries: &[Entry],
    ) -> Result<Durable, ChangeRefusal>
        ensures { OrMemory Memory result (changed self.now (adds path.now name.now entries.now)) }
    {
        let (table, _) = self.with_added(alloc, path, name, entries)?;
        Ok(self.with_table(alloc, path, name, table)?)
    }

    // What is kept after these entries are deleted from a table.
    fn delete(
        &self,
        alloc: Global,
        path: &Path,
        name: &TableName,
        entries: &[Entry],
    ) -> Result<Durable, ChangeRefusal>
        ensures { OrMemory Memory result (changed self.now (deletes path.now name.now entries.now)) }
    {
        let (table, _) = self.with_deleted(alloc, path, name, entries)?;
        Ok(self.with_table(alloc, path, name, table)?)
    }

    // What is kept with these entries in place of a table's own.
    fn set(
        &self,
        alloc: Global,
        path: &Path,
        name: &TableName,
        entries: &[Entry],
    ) -> Result<Durable, ChangeRefusal>
        ensures { OrMemory Memory result (changed self.now (sets path.now name.now entries.now)) }
    {
        let table = self.with_set(alloc, path, name, entries)?;
        Ok(self.with_table(alloc, path, name, table)?)
    }

    // What is kept after these steps on states.
    fn act(&self, alloc: Global, steps: &[StateStep]) -> Result<Durable, ChangeRefusal>
        ensures { OrMemory Memory result (changed self.now (acts steps.now)) }
    {
        let (states, _) = self.with_stepped(alloc, steps)?;
        Ok(self.with_states(alloc, states)?)
    }

    /// What is kept after a change. Rulesets and tables that stay are shared, and no rule is copied; if a change isn't of states and
    /// is no tick, these are shared too.
    ///
    /// The refusal is the first of these that holds: `Twice` for a commit that names a ruleset or a table twice; `Conflict` for a list that
    /// names a network with both signs; `BadTick` for a step that inserts a state that is due, and for a tick below the present one;
    /// `TableFull`; `TooManyRulesets`, `TooManyTables`; `StatesFull`. A change that a command wants of this state is never refused for
    /// these. Out of memory, nothing is made.
    pub fn apply(&self, alloc: Global, change: &Change) -> Result<Durable, ChangeRefusal>
        ensures { OrMemory Memory result (changed self.now change.now) }
    {
        match &change.kind {
            ChangeKind::Commit(items) => self.commit(alloc, items.as_slice()),
            ChangeKind::Add {
                path,
                name,
                entries,
            } => self.add(alloc, path, name, entries.as_slice()),
            ChangeKind::Delete {
                path,
                name,
                entries,
            } => self.delete(alloc, path, name, entries.as_slice()),
            ChangeKind::Set {
                path,
                name,
                entries,
            } => self.set(alloc, path, name, entries.as_slice()),
            ChangeKind::States(steps) => self.act(alloc, steps.as_slice()),
            ChangeKind::Remove(name) => {
                let states = self.without_state(alloc, *name)?;
                Ok(self.with_states(alloc, states)?)
            }
            ChangeKind::Expire(tick) => {
                let (left, _) = self.at_tick(alloc, *tick)?;
                Ok(left)
            }
        }
    }
}
