//! Snapshots.
ghost use Rattle.std.specs.Prelude.{◌≡◌, ◌==◌, ◌||◌, ℕ, true, false, List, length, map, IfOk, IfErr, OnOk};
ghost use Rattle.pf_form.specs.{Bytes.Forms.{onto, Fits}, Bytes.Readers.Reads};
ghost use Rattle.pf_state.specs.{Layouts.States.{has_expiry, plain_states}, States.all_stand};
ghost use Rattle.pf_core.specs.Durable.Changes.{PlainDurable};
ghost use Rattle.pf_anchor.specs.Forms.{configured, plain_ruled, plain_tabled};
ghost use Rattle.pf_core.specs.Durable.Forms.{allows, durable_length, tick_form, durable_form, plain_durable};
ghost use Rattle.pf_store.specs.{Durables.{durable_has_form, durable_has_form_in, IsDurable}, Lengths.snapshot_length, Snapshots.{has_least, kept_form, AreInOrder, EndsInSnapshot, KeptShape}};

use crate::encoding::{GroupFault, unread};
use crate::limits::EMPTY_LENGTH;
use crate::snapshots::facts::durable_is_its_data;
use crate::snapshots::rulesets::{push_rulesets, read_rulesets};
use crate::snapshots::tables::{push_tables, read_tables};
use pf_anchor::{Config, Placed, PlacedTable, RULESET_LIMIT, TABLE_COUNT_LIMIT};
use pf_core::Durable;
use pf_form::bytes::{
    Fault, Layout, Rest, Undecoded, decode, push_u32, push_u64, read_u32, read_u64,
};
use pf_state::StateTable;
use pf_state::layouts::{EXPIRY_FROM, push_states, read_states};
use std::alloc::{AllocError, Global};

// What a snapshot keeps.
#[derive(Drop)]
struct Snapshot {
    durable: Durable,
}

impl Layout for Snapshot {
    ghost use Rattle.std.specs.Prelude.{true};
    ghost use Rattle.pf_core.specs.Durable.Forms.{DurableShape, durable_form, plain_durable};

    ghost shape = { DurableShape };

    ghost form = { durable_form };

    ghost plain = { λ row. plain_durable row.durable };

    ghost before = { λ a b. true };

    #[tactic(auto, unfolding(pf_core::specs::Durable::Forms::durable_form))]
    fn read<'a>(alloc: Global, version: u8, from: &mut Rest<'a>) -> Result<Snapshot, Undecoded> {
        let left = from.len();
        let epoch = read_u32(from)?;
        let tick = read_tick(version, from)?;
        let kept = read_kept(alloc, version, from)?;
        if !kept.states.all_stand(tick) {
            return Err(Undecoded::Fault(Fault::Bad(left)));
        }
        let durable = durable_of(alloc, epoch, tick, kept)?;
        Ok(Snapshot { durable })
    }

    #[tactic(auto, using(crate::proofs::Durables::durable_formed, crate::proofs::Allowing::snapshot_allowed))]
    fn write(&self, version: u8, out: &mut Vec<u8>) -> Result<(), AllocError> {
        durable_is_its_data(&self.durable);
        push_durable(out, version, &self.durable)
    }
}

// What a snapshot has behind its tick.
#[derive(Drop)]
struct StoredKept {
    rulesets: Vec<Placed>,
    tables: Vec<PlacedTable>,
    states: StateTable,
}

// Reads what is behind the tick.
fn read_kept<'a>(alloc: Global, version: u8, from: &mut Rest<'a>) -> Result<StoredKept, Undecoded>
    ensures read { Reads {a = KeptShape} (λ k. (map plain_ruled k.rulesets.items, (map plain_tabled k.tables.items, plain_states k.states)))
        (kept_form version) result from.old.now from.new.now }
    ensures in_order { IfOk result (λ k. AreInOrder k.rulesets.items k.tables.items) }
{
    let rulesets = read_rulesets(alloc, version, from)?;
    let tables = read_tables(alloc, version, from)?;
    let states = read_states(alloc, version, from)?;
    Ok(StoredKept {
        rulesets,
        tables,
        states,
    })
}

// What is kept in this opening, at this tick.
fn durable_of(
    alloc: Global,
    opening: u32,
    tick: u64,
    kept: StoredKept,
) -> Result<Durable, AllocError>
    requires in_order { AreInOrder kept.rulesets.items kept.tables.items }
    requires standing { all_stand tick kept.states ≡ true }
    ensures { IfOk result (λ d. d ≡ record
        { epoch = opening; tick = tick; config = configured kept.rulesets.items kept.tables.items; states = kept.states }) }
{
    let config = config_of(alloc, &kept.rulesets, &kept.tables)?;
    Durable::of(alloc, opening, tick, config, kept.states)
}

// A tick; none, for 0, in a version without expiries.
#[tactic(auto, unfolding(pf_core::specs::Durable::Forms::tick_form))]
fn read_tick<'a>(version: u8, from: &mut Rest<'a>) -> Result<u64, Undecoded>
    ensures { Reads (λ n. n) (tick_form (has_expiry version)) result from.old.now from.new.now }
{
    if version < EXPIRY_FROM {
        return Ok(0);
    }
    read_u64(from)
}

// Appends a tick to the bytes, as this version has it, which has to allow it.
#[tactic(auto, unfolding(pf_core::specs::Durable::Forms::tick_form))]
fn push_tick(out: &mut Vec<u8>, version: u8, tick: u64) -> Result<(), AllocError>
    requires { (has_expiry version || (tick == 0)) ≡ true }
    ensures written { OnOk result (out.new.items ≡ onto (tick_form (has_expiry version)) tick out.old.items) }
    ensures fits { OnOk result (Fits (tick_form (has_expiry version)) tick) }
{
    if version < EXPIRY_FROM {
        return Ok(());
    }
    push_u64(out, tick)
}

// The configuration of these rulesets and tables.
fn config_of(
    alloc: Global,
    rulesets: &[Placed],
    tables: &[PlacedTable],
) -> Result<Config, AllocError>
    requires { AreInOrder rulesets.now tables.now }
    ensures { IfOk result (λ c. c ≡ configured rulesets.now tables.now) }
{
    Config::of(alloc, rulesets, tables)
}

#[tactic(auto, using(crate::proofs::Durables::none_due), unfolding(pf_core::specs::Durable::Forms::durable_form))]
fn push_durable(out: &mut Vec<u8>, version: u8, durable: &Durable) -> Result<(), AllocError>
    requires formed { durable_has_form durable.now ≡ true }
    requires allowed { allows version durable.now ≡ true }
    ensures written { OnOk result (out.new.items ≡ onto (durable_form version) (plain_durable durable.now) out.old.items) }
    ensures fits { OnOk result (Fits (durable_form version) (plain_durable durable.now)) }
{
    let epoch = durable.epoch();
    push_u32(out, epoch)?;
    push_tick(out, version, durable.tick())?;
    push_rulesets(out, version, durable.config())?;
    push_tables(out, version, durable.config())?;
    push_states(out, version, durable.states())
}

// Whether it has bytes.
fn has_form(durable: &Durable) -> bool
    ensures { result ≡ durable_has_form durable.now }
{
    let config = durable.config();
    config.ruleset_count() <= RULESET_LIMIT && config.table_count() <= TABLE_COUNT_LIMIT
}

/// Appends a snapshot of what is kept, which has one in the version, to the bytes. Fails only when out of memory.
pub(crate) fn push_snapshot(
    out: &mut Vec<u8>,
    version: u8,
    durable: &Durable,
) -> Result<(), AllocError>
    requires formed { durable_has_form durable.now ≡ true }
    requires allowed { allows version durable.now ≡ true }
    ensures { OnOk result (EndsInSnapshot version durable.now out.old.items out.new.items) }
{
    durable_is_its_data(durable);
    push_durable(out, version, durable)
}

/// The bytes, at least 16, of a snapshot of what is kept, in a version.
///
/// `NoForm`: it has none, since there are more than 1,024 rulesets or tables, or since the version doesn't allow it: a rule with a label in
/// one before labels, a tick or an expiry in one before expiries. `Memory`: it has some, but memory ran out.
pub fn write_durable(alloc: Global, version: u8, durable: &Durable) -> Result<Vec<u8>, GroupFault>
    ensures written { IfOk result (λ v. IsDurable version durable.now v.items) }
    ensures length { IfOk result (λ v. length v.items ≡ durable_length version durable.now) }
    ensures formed { OnOk result (durable_has_form_in version durable.now ≡ true) }
    ensures formless { IfErr result (λ e. e ≡ GroupFault.NoForm → durable_has_form_in version durable.now ≡ false) }
    ensures memory { IfErr result (λ e. e ≡ GroupFault.Memory → durable_has_form_in version durable.now ≡ true) }
{
    if !durable.is_allowed_in(version) || !has_form(durable) {
        return Err(GroupFault::NoForm);
    }
    let Ok(length) = usize::try_from(durable.byte_length()) else {
        return Err(GroupFault::Memory);
    };
    let mut out = Vec::with_capacity(alloc, length)?;
    push_snapshot(&mut out, version, durable)?;
    Ok(out)
}

// Whether there are as many bytes as the snapshot of nothing has in this version.
fn has_least(version: u8, bytes: &[u8]) -> bool
    ensures { result ≡ has_least version bytes.now }
{
    let least = if version < EXPIRY_FROM {
        EMPTY_LENGTH - 8
    } else {
        EMPTY_LENGTH
    };
    least <= bytes.len()
}

/// What these bytes are the snapshot of in a version. `NoForm`: they are no snapshot, for instance fewer than that of nothing has.
/// `Memory`: they aren't fewer, but memory ran out.
#[tactic(auto, using(crate::proofs::Durables::durable_spelled))]
pub fn read_durable(alloc: Global, version: u8, bytes: &[u8]) -> Result<Durable, GroupFault>
    ensures found { IfOk result (λ d. IsDurable version d bytes.now) }
    ensures none { IfErr result (λ e. e ≡ GroupFault.NoForm → (d : PlainDurable) → ¬ IsDurable version d bytes.now) }
    ensures memory { IfErr result (λ e. e ≡ GroupFault.Memory → has_least version bytes.now ≡ true) }
{
    match decode::<Snapshot>(alloc, version, bytes) {
        Ok(snapshot) => {
            durable_is_its_data(&snapshot.durable);
            Ok(snapshot.durable)
        }
        Err(fault) => Err(unread(fault, has_least(version, bytes))),
    }
}
