//! What tables say of a packet's two addresses, each of them asked once.
ghost use Rattle.std.specs.{Prelude.{◌≡◌, ◌<◌, ◌≤◌, T, length, take, true, false, List, IfSome, MatchOption}, Ordering.{is_gt, is_ge}, Option.option_map, FinMap.{find, is_sorted}, List.Sorted.IsPartitionPoint};
ghost use Rattle.pf_addr.specs.Path.Paths.{path_order};
ghost use Rattle.pf_rule.specs.Packets.{PlainPacket};
ghost use Rattle.pf_table.specs.{Entries.PlainEntry, Tables.table_holds};
ghost use Rattle.pf_anchor.specs.{Tables.{PlainPlacedTable, named_table, table_order, tables_say}, Answered.{AreAnswered, AreAnsweredAt, AreNamed, answers, answered_by}};

use crate::config::Config;
use crate::limits::TABLE_COUNT_LIMIT;
use crate::named_tables::{AskedTables, NamedTables};
use crate::tables::{Place, PlacedTable};
use pf_addr::Addr;
use pf_addr::path::{Path, TableName};
use pf_key::{Key, Sought};
use pf_rule::{Packet, TableAnswers};
use std::array;
use std::marker::Model;

/// A table, and what it says of a packet's addresses. Contracts see it as a `PlainAnswered`.
#[derive(Drop)]
pub(crate) struct Answered<'a> {
    placed: &'a PlacedTable,
    source: bool,
    destination: bool,
}

impl<'a> Model for Answered<'a> {
    ghost use Rattle.pf_anchor.specs.Answered.{PlainAnswered};

    ghost Value = { PlainAnswered };

    ghost view = { λ a. (a.placed.now.0, record { source = a.source; destination = a.destination }) };
}

fn is_same(one: Addr, other: Addr) -> bool
    ensures { result ≡ true → one ≡ other }
{
    one == other
}

impl<'a> Answered<'a> {
    // What it says of an address, if that is one of the packet's.
    fn answer(&self, packet: &Packet, address: Addr) -> Option<bool>
        ensures { IfSome result (λ b. (es : List PlainEntry) → self.now.1 ≡ answers packet.now es → b ≡ table_holds es address) }
    {
        if is_same(address, packet.source()) {
            Some(self.source)
        } else if is_same(address, packet.destination()) {
            Some(self.destination)
        } else {
            None
        }
    }
}

/// A list filled with any table.
pub(crate) fn unanswered<'a>(any: &'a PlacedTable) -> [Answered<'a>; TABLE_COUNT_LIMIT]
    ensures { length result ≡ TABLE_COUNT_LIMIT }
{
    array::from_fn(|_| Answered {
        placed: any,
        source: false,
        destination: false,
    })
}

/// Asks each table for both addresses of a packet, and puts the answers at the front of a list, in order: how many there are. None: there
/// are too many.
pub(crate) fn answer_each<'a>(
    config: &'a Config,
    packet: &Packet,
    list: &mut [Answered<'a>],
) -> Option<usize>
    ensures { MatchOption result (length list.old < length config.now.tables)
        (λ n. (n ≤ length list.new) × (take n list.new ≡ answered_by packet.now config.now.tables)) }
{
    let mut count = 0;
    for placed in config.each_table() {
        if count == list.len() {
            return None;
        }
        let table = placed.value();
        list[count] = Answered {
            placed,
            source: table.test(packet.source()),
            destination: table.test(packet.destination()),
        };
        count += 1;
    }
    Some(count)
}

// How many of them come before a place: what is looked at is halved at each step.
fn count_before(known: &[Answered<'_>], sought: &Place<'_>) -> usize
    requires { T (is_sorted table_order known.now) }
    ensures within { result ≤ length known.now }
    ensures place { IsPartitionPoint (λ a. is_gt (table_order (sought.now.path.now, sought.now.name.now) a.0) ≡ true)
        (λ a. is_gt (table_order (sought.now.path.now, sought.now.name.now) a.0) ≡ false) known.now result }
{
    known.partition_point(|one| sought.order(one.placed.key()).is_gt())
}

// The answers of the table at a path and name, if there is one.
fn answered_at<'k, 'a>(
    known: &'k [Answered<'a>],
    path: &Path,
    name: &TableName,
) -> Option<&'k Answered<'a>>
    requires { T (is_sorted table_order known.now) }
    ensures { option_map (λ a. a.now.1) result ≡ find table_order (path.now, name.now) known.now }
{
    let sought = Place { path, name };
    let place = count_before(known, &sought);
    let Some(one) = known.get(place) else {
        return None;
    };
    if sought.same(one.placed.key()) {
        Some(one)
    } else {
        None
    }
}

// How many of them are at paths before one.
fn count_before_path(known: &[Answered<'_>], path: &Path) -> usize
    requires { T (is_sorted table_order known.now) }
    ensures within { result ≤ length known.now }
    ensures place { IsPartitionPoint (λ a. is_gt (path_order path.now a.0.0) ≡ true) (λ a. is_gt (path_order path.now a.0.0) ≡ false) known.now result }
{
    known.partition_point(|one| path.order(&one.placed.key().0).is_gt())
}

// How many of them are at paths before one, or at this.
fn count_up_to_path(known: &[Answered<'_>], path: &Path) -> usize
    requires { T (is_sorted table_order known.now) }
    ensures within { result ≤ length known.now }
    ensures place { IsPartitionPoint (λ a. is_ge (path_order path.now a.0.0) ≡ true) (λ a. is_ge (path_order path.now a.0.0) ≡ false) known.now result }
{
    known.partition_point(|one| path.order(&one.placed.key().0).is_ge())
}

// The answers of the tables at a path, which stand together.
fn all_at<'k, 'a>(known: &'k [Answered<'a>], path: &Path) -> &'k [Answered<'a>]
    requires { T (is_sorted table_order known.now) }
    ensures { (packet : PlainPacket) (ts : List PlainPlacedTable) → AreAnswered packet ts known.now → AreAnsweredAt packet ts path.now result.now }
{
    let start = count_before_path(known, path);
    let following = &known[start..];
    let count = count_up_to_path(following, path);
    &following[..count]
}

/// The answers of the tables that a ruleset's rules may mean by a name.
#[derive(Clone, Copy)]
pub(crate) struct NamedAnswers<'k, 'a> {
    /// Of those at its path.
    pub own: &'k [Answered<'a>],
    /// Of the main ruleset's.
    pub main: &'k [Answered<'a>],
}

/// Of the answers of all tables, those that the rules of the ruleset at a path may mean. They are found once for all of its rules.
pub(crate) fn named_by<'k, 'a>(known: &'k [Answered<'a>], path: &Path) -> NamedAnswers<'k, 'a>
    requires { T (is_sorted table_order known.now) }
    ensures { (packet : PlainPacket) (ts : List PlainPlacedTable) → AreAnswered packet ts known.now → AreNamed packet ts path.now result.own.now result.main.now }
{
    NamedAnswers {
        own: all_at(known, path),
        main: all_at(known, &Path::main()),
    }
}

/// The tables as the rules of the ruleset at a path name them, where it is known what they say of a packet's addresses.
#[derive(Clone, Copy)]
pub(crate) struct AnsweredTables<'k, 'a> {
    pub config: &'a Config,
    pub packet: &'k Packet,
    pub path: &'a Path,
    pub known: NamedAnswers<'k, 'a>,
    ghost right: { AreNamed packet.now config.now.tables path.now known.own.now known.main.now },
}

impl<'k, 'a> AnsweredTables<'k, 'a> {
    // The answers of the table that the rules mean by a name.
    fn answered(&self, name: &TableName) -> Option<&'k Answered<'a>>
        ensures { option_map (λ a. a.now.1) result ≡ option_map (answers self.now.packet.now) (named_table self.now.config.now.tables self.now.path.now name.now) }
    {
        match answered_at(self.known.own, self.path, name) {
            Some(own) => Some(own),
            None => answered_at(self.known.main, &Path::main(), name),
        }
    }
}

impl<'k, 'a> TableAnswers for AnsweredTables<'k, 'a> {
    ghost says = { λ t. tables_say t.config.now.tables t.path.now };

    fn holds(&self, name: &TableName, address: Addr) -> bool {
        let Some(table) = self.answered(name) else {
            return false;
        };
        match table.answer(self.packet, address) {
            Some(answer) => answer,
            None => {
                let tables = NamedTables {
                    config: self.config,
                    path: self.path,
                };
                tables.holds(name, address)
            }
        }
    }
}

impl<'k, 'a> AskedTables for AnsweredTables<'k, 'a> {
    /// Never: each of them was asked before.
    #[inline(always)]
    fn has_asked_all(&self) -> bool {
        false
    }
}
