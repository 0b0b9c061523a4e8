//! Rules, tables and loads as they are written.
ghost use Rattle.std.specs.Prelude.{◌≡◌, ◌∷◌, ◌++◌, [], IfOk, OnOk};
ghost use Rattle.pf_parse.specs.Product.{only, keyword, product_of};

use pf_addr::Net;
use pf_lists::{Lists, Words};
use pf_tokens::{Bytes, Items, Place, Token};
use std::alloc::{AllocError, Global};

/// How a rule begins.
#[derive(Clone, Copy, PartialEq, Eq)]
pub(crate) enum Start {
    Pass,
    Block,
    Anchor,
}

/// A rule as a file has it: each part that may be a list is one.
#[derive(Drop)]
pub struct Product {
    /// Where its first word stands.
    pub place: Place,
    /// Its lists, in the order of its words.
    pub lists: Lists,
}

/// A rule, and the number of the braces that it stands in.
#[derive(Drop)]
pub struct Written {
    pub within: usize,
    pub product: Product,
}

/// An anchor's braces: the name of their ruleset, below that of the braces that they stand in. Braces have numbers as they open, from 1;
/// a file's own ruleset has the number 0.
#[derive(Drop)]
pub struct Braces {
    pub within: usize,
    /// Where the anchor's first word stands.
    pub place: Place,
    pub name: Bytes,
}

/// What a rule tests, each list in order. A list has one item without words if nothing is tested.
#[derive(Drop)]
pub(crate) struct Tests {
    pub(crate) interfaces: Items<Words>,
    pub(crate) family: Words,
    pub(crate) protocols: Items<Words>,
    pub(crate) source: Side,
    pub(crate) destination: Side,
}

/// The hosts and the ports of one side.
#[derive(Drop)]
pub(crate) struct Side {
    pub(crate) hosts: Items<Words>,
    pub(crate) ports: Items<Words>,
}

/// An entry of a table, where it stands.
#[derive(Clone, Copy)]
pub struct Entry {
    pub place: Place,
    pub net: Net,
    /// Whether a `!` stands before its network.
    pub is_negated: bool,
}

/// Where entries of a table come from.
#[derive(Drop)]
pub enum Entries {
    Listed(Items<Entry>),
    /// The file that this token names.
    File(Token),
}

/// A table's line.
#[derive(Drop)]
pub struct Table {
    /// Where its name stands.
    pub place: Place,
    pub name: Bytes,
    pub sources: Items<Entries>,
}

/// A line that loads an anchor from a file.
#[derive(Drop)]
pub struct Load {
    /// Where `load` stands.
    pub place: Place,
    pub path: Bytes,
    /// The token that names the file.
    pub file: Token,
}

/// What a file has, each in order.
#[derive(Drop)]
pub struct Tree {
    /// The rules that stand for skipped interfaces; they come before the file's own.
    pub skips: Items<Product>,
    pub rules: Items<Written>,
    /// The braces, as they open.
    pub braces: Items<Braces>,
    pub tables: Items<Table>,
    pub loads: Items<Load>,
}

/// A list of one item, with these words.
fn only(alloc: Global, words: Words) -> Result<Items<Words>, AllocError>
    ensures { IfOk result (λ list. list ≡ only words) }
{
    let mut list = Items::new(alloc);
    list.push(words)?;
    Ok(list)
}

/// A list of one item, with this word.
fn keyword(alloc: Global, word: &[u8]) -> Result<Items<Words>, AllocError>
    ensures { IfOk result (λ list. list ≡ keyword word.now) }
{
    let mut words = Items::new(alloc);
    words.push(Items::copied(alloc, word)?)?;
    only(alloc, words)
}

impl Product {
    /// A rule of what comes before its tests (`pass`, `block` or `anchor` with what it names, a direction, `quick`), its tests, and what
    /// comes behind them (the state option and the label).
    pub(crate) fn of(
        alloc: Global,
        place: Place,
        opening: Words,
        tests: Tests,
        closing: Words,
    ) -> Result<Product, AllocError>
        ensures { IfOk result (λ p. p ≡ product_of place opening tests closing) }
    {
        let Tests {
            interfaces,
            family,
            protocols,
            source,
            destination,
        } = tests;
        let mut lists = lists_before_sides(alloc, opening, interfaces, family, protocols)?;
        push_side(alloc, &mut lists, b"from", source)?;
        push_side(alloc, &mut lists, b"to", destination)?;
        lists.push(only(alloc, closing)?)?;
        Ok(Product { place, lists })
    }
}

/// The lists that come before those of the sides.
fn lists_before_sides(
    alloc: Global,
    opening: Words,
    interfaces: Items<Words>,
    family: Words,
    protocols: Items<Words>,
) -> Result<Lists, AllocError>
    ensures { IfOk result (λ lists. lists ≡ only opening ∷ interfaces ∷ only family ∷ protocols ∷ []) }
{
    let mut lists = Items::new(alloc);
    lists.push(only(alloc, opening)?)?;
    lists.push(interfaces)?;
    lists.push(only(alloc, family)?)?;
    lists.push(protocols)?;
    Ok(lists)
}

/// Appends the lists of one side, behind its word.
fn push_side(alloc: Global, lists: &mut Lists, word: &[u8], side: Side) -> Result<(), AllocError>
    ensures { OnOk result (lists.new ≡ lists.old ++ (keyword word.now ∷ side.hosts ∷ side.ports ∷ [])) }
{
    let Side { hosts, ports } = side;
    lists.push(keyword(alloc, word)?)?;
    lists.push(hosts)?;
    lists.push(ports)
}
