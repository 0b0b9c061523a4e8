//! What tokens mention of interfaces.
ghost use Rattle.std.specs.{Prelude.{◌≡◌, ◌≤◌, ◌<◌, ◌==◌, ◌++◌, not, length, map, count_by, IfOk, IfSome, OnOk, position}, List.list_any};
ghost use Rattle.pf_values.specs.Interfaces.Mentions.{is_meant, host_of, hosts_of, all_hosts, named_by, is_name, begins_with, rest_if, ends, is_v6, is_one_each, can_stand, mentioned, mention_in};

use crate::interfaces::interface::{Interface, OwnAddress};
use pf_tokens::{Bytes, Items, Place, Token};
use std::alloc::{AllocError, Global};

/// The addresses of interfaces that tokens mention.
#[derive(Debug, Drop)]
pub(crate) struct Mention {
    /// How many tokens more than one it takes.
    pub(crate) more: usize,
    /// Where the interface's name stands.
    pub(crate) place: Place,
    pub(crate) is_negated: bool,
    /// The addresses, or the networks; at least one.
    pub(crate) texts: Items<Bytes>,
}

/// Whether an interface has this name, or any is meant.
fn is_meant(name: &[u8], interface: &Interface) -> bool
    ensures { result ≡ is_meant name.now interface.now }
{
    name == b"self".as_slice() || interface.name.as_bytes() == name
}

/// The address, or its network.
fn host_of(alloc: Global, of_networks: bool, held: &OwnAddress) -> Result<Bytes, AllocError>
    ensures { IfOk result (λ text. text ≡ host_of of_networks held.now) }
{
    if of_networks {
        Items::copied(alloc, held.network.as_slice())
    } else {
        Items::copied(alloc, held.address())
    }
}

/// Appends the addresses, or the networks, of an interface.
#[tactic(auto, using(crate::proofs::InterfacesSteps::map_item))]
fn push_all(
    alloc: Global,
    of_networks: bool,
    held: &[OwnAddress],
    hosts: &mut Items<Bytes>,
) -> Result<(), AllocError>
    ensures { OnOk result (hosts.new ≡ hosts.old ++ map (host_of of_networks) held.now) }
{
    for one in held {
        hosts.push(host_of(alloc, of_networks, one)?)?;
    }
    Ok(())
}

/// Appends those of an interface if it is meant.
fn push_meant(
    alloc: Global,
    name: &[u8],
    of_networks: bool,
    interface: &Interface,
    hosts: &mut Items<Bytes>,
) -> Result<(), AllocError>
    ensures { OnOk result (hosts.new ≡ hosts.old ++ hosts_of name.now of_networks interface.now) }
{
    if !is_meant(name, interface) {
        return Ok(());
    }
    push_all(alloc, of_networks, interface.addresses.as_slice(), hosts)
}

/// The addresses, or the networks, of all interfaces that a name means.
#[tactic(auto, using(crate::proofs::InterfacesSteps::flat_item))]
fn all_hosts(
    alloc: Global,
    interfaces: &[Interface],
    name: &[u8],
    of_networks: bool,
) -> Result<Items<Bytes>, AllocError>
    ensures { IfOk result (λ hosts. hosts ≡ all_hosts interfaces.now name.now of_networks) }
{
    let mut hosts = Items::new(alloc);
    for interface in interfaces {
        push_meant(alloc, name, of_networks, interface, &mut hosts)?;
    }
    Ok(hosts)
}

/// Where the first colon stands.
fn colon_in(text: &[u8]) -> Option<usize>
    ensures place { result ≡ position (λ b. b == 58) text.now }
    ensures bound { IfSome result (λ i. i < length text.now) }
{
    text.iter().position(|byte| *byte == b':')
}

/// The addresses or networks that a text names; none if it names no interface.
fn named_by(
    alloc: Global,
    interfaces: &[Interface],
    text: &[u8],
) -> Result<Items<Bytes>, AllocError>
    ensures { IfOk result (λ hosts. hosts ≡ named_by interfaces.now text.now) }
{
    let Some(colon) = colon_in(text) else {
        return all_hosts(alloc, interfaces, text, false);
    };
    if &text[colon..] == b":network".as_slice() {
        return all_hosts(alloc, interfaces, &text[..colon], true);
    }
    Ok(Items::new(alloc))
}

/// Whether a token may name an interface.
fn is_name(token: &Token) -> bool
    ensures { result ≡ is_name token.now }
{
    token.is_string() || token.is_word(b"self")
}

/// Whether this symbol comes first.
fn begins_with(symbol: &[u8], tokens: &[Token]) -> bool
    ensures { result ≡ begins_with symbol.now tokens.now }
{
    match tokens {
        [first, ..] => first.is_symbol(symbol),
        [] => false,
    }
}

/// The tokens behind the first, if that is taken.
fn rest_if(taken: bool, tokens: &[Token]) -> &[Token]
    ensures { result.now ≡ rest_if taken tokens.now }
{
    match tokens {
        [_, rest @ ..] if taken => rest,
        _ => tokens,
    }
}

/// Whether a mention ends before these tokens.
fn ends(is_dynamic: bool, tokens: &[Token]) -> bool
    ensures { result ≡ ends is_dynamic tokens.now }
{
    (!is_dynamic || begins_with(b")", tokens)) && !begins_with(b"/", rest_if(is_dynamic, tokens))
}

/// Whether an address is an IPv6 one.
fn is_v6(text: &Bytes) -> bool
    ensures { result ≡ is_v6 text.now }
{
    text.as_slice().iter().any(|byte| *byte == b':')
}

/// How many are IPv6 addresses.
fn v6_count(texts: &[Bytes]) -> usize
    ensures { result ≡ count_by is_v6 texts.now }
{
    texts.iter().filter(|text| is_v6(text)).count()
}

/// How many are IPv4 addresses.
fn v4_count(texts: &[Bytes]) -> usize
    ensures { result ≡ count_by (λ text. not (is_v6 text)) texts.now }
{
    texts.iter().filter(|text| !is_v6(text)).count()
}

/// Whether there is at most one address of each family.
fn is_one_each(texts: &[Bytes]) -> bool
    ensures { result ≡ is_one_each texts.now }
{
    v6_count(texts) <= 1 && v4_count(texts) <= 1
}

/// Whether these addresses can stand for a mention.
fn can_stand(in_table: bool, is_negated: bool, is_dynamic: bool, texts: &[Bytes]) -> bool
    ensures { result ≡ can_stand in_table is_negated is_dynamic texts.now }
{
    !texts.is_empty() && (!is_dynamic || (!in_table && (!is_negated || is_one_each(texts))))
}

/// What is mentioned by a name with these addresses.
fn mentioned(
    in_table: bool,
    is_negated: bool,
    is_dynamic: bool,
    name: &Token,
    texts: Items<Bytes>,
) -> Option<Mention>
    ensures { result ≡ mentioned in_table is_negated is_dynamic name.now texts }
{
    if !can_stand(in_table, is_negated, is_dynamic, texts.as_slice()) {
        return None;
    }
    Some(Mention {
        more: usize::from(is_negated) + 2 * usize::from(is_dynamic),
        place: name.place,
        is_negated,
        texts,
    })
}

/// What the first of these tokens mention, if they do.
#[tactic(auto, unfolding(crate::specs::Interfaces::Mentions::mention_in))]
pub(crate) fn mention_in(
    alloc: Global,
    interfaces: &[Interface],
    in_table: bool,
    tokens: &[Token],
) -> Result<Option<Mention>, AllocError>
    ensures { IfOk result (λ m. m ≡ mention_in interfaces.now in_table tokens.now) }
{
    let is_negated = begins_with(b"!", tokens);
    let rest = rest_if(is_negated, tokens);
    let is_dynamic = begins_with(b"(", rest);
    let [name, rest @ ..] = rest_if(is_dynamic, rest) else {
        return Ok(None);
    };
    if !is_name(name) || !ends(is_dynamic, rest) {
        return Ok(None);
    }
    let text = name.bytes(alloc)?;
    let texts = named_by(alloc, interfaces, text.as_slice())?;
    Ok(mentioned(in_table, is_negated, is_dynamic, name, texts))
}
