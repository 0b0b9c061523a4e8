//! Tokens with addresses in place of what mentions interfaces.
ghost use Rattle.std.specs.Prelude.{◌≡◌, ◌≤◌, ◌<◌, ◌+◌, ◌^◌, ◌∷◌, [], ◌++◌, drop, length, IfOk, OnOk, option_map};
ghost use Rattle.std.specs.List.{flat_map};
ghost use Rattle.pf_values.specs.Interfaces.Addresses.{token_at, symbol_at, host_at, hosts_at, listed, mention_at, front_by, front_of, with_addresses, antispoof_in, Goes};

use crate::interfaces::hosts::{Context, Within};
use crate::interfaces::interface::Interface;
use crate::interfaces::mention::{Mention, mention_in};
use pf_tokens::{Bytes, Items, Kind, Place, Placed, Token};
use std::alloc::{AllocError, Global};

/// A token of this kind, all of whose bytes stand at this place.
#[tactic(auto, using(crate::proofs::InterfacesSteps::map_item))]
fn token_at(alloc: Global, place: Place, kind: Kind, bytes: &[u8]) -> Result<Token, AllocError>
    ensures { IfOk result (λ t. t ≡ token_at place kind bytes.now) }
{
    let mut text = Items::new(alloc);
    for byte in bytes {
        let byte = *byte;
        text.push(Placed { byte, place })?;
    }
    Ok(Token { kind, place, text })
}

fn symbol_at(alloc: Global, place: Place, bytes: &[u8]) -> Result<Token, AllocError>
    ensures { IfOk result (λ t. t ≡ symbol_at place bytes.now) }
{
    token_at(alloc, place, Kind::Symbol, bytes)
}

/// Appends a host.
fn push_host(
    alloc: Global,
    place: Place,
    is_negated: bool,
    text: &Bytes,
    tokens: &mut Items<Token>,
) -> Result<(), AllocError>
    ensures { OnOk result (tokens.new ≡ tokens.old ++ host_at place is_negated text.now) }
{
    if is_negated {
        tokens.push(symbol_at(alloc, place, b"!")?)?;
    }
    tokens.push(token_at(alloc, place, Kind::Quoted, text.as_slice())?)
}

/// Appends the hosts that are mentioned.
#[tactic(auto, using(crate::proofs::InterfacesSteps::flat_item))]
fn push_hosts(alloc: Global, mention: &Mention, tokens: &mut Items<Token>) -> Result<(), AllocError>
    ensures { OnOk result (tokens.new ≡ tokens.old ++ hosts_at mention.now) }
{
    let (place, is_negated) = (mention.place, mention.is_negated);
    for text in mention.texts.as_slice() {
        push_host(alloc, place, is_negated, text, tokens)?;
    }
    Ok(())
}

/// The hosts that are mentioned, as a list if they don't stand in one.
fn listed(alloc: Global, deep: usize, mention: &Mention) -> Result<Items<Token>, AllocError>
    ensures { IfOk result (λ tokens. tokens ≡ listed deep mention.now) }
{
    let mut tokens = Items::new(alloc);
    if deep > 0 {
        push_hosts(alloc, mention, &mut tokens)?;
        return Ok(tokens);
    }
    tokens.push(symbol_at(alloc, mention.place, b"{")?)?;
    push_hosts(alloc, mention, &mut tokens)?;
    tokens.push(symbol_at(alloc, mention.place, b"}")?)?;
    Ok(tokens)
}

/// What stands at the front of some tokens.
#[derive(Drop)]
struct Front {
    /// What stands in its place.
    tokens: Items<Token>,
    /// How many tokens more than one it takes.
    more: usize,
    /// What is known behind it.
    context: Context,
}

/// What the first of these tokens mention, where a host may stand.
fn mention_at(
    alloc: Global,
    interfaces: &[Interface],
    context: Context,
    tokens: &[Token],
) -> Result<Option<Mention>, AllocError>
    ensures { IfOk result (λ m. m ≡ mention_at interfaces.now context tokens.now) }
{
    if !context.takes_host() {
        return Ok(None);
    }
    mention_in(alloc, interfaces, context.within == Within::Table, tokens)
}

/// What stands at the front, by the first token and what is mentioned.
fn front_by(
    alloc: Global,
    context: Context,
    token: &Token,
    mention: Option<Mention>,
) -> Result<Front, AllocError>
    requires { context.deep + 1 < 2 ^ 64 }
    ensures { IfOk result (λ f. f ≡ front_by context token.now mention) }
{
    if let Some(mention) = mention {
        return Ok(Front {
            tokens: listed(alloc, context.deep, &mention)?,
            more: mention.more,
            context: context.context_after_host(),
        });
    }
    let mut tokens = Items::new(alloc);
    tokens.push(token.copied(alloc)?)?;
    Ok(Front {
        tokens,
        more: 0,
        context: context.context_after(token),
    })
}

/// Appends tokens.
#[tactic(auto, using(crate::proofs::InterfacesSteps::take_item))]
fn append(tokens: &mut Items<Token>, more: Items<Token>) -> Result<(), AllocError>
    ensures { OnOk result (tokens.new ≡ tokens.old ++ more) }
{
    for token in more.into_items() {
        tokens.push(token)?;
    }
    Ok(())
}

/// Where a reading of tokens is: behind so many that belong to what stands before.
#[derive(Clone, Copy)]
struct Reading {
    more: usize,
    context: Context,
}

/// Takes the first of these tokens, and appends what stands in its place.
fn take_token(
    alloc: Global,
    interfaces: &[Interface],
    reading: Reading,
    tokens: &[Token],
    known: &mut Items<Token>,
) -> Result<Reading, AllocError>
    requires some { 0 < length tokens.now }
    requires deep { reading.context.deep + 1 < 2 ^ 64 }
    ensures goes { IfOk result (λ left.
        Goes interfaces.now tokens.now known.old reading.more reading.context known.new left.more left.context) }
    ensures deep { IfOk result (λ left. left.context.deep ≤ reading.context.deep + 1) }
{
    let context = reading.context;
    if reading.more > 0 {
        let more = reading.more - 1;
        return Ok(Reading { more, context });
    }
    let mention = mention_at(alloc, interfaces, context, tokens)?;
    let front = front_by(alloc, context, &tokens[0], mention)?;
    append(known, front.tokens)?;
    Ok(Reading {
        more: front.more,
        context: front.context,
    })
}

/// The tokens of a file in which each mention of these interfaces is the list of their addresses. There is at least one.
pub fn with_addresses(
    alloc: Global,
    interfaces: &[Interface],
    tokens: &[Token],
) -> Result<Items<Token>, AllocError>
    requires { 0 < length interfaces.now }
    ensures { IfOk result (λ known. known ≡ with_addresses interfaces.now tokens.now) }
{
    let mut known = Items::new(alloc);
    let mut reading = Reading {
        more: 0,
        context: Context::beginning(),
    };
    for at in 0..tokens.len() {
        reading = take_token(alloc, interfaces, reading, &tokens[at..], &mut known)?;
    }
    Ok(known)
}

/// The first word `antispoof`, if there is one.
pub fn antispoof_in(tokens: &[Token]) -> Option<&Token>
    ensures { option_map (λ t. t.now) result ≡ antispoof_in tokens.now }
{
    tokens.iter().find(|token| token.is_word(b"antispoof"))
}
