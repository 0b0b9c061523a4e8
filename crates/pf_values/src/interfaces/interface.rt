//! Interfaces as a user gives them.
ghost use Rattle.std.specs.{Prelude.{◌≡◌, ◌<◌, ◌==◌, [], ◌++◌, length, map, IfOk, IfSome, position}, List.slice_split};
ghost use Rattle.pf_form.specs.Form.Words.{texts};
ghost use Rattle.pf_values.specs.Interfaces.Interfaces.{before_slash, address_of, held_of, all_held, interface_of};

use crate::net;
use pf_rule::Interface as Name;
use pf_tokens::{Bytes, Items};
use std::alloc::{AllocError, Global};

/// An address of an interface, and the network that it is in. Both are texts of networks, as pf_values reads them.
#[derive(Debug, Drop)]
pub struct OwnAddress {
    /// The address with its network's length, as `192.0.2.1/24`.
    pub network: Bytes,
}

impl OwnAddress {
    /// The address alone, as `192.0.2.1`.
    pub fn address(&self) -> &[u8]
        ensures { result.now ≡ address_of self.now }
    {
        before_slash(self.network.as_slice())
    }
}

/// An interface with its addresses, in the order in which they were given.
#[derive(Drop)]
pub struct Interface {
    pub name: Name,
    pub addresses: Items<OwnAddress>,
}

/// How many bytes stand before the first slash.
fn length_before_slash(text: &[u8]) -> usize
    ensures { result ≡ length (before_slash text.now) }
{
    text.iter().take_while(|byte| **byte != b'/').count()
}

/// What stands before the length of a network.
fn before_slash(text: &[u8]) -> &[u8]
    ensures { result.now ≡ before_slash text.now }
{
    &text[..length_before_slash(text)]
}

/// The address that a text spells, with its network's length behind it, if it spells one.
fn held_of(alloc: Global, text: &[u8]) -> Result<Option<OwnAddress>, AllocError>
    ensures { IfOk result (λ held. held ≡ held_of text.now) }
{
    let address = before_slash(text);
    if net(address).is_err() || net(text).is_err() {
        return Ok(None);
    }
    let network = Items::copied(alloc, text)?;
    Ok(Some(OwnAddress { network }))
}

/// The parts of a text between commas.
fn parts_of<'a>(alloc: Global, text: &'a [u8]) -> Result<Vec<&'a [u8]>, AllocError>
    ensures { IfOk result (λ v. texts v.items ≡ slice_split (λ b. b == 44) text.now) }
{
    text.split(|byte| *byte == b',').collect(alloc)
}

/// The addresses that these texts spell, if each spells one.
#[tactic(auto, using(crate::proofs::InterfacesSteps::held_next, crate::proofs::InterfacesSteps::held_none, crate::proofs::InterfacesSteps::held_end))]
fn all_held(alloc: Global, parts: &[&[u8]]) -> Result<Option<Items<OwnAddress>>, AllocError>
    ensures { IfOk result (λ held. held ≡ all_held [] (texts parts.now)) }
{
    let mut all = Items::new(alloc);
    for part in parts {
        match held_of(alloc, part)? {
            Some(held) => all.push(held)?,
            None => return Ok(None),
        }
    }
    Ok(Some(all))
}

/// Where the first `=` stands.
fn equals_in(text: &[u8]) -> Option<usize>
    ensures place { result ≡ position (λ b. b == 61) text.now }
    ensures bound { IfSome result (λ i. i < length text.now) }
{
    text.iter().position(|byte| *byte == b'=')
}

/// The interface that a text gives, as `em0=192.0.2.1/24,2001:db8::1/64`; nothing if it gives none: its name is no interface's, or one of
/// the addresses isn't one.
pub fn read_interface(alloc: Global, text: &[u8]) -> Result<Option<Interface>, AllocError>
    ensures { IfOk result (λ interface. interface ≡ interface_of text.now) }
{
    let Some(equals) = equals_in(text) else {
        return Ok(None);
    };
    let Ok(name) = Name::from_ascii(&text[..equals]) else {
        return Ok(None);
    };
    let parts = parts_of(alloc, &text[equals + 1..])?;
    match all_held(alloc, &parts)? {
        Some(addresses) => Ok(Some(Interface { name, addresses })),
        None => Ok(None),
    }
}
