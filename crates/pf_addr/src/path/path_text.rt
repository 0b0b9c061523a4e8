//! Texts of paths.
ghost use Rattle.std.specs.{Prelude.{◌≡◌, ◌<◌, length, count_by, IfSome}, List.position};
ghost use Rattle.pf_addr.specs.Path.Paths.{is_slash, components, is_component, component_fault, first_fault, depth_fault, fault_within};

use crate::path::limits::{COMPONENT_LIMIT, DEPTH_LIMIT};
use crate::path::names::has_name_bytes;
use pf_form::form::Kind;

/// Why a text of at most `limit` bytes can't contain these names, if it can't: first its whole length, then the components from left to
/// right, then how many there are. Doesn't allocate.
pub(crate) fn fault_in(limit: usize, text: &[u8], names: &[u8]) -> Option<Kind>
    ensures { result ≡ fault_within limit text.now names.now }
{
    if text.len() > limit {
        return Some(Kind::NameTooLong);
    }
    first_fault_in(names).or_else(|| depth_fault_in(names))
}

// The fault of the first faulty component.
fn first_fault_in(text: &[u8]) -> Option<Kind>
    ensures { result ≡ first_fault (components text.now) }
{
    let mut rest = text;
    while let Some(slash) = first_slash(rest) {
        if let Some(kind) = component_fault_in(&rest[..slash]) {
            return Some(kind);
        }
        rest = &rest[slash + 1..];
    }
    component_fault_in(rest)
}

fn first_slash(text: &[u8]) -> Option<usize>
    ensures place { result ≡ position is_slash text.now }
    ensures bound { IfSome result (λ i. i < length text.now) }
{
    text.iter().position(|b| *b == b'/')
}

// There is one component more than there are slashes.
#[tactic(auto, using(crate::proofs::PathTexts::count_components))]
fn depth_fault_in(text: &[u8]) -> Option<Kind>
    ensures { result ≡ depth_fault (length (components text.now)) }
{
    let slashes = text.iter().filter(|b| **b == b'/').count();
    if slashes < DEPTH_LIMIT {
        None
    } else {
        Some(Kind::NameTooLong)
    }
}

// The bytes are checked before the length.
fn component_fault_in(component: &[u8]) -> Option<Kind>
    ensures { result ≡ component_fault component.now }
{
    if !good_component(component) {
        Some(Kind::BadWord)
    } else if component.len() > COMPONENT_LIMIT {
        Some(Kind::NameTooLong)
    } else {
        None
    }
}

fn good_component(component: &[u8]) -> bool
    ensures { result ≡ is_component component.now }
{
    !component.is_empty()
        && has_name_bytes(component)
        && component != b"..".as_slice()
        && component != b"-".as_slice()
}
