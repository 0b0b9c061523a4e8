//! Addresses and networks.
ghost use Rattle.std.specs.{Prelude.{◌≡◌, ◌==◌, ◌≤◌, true, length, drop}, List.list_any};
ghost use Rattle.pf_values.specs.Addresses.{rest_after_last, decimal_part, begins_number, zeros_within, net_of};

use crate::numbers::{Mistake, is_digit};
use pf_addr::Net;

/// The bytes behind the last such byte; all of them if there is none.
fn rest_after_last(byte: u8, text: &[u8]) -> &[u8]
    ensures { result.now ≡ rest_after_last byte text.now text.now }
{
    &text[end_of_last(byte, text)..]
}

/// Where the last such byte ends, or 0 if there is none.
#[tactic(auto, using(crate::proofs::Steps::drop_item, std::proofs::lemmas::List::drop_all))]
fn end_of_last(byte: u8, text: &[u8]) -> usize
    ensures rest { drop result text.now ≡ rest_after_last byte text.now text.now }
    ensures bound { result ≤ length text.now }
{
    let mut end = 0;
    for at in 0..text.len() {
        if text[at] == byte {
            end = at + 1;
        }
    }
    end
}

/// Whether such a byte is there.
fn has(byte: u8, text: &[u8]) -> bool
    ensures { result ≡ list_any (λ b. b == byte) text.now }
{
    text.iter().any(|b| *b == byte)
}

/// What of the text of a network is written in decimal numbers.
fn decimal_part(text: &[u8]) -> &[u8]
    ensures { result.now ≡ decimal_part text.now }
{
    let last = rest_after_last(b':', text);
    if has(b':', text) && !has(b'.', last) {
        if !has(b'/', last) {
            return &[];
        }
        return rest_after_last(b'/', last);
    }
    last
}

/// Whether a digit comes first.
fn begins_number(text: &[u8]) -> bool
    ensures { result ≡ begins_number text.now }
{
    match text {
        [first, ..] => is_digit(*first),
        [] => false,
    }
}

/// Whether a zero that begins a number has a digit behind it.
#[tactic(auto, using(crate::proofs::Steps::drop_item, std::proofs::lemmas::List::drop_all))]
fn zeros_within(text: &[u8]) -> bool
    ensures { result ≡ zeros_within true text.now }
{
    let mut begins = true;
    for at in 0..text.len() {
        if begins && text[at] == b'0' && begins_number(&text[at + 1..]) {
            return true;
        }
        begins = !is_digit(text[at]);
    }
    false
}

/// The network that a text spells, with its host bits cleared. `Mistake::Address`: it spells none; `Mistake::Zeros`: a decimal number in it
/// has zeros in front.
pub fn net(text: &[u8]) -> Result<Net, Mistake>
    ensures { result ≡ net_of text.now }
{
    let Ok(net) = Net::from_ascii(text) else {
        return Err(Mistake::Address);
    };
    if zeros_within(decimal_part(text)) {
        return Err(Mistake::Zeros);
    }
    Ok(net)
}
