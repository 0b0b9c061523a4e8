//! Decimal numbers without zeros in front.
ghost use Rattle.std.specs.{Prelude.{◌≡◌}, List.list_all};
ghost use Rattle.pf_form.specs.Form.Numbers.{is_digit};
ghost use Rattle.pf_values.specs.Numbers.{is_digits, has_zeros, number_between};

use pf_form::form::read_number;

/// Why a text isn't a value.
#[derive(Clone, Copy, Debug, PartialEq, Eq)]
pub enum Mistake {
    /// A decimal number has zeros in front.
    Zeros,
    /// No protocol has this number.
    ProtocolNumber,
    /// No protocol that is known here has this name.
    Protocol,
    /// No port has this number.
    PortNumber,
    /// It is no number, and no service that is known here has this name.
    Port,
    /// Two ports with a colon between them stand where one port can stand.
    Colon,
    /// It is neither an address nor a network.
    Address,
}

pub(crate) fn is_digit(byte: u8) -> bool
    ensures { result ≡ is_digit byte }
{
    byte.is_ascii_digit()
}

fn has_digits_alone(text: &[u8]) -> bool
    ensures { result ≡ list_all is_digit text.now }
{
    text.iter().all(|b| is_digit(*b))
}

/// Whether there are bytes, and each is a digit.
pub(crate) fn is_digits(text: &[u8]) -> bool
    ensures { result ≡ is_digits text.now }
{
    !text.is_empty() && has_digits_alone(text)
}

/// Whether a decimal number has zeros in front.
pub(crate) fn has_zeros(text: &[u8]) -> bool
    ensures { result ≡ has_zeros text.now }
{
    match text {
        [first, _, ..] => *first == b'0' && is_digits(text),
        _ => false,
    }
}

/// The number that a text of at most five digits writes, if it is one of these. `Mistake::Zeros` if it has zeros in front; else this
/// mistake if it isn't one of them.
pub(crate) fn number_between(
    low: u16,
    high: u16,
    text: &[u8],
    other: Mistake,
) -> Result<u16, Mistake>
    ensures { result ≡ number_between low high text.now other }
{
    if has_zeros(text) {
        return Err(Mistake::Zeros);
    }
    match read_number(text, 5) {
        Some(number) if u64::from(low) <= number && number <= u64::from(high) => Ok(number as u16),
        _ => Err(other),
    }
}
