//! Numbers in decimal digits.
ghost use Rattle.std.specs.{Prelude.{◌≡◌, ℕ, ◌≤◌, ◌+◌, ◌*◌, ◌-◌, Some}, List.list_all};
ghost use Rattle.pf_form.specs.Form.Numbers.{is_digit, decimal_value, number_of, of_bits, number_in};

/// The number that a word of 1 to `most` decimal digits writes, leading zeros allowed; `None` for any other word.
///
/// Also `None` if the number has more than 64 bits, which takes at least 20 digits.
#[tactic(auto, using(crate::specs::Laws::Form::Numbers::few_digits))]
pub fn read_number(word: &[u8], most: usize) -> Option<u64>
    ensures value { result ≡ number_in 64 most word.now }
    ensures short { most ≤ 19 → result ≡ number_of most word.now }
{
    if word.is_empty() || most < word.len() || !all_digits(word) {
        return None;
    }
    value_of(word)
}

fn all_digits(word: &[u8]) -> bool
    ensures { result ≡ list_all is_digit word.now }
{
    word.iter().all(|b| digit(*b))
}

fn digit(b: u8) -> bool
    ensures { result ≡ is_digit b }
{
    b.is_ascii_digit()
}

/// The number that digits write, unless it has more than 64 bits.
fn value_of(digits: &[u8]) -> Option<u64>
    ensures { result ≡ of_bits 64 (Some (decimal_value digits.now)) }
{
    let mut value = Some(0);
    for digit in digits {
        value = with_digit(value, *digit);
    }
    value
}

/// The number with one more digit at its end; `None` if that, or the number itself, has more than 64 bits.
fn with_digit(value: Option<u64>, digit: u8) -> Option<u64>
    ensures { (n : ℕ) → value ≡ of_bits 64 (Some n) → result ≡ of_bits 64 (Some (n * 10 + (digit - 48))) }
{
    let figure = u64::from(digit.saturating_sub(b'0'));
    value?.checked_mul(10)?.checked_add(figure)
}
