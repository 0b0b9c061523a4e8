//! Tests by which a value may be wanted.
ghost use Rattle.std.specs.Prelude.{◌≡◌};
ghost use Rattle.pf_rule.specs.Value.Tests.{holds};

/// Whether a value is the one that a test wants. A missing test holds.
pub fn is_wanted<T: PartialEq>(wanted: &Option<T>, value: &T) -> bool
    ensures { result ≡ holds wanted.now (λ x. T.eq x value.now) }
{
    match wanted {
        Some(wanted) => *wanted == *value,
        None => true,
    }
}
