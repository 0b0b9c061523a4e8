//! Masks of eight bits.
ghost use Rattle.std.specs.Prelude.{◌≡◌, ◌<◌, ℕ, MatchOption};
ghost use Rattle.pf_lanes.specs.Masks.{is_set, AreEnds};

/// The lowest and the highest bit that is set, if any is.
pub fn first_and_last(mask: u8) -> Option<(u32, u32)>
    ensures { MatchOption result (mask ≡ 0) (λ ends. AreEnds mask ends.0 ends.1) }
{
    if mask == 0 {
        return None;
    }
    Some((mask.trailing_zeros(), 7 - mask.leading_zeros()))
}

/// Whether a bit of a mask is set.
pub fn is_set(mask: u8, bit: usize) -> bool
    requires { bit < 8 }
    ensures { result ≡ is_set mask bit }
{
    mask >> bit & 1 == 1
}
