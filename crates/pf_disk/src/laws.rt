//! The byte that this crate and the layers above speak of. The function's contract is the law, and its body does nothing.
ghost use Rattle.std.specs.Prelude.{◌≡◌};
ghost use Rattle.pf_disk.specs.declared.image.TheConstants.{OPEN_GATE};

/// An open gate is A5.
pub fn open_gate_is_a5()
    ensures { OPEN_GATE ≡ 165 }
{}
