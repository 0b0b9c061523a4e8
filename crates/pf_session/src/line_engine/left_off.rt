//! How a session leaves off, and when.
ghost use Rattle.std.specs.Prelude.{⊤, IsTrue};

/// How a session left off.
#[derive(Clone, Copy, Debug, PartialEq, Eq)]
pub enum LeftOff {
    /// It paused, and can go on.
    Paused,
    /// Its reader is at its end.
    Ended,
}

/// What may have sessions pause between two lines.
pub trait Pause {
    /// A pause may be due.
    ghost may_pause: { Self → Type 0 } = { λ pause. ⊤ };

    /// Whether the session is to pause, before it reads more or answers another line.
    fn is_due(&self) -> bool
        ensures { IsTrue result → may_pause self.now };
}

/// What never has a session pause.
#[derive(Clone, Copy, Debug)]
pub struct NoPause;

impl Pause for NoPause {
    ghost may_pause = { λ pause. ⊥ };

    fn is_due(&self) -> bool {
        false
    }
}
