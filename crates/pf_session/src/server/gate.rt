//! What each line passes.
ghost use Rattle.std.specs.Prelude.{ℕ, ⊤};

/// What a session passes before each of its lines, outside the Book's lock: a place to hold a session at a line, to count, or to slow down.
/// The line is answered once `pass` returns.
pub trait Gate {
    /// What a pass shows of the gate, a session and a line.
    ghost passed: { Self → ℕ → ℕ → Type 0 } = { λ gate session line. ⊤ };

    /// The session of this number comes to its line of this number. Sessions and lines are numbered from 1; the number of a line stays at
    /// 4,294,967,295 once it has come so far.
    fn pass(&self, session: u32, line: u32)
        ensures { passed self.now session line };

    /// How many sessions are open, as a status says it.
    fn sessions(&self) -> u32;
}

/// A gate that is always open, and knows of one session.
#[derive(Clone, Copy, Debug)]
pub struct OpenGate;

impl Gate for OpenGate {
    fn pass(&self, _session: u32, _line: u32) {}

    fn sessions(&self) -> u32 {
        1
    }
}
