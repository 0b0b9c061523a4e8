//! How long a connection may be silent.
ghost use Rattle.std.specs.Prelude.{◌≡◌, ◌*◌, ◌≤◌, ◌+◌, IsTrue, ◌↔◌};

use std::time::Duration;

// A read or a write that waits looks up so many times a second.
const LOOKS: u32 = 20;

/// How long a connection may be silent: after so many spans without a byte it has been for too long.
#[derive(Clone, Copy, Debug)]
pub(crate) struct Patience {
    // how long one read or write waits; without end, if there is none
    span: Option<Duration>,
    // 0: it may be silent without end
    spans: u64,
}

impl Patience {
    /// That of so many seconds, or without end where there are none. `looks`: reads and writes look up meanwhile.
    pub(crate) fn new(seconds: u32, looks: bool) -> Patience {
        if looks {
            return Patience {
                span: Some(Duration::from_millis(50)),
                spans: u64::from(seconds) * u64::from(LOOKS),
            };
        }
        if seconds == 0 {
            return Patience {
                span: None,
                spans: 0,
            };
        }
        Patience {
            span: Some(Duration::from_secs(u64::from(seconds))),
            spans: 1,
        }
    }

    /// Without end, where reads look up after a fiftieth of a second.
    pub(crate) fn brief() -> Patience {
        Patience {
            span: Some(Duration::from_millis(20)),
            spans: 0,
        }
    }

    /// How long one read or write waits.
    pub(crate) fn span(&self) -> Option<Duration> {
        self.span
    }

    /// For how many spans it was silent, with one more. They aren't counted where it may be silent without end.
    pub(crate) fn count(&self, silent: u64) -> u64 {
        if self.spans == 0 {
            silent
        } else {
            silent.saturating_add(1)
        }
    }

    /// Whether it was silent for too long, if it was for so many spans.
    pub(crate) fn is_over(&self, silent: u64) -> bool {
        self.spans != 0 && self.spans <= silent
    }
}
