//! What may be asked of a Book, and changes nothing.
ghost use Rattle.std.specs.Prelude.{◌≡◌, true, false, MatchOption};
ghost use Rattle.pf_session.specs.Server.Inquiries.{is_inquiry};

use pf_core::{Command, HistoryCommand};

/// A command that a Book answers, and that changes nothing.
#[derive(Drop)]
pub struct Inquiry {
    command: Command,
    ghost asks: { is_inquiry command ≡ true },
}

impl Inquiry {
    /// A command as an inquiry. `None`: it isn't one, and may change something, or what is shown.
    pub(super) fn of(command: Command) -> Option<Inquiry>
        ensures { MatchOption result (is_inquiry command ≡ false) (λ q. q.command ≡ command) }
    {
        if is_inquiry(&command) {
            Some(Inquiry { command })
        } else {
            None
        }
    }

    /// The command.
    pub(super) fn into_command(self) -> Command
        ensures { result ≡ self.command }
    {
        self.command
    }
}

// Whether a command is a question, or asks how many changes there are.
fn is_inquiry(command: &Command) -> bool
    ensures { result ≡ is_inquiry command.now }
{
    match command {
        Command::Ask(_) | Command::History(HistoryCommand::Log) => true,
        _ => false,
    }
}
