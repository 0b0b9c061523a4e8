//! Laws of the program, and those of sessions. Each function does nothing; its contract is the law.
ghost use Rattle.std.specs.Prelude.{◌≡◌, ℕ, List, Ok, Some, false, not};
ghost use Rattle.pf_core.specs.declared.command.Command.{Command};
ghost use Rattle.pf_line.specs.{declared.request.Request.TheVariants.{Run, ShowStatus, ShowAnchors}, Lines.{line_at, Means}};
ghost use Rattle.pf_session.specs.Server.{Askings.is_denied, Inquiries.is_inquiry};
ghost use Rattle.pf_session.specs.declared.line_engine.answer_line.TheConstants.{LOOKED_AT};
ghost use Rattle.pfd_words.specs.declared.words.TheConstants.{HISTORY_LIMIT, MEMORY_SIZE, MOST_HISTORY, MOST_WORKERS, WORKERS};

pub use pf_session::laws::{
    sessions_learn, takes_over, the_last_receipt_has_all, what_is_replied_stays_acknowledged,
};

/// Of the lines that say a command, a session that may only ask is denied just those whose command isn't a question, nor asks how many
/// changes there are. One that asks for the status or for anchors isn't denied.
pub fn what_asks_is_let_in()
    ensures commands { (line : List ℕ) (c : Command) → Means (line_at line) (Ok (Some (Run c))) → is_denied line ≡ not (is_inquiry c) }
    ensures status { (line : List ℕ) → Means (line_at line) (Ok (Some ShowStatus)) → is_denied line ≡ false }
    ensures anchors { (line path : List ℕ) → Means (line_at line) (Ok (Some (ShowAnchors path))) → is_denied line ≡ false }
{}

/// If the words don't say, the history of a session may have 65,536 changes, of 1,048,576 at most, and its disk has 1,048,576 bytes; a
/// server has 4 workers, of 64 at most. 4,097 bytes of a line are looked at.
pub fn the_limits_of_sessions()
    ensures history { HISTORY_LIMIT ≡ 65536 }
    ensures most { MOST_HISTORY ≡ 1048576 }
    ensures size { MEMORY_SIZE ≡ 1048576 }
    ensures workers { WORKERS ≡ 4 }
    ensures most_workers { MOST_WORKERS ≡ 64 }
    ensures line { LOOKED_AT ≡ 4097 }
{}
