//! Laws of the texts. Each function does nothing; its contract is the law.
ghost use Rattle.std.specs.Prelude.{◌≡◌, [], ◌∷◌, codes, ℕ, ◌^◌, ◌<◌, List, Option, Result, length, Some, Ok, Err};
ghost use Rattle.pf_form.specs.declared.form.fault.Kind.{Kind};
ghost use Rattle.hex.specs.Hex.{IsBytes, encode_lower, encode_upper};
ghost use Rattle.pf_state.specs.declared.peer.message.Message.{Message};
ghost use Rattle.pf_state.specs.Peer.Written.{message_bytes, CanBeWritten};
ghost use Rattle.pf_core.specs.declared.{command.Command.TheVariants.States, command.StateCommand.TheVariants.Peer, reply.Refusal.Refusal, reply.Refusal.TheVariants.BadLine};
ghost use Rattle.pf_addr.specs.Laws.Spelling.{IsNetwork};
ghost use Rattle.pf_form.specs.Form.{Words.Word, Forms.RefusedAt};
ghost use Rattle.pf_ticket.specs.declared.ticket.Ticket.{Ticket};
ghost use Rattle.pf_line.specs.declared.{request.Request.Request, request.Request.TheVariants.Run, line.TheConstants.LINE_LIMIT, ticket.TheConstants.DIGIT_LIMIT, state.TheConstants.ID_DIGIT_LIMIT};
ghost use Rattle.pf_line.specs.{Grammar.{Spoken, line as the_grammar}, Lines.{line_at, Means, SpellsLine}, Reply.Texts.{ticket_text, entry_text}, Tickets.{part_of, ticket_of, IsPart, SpellsTicket}, States.{id_of, IsId, bytes_of}, Entries.{entry_of, SpellsEntry}, Laws.Exports.ExportsAreRead};
ghost use Rattle.pf_table.specs.Entries.{PlainEntry};

/// A ticket is read from a word exactly if the word spells it.
#[tactic(auto, using(crate::proofs::SpelledTickets::read_is_spelled))]
pub fn tickets_are_read_as_spelled()
    ensures read { (t : Ticket) (w : Word) → ticket_of w ≡ Some t → SpellsTicket t w }
    ensures spelled { (t : Ticket) (w : Word) → SpellsTicket t w → ticket_of w ≡ Some t }
{}

/// A written ticket is read back as that ticket.
#[tactic(auto, using(crate::proofs::SpelledTickets::ticket_again))]
pub fn written_ticket_is_read_again()
    ensures { (t : Ticket) → t.epoch < 2 ^ 32 → t.count < 2 ^ 32 → ticket_of (ticket_text t) ≡ Some t }
{}

/// An entry of a table is read from a word exactly if the word spells it.
#[tactic(auto, using(crate::proofs::SpelledEntries::read_is_spelled))]
pub fn entries_are_read_as_spelled()
    ensures read { (w : Word) (row : PlainEntry) → entry_of w ≡ Ok row → SpellsEntry w row }
    ensures spelled { (w : Word) (row : PlainEntry) → SpellsEntry w row → entry_of w ≡ Ok row }
{}

/// A written entry is read back as that entry.
#[tactic(auto, using(crate::proofs::SpelledEntries::entry_again))]
pub fn written_entry_is_read_again()
    ensures { (row : PlainEntry) → IsNetwork row.0 → entry_of (entry_text row) ≡ Ok row }
{}

/// A line means one thing: it is silent, a request, or a refusal.
pub fn a_line_has_one_meaning()
    ensures { (line : List ℕ) (r s : Result (Option Request) Refusal) → Means (line_at line) r → Means (line_at line) s → r ≡ s }
{}

/// The words of a line are refused at one place, and for one reason.
pub fn a_refusal_is_one()
    ensures { (ws : List Word) (m n : ℕ) (j k : Kind) → RefusedAt Spoken the_grammar ws m j →
        RefusedAt Spoken the_grammar ws n k → (m ≡ n) × (j ≡ k) }
{}

/// A line that is too long is bad, whatever its bytes are.
#[tactic(auto, using(crate::specs::Lines::long_line))]
pub fn long_line_is_bad()
    ensures { (line : List ℕ) → LINE_LIMIT < length line → line_at line ≡ Err BadLine }
{}

/// A state's number is read from a word exactly if the word spells it, and so is its creator.
pub fn names_of_states_are_read_as_written()
    ensures id { (w : Word) (n : ℕ) → id_of w ≡ Some n → IsId w n }
    ensures written_id { (w : Word) (n : ℕ) → IsId w n → id_of w ≡ Some n }
    ensures creator { (w : Word) (n : ℕ) → part_of w ≡ Some n → IsPart w n }
    ensures written_creator { (w : Word) (n : ℕ) → IsPart w n → part_of w ≡ Some n }
{}

/// Bytes are read back from their hexadecimal, with letters of either case.
pub fn written_bytes_are_read_again()
    ensures lower { (bytes : List ℕ) → IsBytes bytes → bytes_of (encode_lower bytes) ≡ Ok bytes }
    ensures upper { (bytes : List ℕ) → IsBytes bytes → bytes_of (encode_upper bytes) ≡ Ok bytes }
{}

/// The words of an exported message say to act on that message. For a table's states, under a checksum of 16 bytes, each line of the
/// export is within the limit of a line, and means to act on its message.
pub fn exported_message_is_read_again()
    ensures lines { ExportsAreRead }
    ensures words { (m : Message) → CanBeWritten m → IsBytes (message_bytes m) →
        SpellsLine (Run (States (Peer m))) (codes "peer" ∷ encode_lower (message_bytes m) ∷ []) }
{}

/// A line has at most 4,096 bytes, a ticket's epoch and its count have 1 to 10 digits each, and a state's number 1 to 20.
pub fn the_limits_of_lines()
    ensures line { LINE_LIMIT ≡ 4096 }
    ensures ticket { DIGIT_LIMIT ≡ 10 }
    ensures state { ID_DIGIT_LIMIT ≡ 20 }
{}
