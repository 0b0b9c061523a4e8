//! Laws of streams. Each function does nothing; its contract is the law.
ghost use Rattle.std.specs.{Prelude.{◌≡◌, ◌++◌, ◌↔◌, [], ℕ, List, Result, Ok}, List.concat};
ghost use Rattle.pf_state.specs.declared.{peer.fault.OneFault.OneFault, peer.fault.PeerFault.PeerFault, peer.message.Message.Message};
ghost use Rattle.pf_form.specs.Bytes.Forms.{Spells};
ghost use Rattle.pf_state.specs.Laws.Messages as example;
ghost use Rattle.pf_state.specs.Peer.Records.{PlainInsert, IsInsert, insert_form, plain_insert, insert_in, insert_bytes};
ghost use Rattle.pf_state.specs.{Peer.Messages.IsMessage, Peer.One.IsOne, Peer.Streams.{Ending, Faulty, Reads, Feeds}};
ghost use Rattle.pf_state.specs.Peer.Written.{message_bytes, CanBeWritten};

use crate::peer::fields::{MESSAGE_HEADER, MESSAGE_VERSION};
use crate::peer::message::{CLEAR, DELETE, INSERT, MESSAGE_LIMIT};
use crate::peer::record::RECORD_LENGTH;

/// The bytes so far have one reading: one list of messages, and one ending.
#[tactic(auto, using(crate::proofs::OneReading::one_reading))]
pub fn stream_has_one_reading()
    ensures { (bytes : List ℕ) (ms ns : List Message) (d e : Ending) → Reads bytes ms d → Reads bytes ns e → (ms ≡ ns) × (d ≡ e) }
{}

/// Any bytes have a reading: some list of messages, and some ending.
#[tactic(auto, using(crate::proofs::SomeReading::some_reading))]
pub fn stream_has_a_reading()
    ensures { (bytes : List ℕ) → (ms : List Message) × (e : Ending) × Reads bytes ms e }
{}

/// A fault stays: no further bytes change it or the messages before it.
#[tactic(auto, using(crate::proofs::Pieces::fault_stays))]
pub fn fault_stays_the_same()
    ensures { (bytes more : List ℕ) (ms : List Message) (f : PeerFault) → Reads bytes ms (Faulty f) → Reads (bytes ++ more) ms (Faulty f) }
{}

/// Reading a stream in pieces gives the same as reading it at once, however it is cut.
#[tactic(auto, using(crate::proofs::Pieces::pieces_join))]
pub fn pieces_make_one_stream()
    ensures { (pieces : List (List ℕ)) (ms : List Message) (e : Ending) → Feeds [] pieces ms e → Reads (concat pieces) ms e }
{}

/// A written message is read back as that message.
pub fn written_message_is_read()
    ensures { (m : Message) → CanBeWritten m → IsMessage (message_bytes m) m }
{}

/// The bytes of an insert have its form, and no two inserts have the same plain data.
#[tactic(auto, using(crate::proofs::Inserts::insert_back))]
pub fn insert_has_its_form()
    ensures written { (i : PlainInsert) → IsInsert i → Spells insert_form (plain_insert i) (insert_bytes i) }
    ensures whole { (i : PlainInsert) → insert_in (plain_insert i) ≡ i }
{}

/// Bytes that have to be one message have one answer, and it is a message exactly if they are that message.
pub fn one_message_has_one_answer()
    ensures some { (bytes : List ℕ) → (r : Result Message OneFault) × IsOne bytes r }
    ensures one { (bytes : List ℕ) (r s : Result Message OneFault) → IsOne bytes r → IsOne bytes s → r ≡ s }
    ensures message { (bytes : List ℕ) (m : Message) → IsOne bytes (Ok m) ↔ IsMessage bytes m }
{}

/// The numbers of a message's form that definitions and code cite by name.
pub fn numbers_of_messages_are_these()
    ensures limit { MESSAGE_LIMIT ≡ 65_535 }
    ensures header { MESSAGE_HEADER ≡ 20 }
    ensures record { RECORD_LENGTH ≡ 64 }
    ensures version { MESSAGE_VERSION ≡ 5 }
    ensures actions { (INSERT ≡ 1) × (DELETE ≡ 6) × (CLEAR ≡ 0) }
{}

/// A message with an insert each way, one of each family, a delete and a clear has these bytes, and they are that message.
#[tactic(auto, using(crate::proofs::Computed::example_written, crate::proofs::Computed::example_read))]
pub fn one_message_has_these_bytes()
    ensures written { message_bytes example.message ≡ example.bytes }
    ensures read { IsMessage example.bytes example.message }
{}
