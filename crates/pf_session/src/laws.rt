//! Laws of a Book and of sessions. Each function does nothing; its contract is the law.
ghost use Rattle.std.specs.Prelude.{ℕ};
ghost use Rattle.pf_session.specs.{Laws.{Acknowledged.{AcknowledgesNoLess, AcknowledgesReplied, FindsAcknowledged}, GoingOn.{BeginsAlone, GoesOnElsewhere, GoesOnHere, IsWhole, StreamsBeginAlone, StreamsGoOnElsewhere}, Receipts.{SitsWithin, TakesWithin}, Sittings.{LearnsNoLess, LearnsApplied}, Streams.AreOneStream, Takeover.{TakesOver, FreshTakesOver}}, Server.{Askings.AsksLines, Sittings.TakesLines}};

use crate::server::Gate;
use pf_disk::Disk;

/// A Book without states that is given the lines of a peer's export, one by one, holds the states that were exported, unless a line was
/// refused for want of memory or of room on the device, or for a fault of it. Each has its name, its generation and its flow, never
/// expires, and is bound to its rule only if the main rules there and here have one checksum, else to the default rule. So does a fresh
/// Book whose history has room for as many changes.
pub fn takes_over<D: Disk>()
    ensures any { TakesOver D.fault_count }
    ensures fresh { FreshTakesOver D.fault_count }
{}

/// What the seer of a session over a shared Book has learnt after a line begins with what it had learnt before it. After a change that
/// a reply says is applied it begins with the whole history at that reply, which has as many changes as the change's number says.
/// By what `Seer::judge` promises, each verdict from then on is by a front of the history that begins with it.
pub fn sessions_learn<G: Gate>()
    ensures kept { (gate : G) (session : ℕ) → LearnsNoLess (G.passed gate session) }
    ensures applied { LearnsApplied }
{}

/// A change that a session's reply over a shared Book says is applied or stored is acknowledged, with all before it, and stays so: the
/// receipt of that call and of each later one says no fewer, and each later call finds no fewer, whatever else was asked in between.
pub fn what_is_replied_stays_acknowledged<G: Gate>()
    ensures reported { AcknowledgesReplied }
    ensures stays { (gate : G) (session : ℕ) → AcknowledgesNoLess (G.passed gate session) }
    ensures found { FindsAcknowledged }
{}

/// Each reply to a session or a peer over a shared Book comes of a history with which that of the last receipt begins: the front of the
/// reply's receipt begins that of the receipt that the caller then has, as `continue_session` and `continue_peer` give it. So does the front
/// of the receipt that it handed in first. A peer's message has no receipt if its group was refused whole.
pub fn the_last_receipt_has_all<G: Gate>()
    ensures sessions { (gate : G) (session : ℕ) → SitsWithin (G.passed gate session) }
    ensures peers { TakesWithin }
{}

/// However reads cut a peer's stream, the messages of all its pieces, in their order, and its fault, if it has one, are what its bytes say
/// as a whole.
pub fn pieces_are_one_stream()
    ensures { AreOneStream }
{}

/// A session that pauses in one opening and goes on in the next writes the replies to its lines, in order, as if it had never paused: what it
/// had read and not answered is read first. Its lines are numbered on. So it is with any number of openings, since the next one may be
/// several; and the text of a session that came to its reader's end is the replies to the lines of all that it read.
///
/// What each opening gave is what the one before kept, and has all that the session's seer saw and learnt before, and all that was
/// acknowledged at its last reply there. So a `judge` behind a pause is answered by no less than one before it.
///
/// A session that pauses and goes on in the same opening, as one does that judges while its opening ends, is as if it hadn't paused.
pub fn sessions_go_on<G: Gate>()
    ensures alone { (gate : G) (session : ℕ) → BeginsAlone (TakesLines (G.passed gate session)) }
    ensures on { (gate : G) (session : ℕ) → GoesOnElsewhere (TakesLines (G.passed gate session)) }
    ensures here { (gate : G) (session : ℕ) → GoesOnHere (TakesLines (G.passed gate session)) }
    ensures whole { (gate : G) (session : ℕ) → IsWhole (TakesLines (G.passed gate session)) }
    ensures asking_alone { (gate : G) (session : ℕ) → BeginsAlone (AsksLines (G.passed gate session)) }
    ensures asking_on { (gate : G) (session : ℕ) → GoesOnElsewhere (AsksLines (G.passed gate session)) }
    ensures asking_here { (gate : G) (session : ℕ) → GoesOnHere (AsksLines (G.passed gate session)) }
    ensures asking_whole { (gate : G) (session : ℕ) → IsWhole (AsksLines (G.passed gate session)) }
{}

/// So does a peer's stream: what came of a message before a pause is the begin of that message behind it.
pub fn streams_go_on()
    ensures alone { StreamsBeginAlone }
    ensures on { StreamsGoOnElsewhere }
{}
