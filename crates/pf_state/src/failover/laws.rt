//! Laws of messages and states. Each function does nothing; its contract is the law.
ghost use Rattle.pf_state.specs.Laws.Failover.{OneStepForEach, InsertsNothingDue, CutsIntoParts, ExportsMessages, TellsTheStates};
ghost use Rattle.pf_state.specs.Laws.Failover.{TakesOver, IsReadBack};

use crate::peer::written_message_is_read;

/// A message asks for one step for each of its records.
pub fn each_record_is_a_step()
    ensures { OneStepForEach }
{}

/// What a message inserts never expires, so no tick refuses it.
pub fn messages_insert_nothing_due()
    ensures { InsertsNothingDue }
{}

/// An export cuts the states into parts of [`crate::failover::EXPORT_RECORDS`], the last of what is left, and none is empty. Each of its
/// messages has the checksum of the rules here and one group of that many inserts, and fits the limit of a message.
pub fn exports_are_cut()
    ensures parts { CutsIntoParts }
    ensures messages { ExportsMessages }
{}

/// A peer that gets all states is asked to insert each, in order, and for nothing else. Its state has the name, the generation and the flow
/// that it has here, and no expiry. It is bound to its main rule if it was bound by the rules here and the peer has the same rules, and
/// enough of them; else to the default rule. If the peer has no states before, their number is never refused, and it then has these and no
/// others.
pub fn exports_tell_the_states()
    ensures reported { TellsTheStates }
    ensures taken { TakesOver }
{}

/// The bytes of an export, one message after the other, are read as these messages, and nothing is left.
pub fn exports_are_read_back()
    ensures { IsReadBack }
{
    written_message_is_read();
}
