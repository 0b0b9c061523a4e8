//! Laws of flows, states and steps. Each function does nothing; its contract is the law.
ghost use Rattle.std.specs.Prelude.{◌≡◌};
ghost use Rattle.pf_state.specs.Laws.States.{OneFlowOrAnother, InterfaceIsNoPart, OneStateAFlow, KeepsWhatIsThere, StaleByGeneration};
ghost use Rattle.pf_state.specs.Laws.States.{ReadsWhatStepsLeave, NamesAlike, LastStepStands, StaysStates, RefusedByAnyStep, CountsAddUp};
ghost use Rattle.pf_state.specs.Laws.States.{BindsExactly, TellsTheNumber, TicksTakeOutTheDue, StepsLeaveNoneDue};

use crate::binding::ALL_ONES;
use crate::failover::EXPORT_RECORDS;
use crate::layouts::EXPIRY_FROM;
use crate::limits::STATE_LIMIT;

/// The numbers that definitions and code cite by name: how many states there may be, what means no rule, how many states a message of an
/// export has, and the first version whose stored states have expiries. Those of messages are in
/// [`crate::peer::numbers_of_messages_are_these`].
pub fn numbers_are_these()
    ensures states { STATE_LIMIT ≡ 65_536 }
    ensures no_rule { ALL_ONES ≡ 4_294_967_295 }
    ensures exported { EXPORT_RECORDS ≡ 31 }
    ensures expiry { EXPIRY_FROM ≡ 3 }
{}

/// Two flows are one if they are equal, or one is the other turned: this is reflexive, symmetric and transitive. The interface of a packet
/// is no part of its flow.
pub fn flows_are_one_or_another()
    ensures alike { OneFlowOrAnother }
    ensures interface { InterfaceIsNoPart }
{}

/// In a table at most one state has a flow, and it is the one that is found.
#[tactic(auto, using(crate::proofs::Tables::one_state_a_flow))]
pub fn one_state_a_flow()
    ensures { OneStateAFlow }
{}

/// An insert that is stale or clashes changes nothing. A delete takes out what is there whatever its generation, and a clear takes out
/// exactly one creator's states. Whether an insert of a known name is stale depends only on its generation.
#[tactic(auto, using(crate::proofs::Leaves::keeps_what_is_there, crate::proofs::Leaves::steps_read))]
pub fn steps_change_what_they_name()
    ensures keeps { KeepsWhatIsThere }
    ensures stale { StaleByGeneration }
    ensures reads { ReadsWhatStepsLeave }
    ensures names { NamesAlike }
{}

/// After a batch each name has what the last step that affected it left; the states are in order, no name and no flow occurs twice, and
/// there are no more than the limit. A batch is refused exactly if some step would leave too many.
pub fn batches_leave_states()
    ensures last { LastStepStands }
    ensures stays { StaysStates }
    ensures refused { RefusedByAnyStep }
{}

/// A tick takes out exactly the states that are due, and leaves all others as they are. Where no state is due, none is after steps that
/// insert none that is.
pub fn ticks_take_out_the_due()
    ensures due { TicksTakeOutTheDue }
    ensures steps { StepsLeaveNoneDue }
{}

/// Each insert is counted once, and the number of states changes by what is counted.
#[tactic(auto, using(crate::proofs::Counting::counts_add_up))]
pub fn counts_add_up()
    ensures { CountsAddUp }
{}

/// A state is bound to a main rule only if the checksum that came with it is that of the main rules here, no anchor is named, and the
/// number is that of one of them. An export gives that number only while these rules are in place.
pub fn states_are_bound_by_sums()
    ensures binds { BindsExactly }
    ensures tells { TellsTheNumber }
{}
