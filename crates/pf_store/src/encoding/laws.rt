//! Laws of what is recorded. Each function does nothing; its clauses are what is proved.
ghost use Rattle.std.specs.Prelude.{◌≡◌, true, List, ℕ, length};
ghost use Rattle.pf_store.specs.declared.encoding.recorded.Recorded.{Recorded};
ghost use Rattle.pf_store.specs.{Groups.{have_form_in, IsRecorded}, Lengths.payload_length};

/// In each version a payload is that of at most one group. That group has a form in that version, and the payload is as long as the kinds
/// and the lengths of its changes say.
#[tactic(auto, using(crate::proofs::RecordedForms::one_group, crate::proofs::RecordedForms::recorded_formed, crate::proofs::Sized::payload_long))]
pub fn payloads_tell_one_group()
    ensures one { (version : ℕ) (rs ss : List Recorded) (payload : List ℕ)
        → IsRecorded version rs payload → IsRecorded version ss payload → rs ≡ ss }
    ensures formed { (version : ℕ) (rs : List Recorded) (payload : List ℕ) → IsRecorded version rs payload → have_form_in version rs ≡ true }
    ensures length { (version : ℕ) (rs : List Recorded) (payload : List ℕ)
        → IsRecorded version rs payload → length payload ≡ payload_length rs }
{}
