//! Laws of snapshots. Each function does nothing; its clauses are what is proved.
ghost use Rattle.std.specs.Prelude.{◌≡◌, ◌↔◌, ◌+◌, ℕ, List, true, false, length, replicate};
ghost use Rattle.pf_form.specs.Bytes.Forms.{Spells};
ghost use Rattle.pf_state.specs.Layouts.States.{has_expiry};
ghost use Rattle.pf_core.specs.Durable.{Changes.{PlainDurable, kept_nothing}, Forms.durable_length};
ghost use Rattle.pf_store.specs.{Durables.{IsDurable, durable_has_form_in, example_kept, example_bytes}, Lengths.snapshot_length, Snapshots.{empty_form, zeros_of}};

/// In each version bytes are the snapshot of at most one thing kept. What has more rulesets or tables than allowed, or a rule, a tick
/// or a state that the version doesn't allow, has none.
pub fn snapshot_is_of_one_durable()
    ensures one { (version : ℕ) (d e : PlainDurable) (bytes : List ℕ) → IsDurable version d bytes → IsDurable version e bytes → d ≡ e }
    ensures formless { (version : ℕ) (d : PlainDurable) (bytes : List ℕ) → durable_has_form_in version d ≡ false → ¬ IsDurable version d bytes }
{}

/// How many bytes a snapshot has, in each version that has one: as many as in the newest one, or eight fewer where there is no tick.
pub fn snapshots_are_so_long()
    ensures own { (version : ℕ) (d : PlainDurable) (bytes : List ℕ) → IsDurable version d bytes → length bytes ≡ durable_length version d }
    ensures newest { (version : ℕ) (d : PlainDurable) (bytes : List ℕ) → IsDurable version d bytes → has_expiry version ≡ true
        → length bytes ≡ snapshot_length d }
    ensures older { (version : ℕ) (d : PlainDurable) (bytes : List ℕ) → IsDurable version d bytes → has_expiry version ≡ false
        → length bytes + 8 ≡ snapshot_length d }
{}

/// In each version the snapshot of nothing is its epoch in four bytes and twelve zeros, or twenty where there are ticks.
pub fn snapshot_of_nothing_is_its_epoch()
    ensures { (version epoch : ℕ) (bytes : List ℕ)
        → IsDurable version (kept_nothing epoch) bytes ↔ Spells (empty_form version) epoch bytes }
{}

/// The snapshot of nothing with epoch 0 is 16 zeros, or 24 in a version with ticks, and one of main's table `t` of 10.0.0.0/8 has these 43
/// bytes, or 51.
pub fn snapshots_have_these_bytes()
    ensures nothing { (version : ℕ) → IsDurable version (kept_nothing 0) (replicate (4 + zeros_of version) 0) }
    ensures bytes { (version : ℕ) → IsDurable version example_kept (example_bytes version) }
    ensures many { length (example_bytes 1) ≡ 43 }
    ensures more { length (example_bytes 3) ≡ 51 }
{}
