//! Laws of what cases come to. The function does nothing; its contract is the law.
ghost use Rattle.std.specs.Prelude.{◌≡◌, ◌+◌, ◌<◌, ◌^◌, List};
ghost use Rattle.pfd_conf.specs.declared.outcomes.Tried.{Tried};
ghost use Rattle.pfd_conf.specs.Reports.{tally, case_count};

/// Each case holds or doesn't: those that are told as passed and those that are told as failed are all, if there are fewer than 2^64.
pub fn every_case_is_counted_once()
    ensures { (ts : List Tried) → case_count ts < 2 ^ 64 → (tally ts).passed + (tally ts).failed ≡ case_count ts }
{}
