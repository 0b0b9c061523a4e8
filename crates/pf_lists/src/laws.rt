//! Laws of lists. Each function does nothing; its contract is what is proved.
ghost use Rattle.std.specs.Prelude.{◌≡◌, ◌+◌, ◌<◌, ℕ, List, [], Ok, length, slice_index_or, count_by};
ghost use Rattle.pf_rule.specs.Rules.{PlainRule};
ghost use Rattle.pf_lists.specs.{Product.{Word, spelled, count, numbered}, Multiplied.{rules_of, is_left_out}};

/// Lists have the product of their lengths of ways, and the digits of a way's number in mixed radix say which items it takes.
#[tactic(auto, using(crate::proofs::Ways::spelled_count, crate::proofs::Ways::spelled_digits))]
pub fn ways_have_numbers()
    ensures number { (lists : List (List (List Word))) → length (spelled lists) ≡ count lists }
    ensures digits { (lists : List (List (List Word))) (n : ℕ) → n < count lists →
        slice_index_or (spelled lists) n [] ≡ numbered lists n }
{}

/// There is one rule for each way, but for those that are left out since their families differ.
#[tactic(auto, using(crate::proofs::Ways::rules_count))]
pub fn rules_are_counted()
    ensures { (ways : List (List Word)) (rules : List PlainRule) → rules_of ways ≡ Ok rules →
        length rules + count_by is_left_out ways ≡ length ways }
{}
