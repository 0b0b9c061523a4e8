//! The ways of taking one item of each list.
ghost use Rattle.std.specs.Prelude.{◌≡◌, ◌<◌, ◌-◌, ◌^◌, ◌++◌, min, IfOk, OnOk};
ghost use Rattle.pf_form.specs.Form.Words.{texts};
ghost use Rattle.pf_lists.specs.Product.{count, numbered};

use pf_tokens::{Bytes, Items};
use std::alloc::{AllocError, Global};

/// The words that one item of a list adds to a rule, as pf_rule reads them; none if it tests nothing.
pub type Words = Items<Bytes>;

/// The lists of a rule, in the order of its words.
pub type Lists = Items<Items<Words>>;

/// How many ways there are, or the greatest number if there are more.
#[tactic(auto, using(crate::proofs::Turns::capped_turn), unfolding(crate::specs::Product::count))]
pub(crate) fn count_of(lists: &[Items<Words>]) -> usize
    ensures { result ≡ min (count lists.now) (2 ^ 64 - 1) }
{
    let mut count: usize = 1;
    for list in lists {
        count = count.saturating_mul(list.len());
    }
    count
}

/// Appends the words of an item.
#[tactic(auto, using(crate::proofs::Turns::word_put))]
fn push_words<'a>(words: &mut Vec<&'a [u8]>, item: &'a Words) -> Result<(), AllocError>
    ensures { OnOk result (texts words.new.items ≡ texts words.old.items ++ item.now) }
{
    for word in item.as_slice() {
        words.push(word.as_slice())?;
    }
    Ok(())
}

/// The words of the way with this number, of so many.
pub(crate) fn words_of<'a>(
    alloc: Global,
    lists: &'a [Items<Words>],
    number: usize,
    ways: usize,
) -> Result<Vec<&'a [u8]>, AllocError>
    requires all { ways ≡ count lists.now }
    requires one { number < ways }
    ensures { IfOk result (λ v. texts v.items ≡ numbered lists.now number) }
{
    let mut words = Vec::new(alloc);
    let mut rest = ways;
    let mut left = number;
    for list in lists {
        rest /= list.len();
        push_words(&mut words, &list.as_slice()[left / rest])?;
        left %= rest;
    }
    Ok(words)
}
