//! What rulesets give for a packet, as far as it is known, and what references lead to by it.
ghost use Rattle.std.specs.{Prelude.{◌≡◌, ◌≢◌, ◌<◌, ◌≤◌, ◌+◌, ◌-◌, ◌++◌, T, ℕ, true, false, List, ◌∷◌, length, take, slice_index}, Ordering.{is_gt, is_ge}, FinMap.is_sorted, List.{list_any, Sorted.IsPartitionPoint}, Option.MatchOption};
ghost use Rattle.pf_addr.specs.declared.path.limits.TheConstants.{DEPTH_LIMIT};
ghost use Rattle.pf_addr.specs.{Path.Paths.{is_slash, same_path}, Path.Nested.{depth, front, is_child, is_single}};
ghost use Rattle.pf_anchor.specs.{Rulesets.leads_to, Evaluation.and_then, Known.{given, place_order, place_of, depth_order, placed_of, AreKept, AreOnward}};

use crate::evaluated::{Evaluated, Match};
use crate::rulesets::Placed;
use pf_addr::path::{Path, Reference};
use std::marker::Model;

/// A ruleset, what it gives for a packet, and what it and the later children of the same path give in turn. Contracts see it as a
/// `PlainKnown`.
#[derive(Drop)]
pub(crate) struct Known<'a> {
    placed: &'a Placed,
    /// How many components its path has.
    components: usize,
    gives: Evaluated<Match<'a>>,
    onward: Evaluated<Match<'a>>,
}

impl<'a> Model for Known<'a> {
    ghost use Rattle.pf_anchor.specs.Known.{PlainKnown};

    ghost Value = { PlainKnown };

    ghost view = { λ k. (k.placed.now, k.gives, k.onward) };

    ghost use Rattle.std.specs.Prelude.{◌≡◌};
    ghost use Rattle.pf_addr.specs.Path.Nested.{depth};

    ghost invariant = { λ k. k.components ≡ depth k.placed.now.0 };
}

// How many components a path has.
#[tactic(auto, using(crate::proofs::Siblings::slashes_counted, crate::proofs::Siblings::path_few))]
fn depth_of(path: &Path) -> usize
    ensures value { result ≡ depth path.now }
    ensures few { depth path.now ≤ DEPTH_LIMIT }
{
    let bytes = path.as_bytes();
    if bytes.is_empty() {
        return 0;
    }
    let slashes = bytes.iter().filter(|byte| **byte == b'/').count();
    slashes + 1
}

// Where the last component of a path begins.
fn name_start(bytes: &[u8]) -> usize
    ensures within { result ≤ length bytes.now }
    ensures slash { 0 < result → slice_index bytes.now (result - 1) ≡ 47 }
    ensures none { (k : ℕ) → result ≤ k → k < length bytes.now → slice_index bytes.now k ≢ 47 }
{
    let mut start = 0;
    for (place, byte) in bytes.iter().enumerate() {
        if *byte == b'/' {
            start = place + 1;
        }
    }
    start
}

fn has_slash(text: &[u8]) -> bool
    ensures { result ≡ list_any is_slash text.now }
{
    text.iter().any(|byte| *byte == b'/')
}

// Whether a text is one component: not empty, and without a slash.
fn is_single(text: &[u8]) -> bool
    ensures { result ≡ is_single text.now }
{
    !text.is_empty() && !has_slash(text)
}

// What comes after the front of a text.
fn rest_after<'a>(text: &'a [u8], front: &[u8]) -> Option<&'a [u8]>
    ensures { MatchOption result ((rest : List ℕ) → text.now ≢ front.now ++ rest) (λ rest. text.now ≡ front.now ++ rest.now) }
{
    text.strip_prefix(front)
}

// Whether another path is a child of the path whose child this one is.
fn is_sibling(path: &Path, other: &Path) -> bool
    ensures { (p : List ℕ) → is_child p path.now ≡ true → result ≡ is_child p other.now }
{
    let bytes = path.as_bytes();
    let start = name_start(bytes);
    let front = &bytes[..start];
    match rest_after(other.as_bytes(), front) {
        Some(name) => is_single(name),
        None => false,
    }
}

// What the children of a path give from behind a child of it on.
fn given_onward<'a>(placed: &Placed, following: &[Known<'a>]) -> Evaluated<Match<'a>>
    requires sorted { T (is_sorted depth_order (placed.now ∷ placed_of following.now)) }
    requires onward { AreOnward following.now }
    ensures { (p : List ℕ) → is_child p placed.now.0 ≡ true → result ≡ given (is_child p) following.now }
{
    let Some(next) = following.first() else {
        return Evaluated::Open(None);
    };
    if is_sibling(placed.key(), next.placed.key()) {
        next.onward.copied()
    } else {
        Evaluated::Open(None)
    }
}

impl<'a> Known<'a> {
    /// A ruleset of which it isn't known yet what it gives.
    pub(crate) fn unknown(placed: &'a Placed) -> Known<'a>
        ensures { result.0 ≡ placed.now }
    {
        Known {
            placed,
            components: depth_of(placed.key()),
            gives: Evaluated::Open(None),
            onward: Evaluated::Open(None),
        }
    }

    /// The ruleset.
    pub(crate) fn placed(&self) -> &'a Placed
        ensures { result.now ≡ self.now.0 }
    {
        self.placed
    }

    /// How many components its path has.
    pub(crate) fn depth(&self) -> usize
        ensures { result ≡ depth self.now.0.0 }
    {
        self.components
    }

    /// The same ruleset, where it is known what it gives, and what those behind it give.
    pub(crate) fn found(&self, gives: Evaluated<Match<'a>>, following: &[Known<'a>]) -> Known<'a>
        requires sorted { T (is_sorted depth_order (self.now.0 ∷ placed_of following.now)) }
        requires onward { AreOnward following.now }
        ensures placed { result.0 ≡ self.now.0 }
        ensures gives { result.1 ≡ gives.entry }
        ensures onward { (p : List ℕ) → is_child p self.now.0.0 ≡ true → result.2 ≡ and_then gives.entry (given (is_child p) following.now) }
    {
        let onward = gives.and_then(&given_onward(self.placed, following));
        Known {
            placed: self.placed,
            components: self.components,
            gives,
            onward,
        }
    }

    // Whether it comes before a place.
    fn is_before(&self, depth: usize, bytes: &[u8]) -> bool
        ensures { result ≡ is_gt (place_order (depth, bytes.now) (place_of self.now.0.0)) }
    {
        let key = self.placed.key();
        depth
            .cmp(&self.components)
            .then(bytes.cmp(key.as_bytes()))
            .is_gt()
    }

    // Whether it comes before a place or is there.
    fn is_up_to(&self, depth: usize, bytes: &[u8]) -> bool
        ensures { result ≡ is_ge (place_order (depth, bytes.now) (place_of self.now.0.0)) }
    {
        let key = self.placed.key();
        depth
            .cmp(&self.components)
            .then(bytes.cmp(key.as_bytes()))
            .is_ge()
    }
}

// How many of them come before a place: what is looked at is halved at each step.
fn count_before(known: &[Known<'_>], depth: usize, bytes: &[u8]) -> usize
    requires { T (is_sorted depth_order (placed_of known.now)) }
    ensures within { result ≤ length known.now }
    ensures place { IsPartitionPoint (λ k. is_gt (place_order (depth, bytes.now) (place_of k.0.0)) ≡ true)
        (λ k. is_gt (place_order (depth, bytes.now) (place_of k.0.0)) ≡ false) known.now result }
{
    known.partition_point(|one| one.is_before(depth, bytes))
}

// How many of them come before a place or are there.
fn count_up_to(known: &[Known<'_>], depth: usize, bytes: &[u8]) -> usize
    requires { T (is_sorted depth_order (placed_of known.now)) }
    ensures within { result ≤ length known.now }
    ensures place { IsPartitionPoint (λ k. is_ge (place_order (depth, bytes.now) (place_of k.0.0)) ≡ true)
        (λ k. is_ge (place_order (depth, bytes.now) (place_of k.0.0)) ≡ false) known.now result }
{
    known.partition_point(|one| one.is_up_to(depth, bytes))
}

/// What the ruleset at a path gives, if it is among them.
pub(crate) fn given_at<'a>(known: &[Known<'a>], path: &Path) -> Evaluated<Match<'a>>
    requires { T (is_sorted depth_order (placed_of known.now)) }
    ensures { result ≡ given (same_path path.now) known.now }
{
    let place = count_before(known, depth_of(path), path.as_bytes());
    let Some(one) = known.get(place) else {
        return Evaluated::Open(None);
    };
    if path.same(one.placed.key()) {
        one.gives.copied()
    } else {
        Evaluated::Open(None)
    }
}

// How many bytes the front of a path's children has at most.
const FRONT_LIMIT: usize = 256;

// Writes `more` after the first `len` bytes.
fn append(bytes: &mut [u8; FRONT_LIMIT], len: usize, more: &[u8])
    requires { len + length more.now ≤ FRONT_LIMIT }
    ensures { take (len + length more.now) bytes.new ≡ take len bytes.old ++ more.now }
{
    bytes[len..len + more.len()].copy_from_slice(more);
}

// Writes what the children of a path begin with: how many bytes it has.
#[tactic(auto, using(crate::proofs::Lengths::path_short))]
fn put_front(path: &Path, bytes: &mut [u8; FRONT_LIMIT]) -> usize
    ensures within { result ≤ FRONT_LIMIT }
    ensures front { take result bytes.new ≡ front path.now }
{
    let outer = path.as_bytes();
    if outer.is_empty() {
        return 0;
    }
    append(bytes, 0, outer);
    append(bytes, outer.len(), b"/");
    outer.len() + 1
}

// What the children of a path among them give, in turn. They stand together, and the first of them says it.
fn given_below<'a>(known: &[Known<'a>], path: &Path) -> Evaluated<Match<'a>>
    requires { AreKept known.now }
    ensures { result ≡ given (is_child path.now) known.now }
{
    let mut bytes = [0; FRONT_LIMIT];
    let len = put_front(path, &mut bytes);
    let place = count_up_to(known, depth_of(path) + 1, &bytes[..len]);
    let Some(first) = known.get(place) else {
        return Evaluated::Open(None);
    };
    if first.placed.key().is_child_of(path) {
        first.onward.copied()
    } else {
        Evaluated::Open(None)
    }
}

/// What the rulesets that a rule of the ruleset at a path leads to give in turn, if they are among them. It evaluates nothing.
#[inline(never)]
pub(crate) fn given_for<'a>(
    known: &[Known<'a>],
    path: &Path,
    reference: &Reference,
) -> Evaluated<Match<'a>>
    requires { AreKept known.now }
    ensures { result ≡ given (leads_to path.now reference.now) known.now }
{
    // borrowed, since a path is long to move
    let reached = path.joined(reference.names());
    let Some(base) = &reached else {
        return Evaluated::Open(None);
    };
    if reference.is_wildcard() {
        given_below(known, base)
    } else {
        given_at(known, base)
    }
}
