//! Entries under their second keys.
ghost use Rattle.std.specs.{Prelude.{◌≡◌, IfOk}, List.Sorted.{IsPermutation, IsSortedBy}, Ordering.is_lt};
ghost use Rattle.pf_map.specs.InOrder.{in_order};

use crate::entry::{Holder, KeyValue};
use pf_key::Key;
use std::alloc::{AllocError, Global};
use std::cmp::Ordering;
use std::marker::{Model, PhantomData};

/// A value that has a second key beside its name, as a state has its flow.
pub trait Flowed<F: Key>: Drop {
    /// The second key.
    ghost flow: { Self → F };

    /// The second key.
    fn flow(&self) -> &F
        ensures { result.now ≡ flow self.now };
}

/// An entry as the map of flows holds it: its value has the key. Contracts see it as the entry.
pub struct ByFlow<N: Key, F: Key, V: Flowed<F>> {
    entry: KeyValue<N, V>,
    of: PhantomData<F>,
}

impl<N: Key, F: Key, V: Flowed<F>> Drop for ByFlow<N, F, V> {
    fn drop(self) {
        let ByFlow { entry: _, of: _ } = self;
    }
}

impl<N: Key, F: Key, V: Flowed<F>> Model for ByFlow<N, F, V> {
    ghost Value = { N × V };

    ghost view = { λ e. e.entry };
}

impl<N: Key, F: Key, V: Flowed<F>> ByFlow<N, F, V> {
    /// The same entry, with one owner more. `AllocError`: it can't have another.
    pub(crate) fn new(entry: &KeyValue<N, V>) -> Result<ByFlow<N, F, V>, AllocError>
        ensures { IfOk result (λ e. e ≡ entry.now) }
    {
        Ok(ByFlow {
            entry: entry.shared()?,
            of: PhantomData,
        })
    }

    /// The entry.
    pub(crate) fn entry(&self) -> &KeyValue<N, V>
        ensures { result.now ≡ self.now }
    {
        &self.entry
    }
}

impl<N: Key, F: Key, V: Flowed<F>> Holder<F, KeyValue<N, V>> for ByFlow<N, F, V> {
    ghost pair = { λ e. (V.flow e.1, e) };

    fn share(&self) -> Result<ByFlow<N, F, V>, AllocError> {
        ByFlow::new(&self.entry)
    }

    fn held_key(&self) -> &F {
        self.entry.value().flow()
    }
}

/// An entry, and beside it the hint of its flow, so that most comparisons of a sort follow neither entry. Contracts see it as the
/// entry.
pub struct HintedFlow<N: Key, F: Key, V: Flowed<F>> {
    hint: u64,
    flow: ByFlow<N, F, V>,
}

impl<N: Key, F: Key, V: Flowed<F>> Drop for HintedFlow<N, F, V> {
    fn drop(self) {
        let HintedFlow { hint: _, flow: _ } = self;
    }
}

impl<N: Key, F: Key, V: Flowed<F>> Model for HintedFlow<N, F, V> {
    ghost use Rattle.std.specs.Prelude.{◌≡◌};

    ghost Value = { N × V };

    ghost view = { λ e. e.flow };

    ghost invariant = { λ e. e.hint ≡ F.hint (V.flow e.flow.1) };
}

impl<N: Key, F: Key, V: Flowed<F>> HintedFlow<N, F, V> {
    // The same entry, with one owner more. `AllocError`: it can't have another.
    fn new(entry: &KeyValue<N, V>) -> Result<HintedFlow<N, F, V>, AllocError>
        ensures { IfOk result (λ e. e ≡ entry.now) }
    {
        Ok(HintedFlow {
            hint: Key::hint(entry.value().flow()),
            flow: ByFlow::new(entry)?,
        })
    }

    // Which of two flows comes first. They are compared only where their hints tie.
    fn order(&self, other: &HintedFlow<N, F, V>) -> Ordering
        ensures { result ≡ F.order (V.flow self.now.1) (V.flow other.now.1) }
    {
        if self.hint == other.hint {
            Key::order(self.flow.held_key(), other.flow.held_key())
        } else {
            self.hint.cmp(&other.hint)
        }
    }

    // Without the hint.
    fn into_flow(self) -> ByFlow<N, F, V>
        ensures { result ≡ self }
    {
        let HintedFlow { hint: _, flow } = self;
        flow
    }
}

// These values with the hints of their flows.
fn each_hinted<N: Key, F: Key, V: Flowed<F>>(
    alloc: Global,
    entries: &[KeyValue<N, V>],
) -> Result<Vec<HintedFlow<N, F, V>>, AllocError>
    ensures { IfOk result (λ v. v.items ≡ entries.now) }
{
    let mut hinted = Vec::with_capacity(alloc, entries.len())?;
    for entry in entries {
        hinted.push(HintedFlow::new(entry)?)?;
    }
    Ok(hinted)
}

/// These values in the order of their flows. `AllocError`: nothing is made.
pub(crate) fn in_order_of_flows<N: Key, F: Key, V: Flowed<F>>(
    alloc: Global,
    entries: &[KeyValue<N, V>],
) -> Result<Vec<HintedFlow<N, F, V>>, AllocError>
    ensures same { IfOk result (λ v. IsPermutation entries.now v.items) }
    ensures sorted { IfOk result (λ v. IsSortedBy (λ a b. is_lt (F.order (V.flow a.1) (V.flow b.1))) v.items) }
{
    let mut hinted = each_hinted(alloc, entries)?;
    hinted.sort_by(|a, b| a.order(b))?;
    Ok(hinted)
}

/// Whether the flow of each comes before that of the next.
#[tactic(auto, using(crate::proofs::Gathered::few_turned))]
pub(crate) fn are_apart<N: Key, F: Key, V: Flowed<F>>(hinted: &[HintedFlow<N, F, V>]) -> bool
    ensures { result ≡ in_order (λ a b. is_lt (F.order (V.flow a.1) (V.flow b.1))) hinted.now }
{
    let mut rest = hinted;
    while rest.len() > 1 {
        if !rest[0].order(&rest[1]).is_lt() {
            return false;
        }
        rest = &rest[1..];
    }
    true
}

/// The same as the map of flows holds them. `AllocError`: nothing is left of them.
pub(crate) fn each_by_flow<N: Key, F: Key, V: Flowed<F>>(
    alloc: Global,
    hinted: Vec<HintedFlow<N, F, V>>,
) -> Result<Vec<ByFlow<N, F, V>>, AllocError>
    ensures { IfOk result (λ v. v.items ≡ hinted.items) }
{
    let mut flows = Vec::with_capacity(alloc, hinted.len())?;
    for each in hinted {
        flows.push(each.into_flow())?;
    }
    Ok(flows)
}
