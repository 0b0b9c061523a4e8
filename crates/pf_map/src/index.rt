//! Values found by their names and by a second key.
ghost use Rattle.std.specs.{Prelude.{◌≡◌, T, [], length, false, Some, IfOk}, FinMap.is_sorted, List.Sorted.{IsPermutation, IsSortedBy}};
ghost use Rattle.std.specs.{Option.option_map, Ordering.is_lt};
ghost use Rattle.pf_map.specs.{Indexes.{of_flow, is_clash, unflowed, IsIndexOf}, Maps.{with_value, without, entry_at}};

use crate::by_flow::{ByFlow, Flowed, HintedFlow, are_apart, each_by_flow, in_order_of_flows};
use crate::each::Each;
use crate::entry::KeyValue;
use crate::flows::Flows;
use crate::pairs::Pairs;
use pf_key::{Key, Sought};
use std::alloc::{AllocError, Global};
use std::marker::Model;

/// Values by name, of which no two have one flow. Contracts see it as the list of them in the order of names.
///
/// Each value stands once, in an entry that the map by name and the map by flow share. Both maps are trees, so that a changed index
/// shares nearly all with the old one.
pub struct Index<N: Key, F: Key, V: Flowed<F>> {
    names: Pairs<N, V>,
    flows: Flows<N, F, V>,
}

impl<N: Key, F: Key, V: Flowed<F>> Drop for Index<N, F, V> {
    fn drop(self) {
        let Index { names: _, flows: _ } = self;
    }
}

impl<N: Key, F: Key, V: Flowed<F>> Model for Index<N, F, V> {
    ghost use Rattle.std.specs.Prelude.{List};
    ghost use Rattle.pf_map.specs.Indexes.{IsIndex};

    ghost Value = { List (N × V) };

    ghost view = { λ i. i.names };

    ghost invariant = { λ i. IsIndex N.order F.order V.flow i.names i.flows };
}

// The flows without that of a value that is taken out, if there is one.
fn without_flow<N: Key, F: Key, V: Flowed<F>>(
    alloc: Global,
    flows: Flows<N, F, V>,
    old: Option<&KeyValue<N, V>>,
) -> Result<Flows<N, F, V>, AllocError>
    ensures { IfOk result (λ m. m ≡ unflowed F.order V.flow (option_map (λ e. e.now.1) old.entry) flows) }
{
    match old {
        Some(old) => flows.without(alloc, old.value().flow()),
        None => Ok(flows),
    }
}

// The index of these values, which stand in the order of their names and in that of their flows; none where two have one flow.
fn of_both<N: Key, F: Key, V: Flowed<F>>(
    alloc: Global,
    entries: &[KeyValue<N, V>],
    flows: Vec<HintedFlow<N, F, V>>,
) -> Result<Option<Index<N, F, V>>, AllocError>
    requires named { T (is_sorted N.order entries.now) }
    requires same { IsPermutation entries.now flows.items }
    requires sorted { IsSortedBy (λ a b. is_lt (F.order (V.flow a.1) (V.flow b.1))) flows.items }
    ensures { IfOk result (λ i. IsIndexOf F.order V.flow entries.now i) }
{
    if !are_apart(&flows) {
        return Ok(None);
    }
    let names = Pairs::of(alloc, entries)?;
    let flows = Flows::of(alloc, &each_by_flow(alloc, flows)?)?;
    Ok(Some(Index { names, flows }))
}

impl<N: Key, F: Key, V: Flowed<F>> Index<N, F, V> {
    /// No values. It takes no memory.
    pub fn empty() -> Index<N, F, V>
        ensures { result ≡ [] }
    {
        Index {
            names: Pairs::empty(),
            flows: Flows::empty(),
        }
    }

    /// The index of these values, which stand in the order of their names, no name twice; None where two of them have one flow.
    /// `AllocError`: nothing is made.
    pub fn of(
        alloc: Global,
        entries: &[KeyValue<N, V>],
    ) -> Result<Option<Index<N, F, V>>, AllocError>
        requires { T (is_sorted N.order entries.now) }
        ensures { IfOk result (λ i. IsIndexOf F.order V.flow entries.now i) }
    {
        let flows = in_order_of_flows(alloc, entries)?;
        of_both(alloc, entries, flows)
    }

    /// How many values there are.
    pub fn len(&self) -> usize
        ensures { result ≡ length self.now }
    {
        self.names.len()
    }

    /// The value of a name, if there is one.
    pub fn get<Q: Sought<N>>(&self, name: &Q) -> Option<&KeyValue<N, V>>
        ensures { option_map (λ e. e.now) result ≡ entry_at N.order (Q.key name.now) self.now }
    {
        self.names.get(name)
    }

    /// The value of a flow, if there is one.
    pub fn of_flow<Q: Sought<F>>(&self, flow: &Q) -> Option<&KeyValue<N, V>>
        ensures { option_map (λ e. e.now) result ≡ of_flow F.order V.flow (Q.key flow.now) self.now }
    {
        self.flows.get(flow)
    }

    /// Whether a value of another name has the flow of this one.
    pub fn is_clash(&self, new: &KeyValue<N, V>) -> bool
        ensures { result ≡ is_clash N.order F.order V.flow self.now new.now }
    {
        match self.of_flow(new.value().flow()) {
            Some(other) => !Key::same(other.key(), new.key()),
            None => false,
        }
    }

    /// The same index, with one owner more. No page is copied. `AllocError`: nothing is made.
    pub fn shared(&self) -> Result<Index<N, F, V>, AllocError>
        ensures { IfOk result (λ i. i ≡ self.now) }
    {
        Ok(Index {
            names: self.names.shared()?,
            flows: self.flows.shared()?,
        })
    }

    /// The index with a value, in the place of the one of its name if there is one; its flow is that of no other name's value
    /// (`is_clash`). In each map pages on the way to it that others hold are copied, three at most, and all else is shared.
    /// `AllocError`: nothing is left of this index; what shares its pages stays.
    pub fn with(self, alloc: Global, new: &KeyValue<N, V>) -> Result<Index<N, F, V>, AllocError>
        requires { is_clash N.order F.order V.flow self new.now ≡ false }
        ensures { IfOk result (λ i. i ≡ with_value N.order self new.now.0 (Some new.now.1)) }
    {
        let Index { names, flows } = self;
        let old = names.get(new.key());
        let had = old.is_some();
        let kept = without_flow(alloc, flows, old)?;
        let flows = kept.with_new(alloc, &ByFlow::new(new)?)?;
        let names = names.with_known(alloc, had, new)?;
        Ok(Index { names, flows })
    }

    /// The index with no value of a name. In each map pages on the way to it that others hold are copied, three at most, and all
    /// else is shared. `AllocError`: nothing is left of this index; what shares its pages stays.
    pub fn without<Q: Sought<N>>(
        self,
        alloc: Global,
        name: &Q,
    ) -> Result<Index<N, F, V>, AllocError>
        ensures { IfOk result (λ i. i ≡ without N.order self (Q.key name.now)) }
    {
        let Index { names, flows } = self;
        let flows = without_flow(alloc, flows, names.get(name))?;
        let names = names.without(alloc, name)?;
        Ok(Index { names, flows })
    }

    /// Its values, in the order of their names. It takes no memory.
    pub fn entries(&self) -> Each<'_, N, V>
        ensures { result ≡ self.now }
    {
        self.names.entries()
    }
}
